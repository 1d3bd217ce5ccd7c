//! Playing a record: its lines are done in file order, each by its actor on its device, on one thread.
//!
//! This crate is for the program and for tests. It depends on `inp_actors` for records, on `inp_script` for actors and
//! their jobs, on `inp_uinput` for the devices, each with its owner, and on `inp_runs` for what is promised. Each
//! device is an [`Owned`](inp_uinput::Owned), also where the record gives it no owner: then it keeps its steps alone.
//!
//! Lines that follow each other and each inject an event of one source are done together, by one call of the device.
//!
//! Its contract: what is given is the result of the record (`IsPlay` of `inp_runs`), where each device answers on one
//! list of steps. Each device has one history, in which each job's replies, joysticks' too, are the one-thread device's
//! at their places. Among its steps stand the feedback calls of the device's owner and no other ones, each answered
//! from what was kept before it (`ArePromised` of `inp_runs`). A line `feedback` is done by its owner on its device and
//! makes no step. Any other line leaves the feedback calls as they are.
#![tactic(auto)]

mod gathered_runs;
mod one_thread;
mod player;

pub use one_thread::play;
