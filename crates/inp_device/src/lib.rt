//! The one-thread device.
//!
//! This crate is for whoever plays steps on a device: `Device::new` makes a device of a description, and `Device::step`
//! makes one step and answers it. It depends on `inp_model`, whose definitions say the exact answer to each step after
//! each history. It also depends on `inp_caps` for the description, and on `inp_frames` for the state and the frames,
//! with `inp_state` and `inp_slots` for what queries answer. What filters leave of frames is of `inp_filter`. The
//! clients are of `inp_client`, the grab of `inp_handles`, and the lists of codes of `inp_bits`.
//!
//! Its contract is for every description, every history and each of the 23 steps. The reply, what is written to the
//! caller's buffers and the history after the call are the model's (`IsDeviceStep`). The code keeps the present state
//! and never looks back at its history.
//!
//! Refusals come in one order, but that an open that nothing else refuses may be refused for want of memory. The
//! history is longer by the step exactly where the step was accepted. After a refusal all is as before, both buffers
//! and what is kept for clients too (`past_stays`, `out_stays`, `cells_stay`, `stored_stays`), but that answers Again
//! are counted. The rest of a buffer that is written to stays. Of its caller `step` asks a moment in range and buffers
//! as long as what is asked for, and no more.
//!
//! A step adds to the events that are kept (`stored`) at most those that it offers, each once whoever gets it. It adds
//! one SYN_DROPPED for each client that loses its queue (`stored_most` in `specs/Device.antt`).
//!
//! After an event from outside `Device::sent` says whether it goes to the device's own lights, sounds and settings too
//! (`goes_out` in `specs/Device.antt`). `Device::enter` injects one event where the history has room, and answers the
//! same of it.
//!
//! `Device::inject_all` says from which place on it entered events and how many of them. They are no more than the log
//! limit leaves room for, and the history is longer by these, in order.
//!
//! A caller may also look at a device with no step, which leaves no trace in the history and removes no event. It asks
//! what a client could read now (`Device::visible`, `Device::readable`), which clock it has, whether it was revoked and
//! holds the grab (`Device::client`), and for its masks (`Device::mask`). It also asks what is on (`Device::bits`), for
//! an axis, a slot's value and the autorepeat. Each answer is an equation over the description and the past
//! (`specs/Queries.antt`).
//!
//! A device is an `Evdev` (`IsEvdevCall`): what was seen stays, and each reply has its place in one history.
//!
//! A step goes three ways. `Present::refusal` says whether something refuses it, in one order for all steps. Where
//! nothing does, `Present::accept` makes it; no kind of step tries a refusal of its own. Then `Device::step` enters it
//! in the history.
//!
//! A device is also a kept value of `inp_turn` (`src/kept.rt`), so that threads can use it in turns: its entries are
//! its history. A `Step` has at most 40 bytes.
#![tactic(auto)]

mod bitmap;
mod cells;
mod client_queries;
mod client_state;
mod client_steps;
mod device;
mod frame_filters;
mod frame_steps;
mod handler;
mod kept;
mod present;
mod queries;
mod query_steps;
mod refusals;
mod repeat;
mod replies;

pub use client_state::ClientState;
pub use device::Device;
pub use repeat::Repeat;
pub use replies::count_again;
