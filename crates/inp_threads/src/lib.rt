//! Playing a record on threads: each source, client, tap, joystick and owner of a device is a job on a thread of its
//! own.
//!
//! This crate is for the program and for tests. It depends on `inp_uinput` for devices that may have an owner, and on
//! `inp_port` for sharing them among threads. It also depends on `inp_script` for actors and their jobs, and on
//! `inp_runs` for what is promised.
//!
//! Its contract: in whatever order the threads made their steps, each device has one history, in which each job's
//! replies are the one-thread device's at their places. All else that is promised of runs holds too (`ArePromised` of
//! `inp_runs`). An owner makes no step. Its feedback calls stand among the steps, each answered from what was kept
//! before it (`HasOwned` of `inp_runs`). The results of joysticks and of owners are apart from those of the other jobs
//! (`Played` of `inp_script`). A line `follow` waits there for what other threads inject (`Waiting` of `inp_script`),
//! at most through the number of answers `Again` that the caller names. A source whose lines are done says so by the
//! step `End`.
//!
//! Each device, made by requests or not, is a `Udev` of `inp_uinput`, which keeps its steps and, between them, its
//! owner's feedback calls. It is shared by a port, and each of its actors gets a pass that was split off the first one
//! (`AreDealt` in `specs/Worker.antt`). The lines of the record are dealt to their actors in one walk over them
//! (`AreLinesDealt` in `specs/Lines.antt`). An actor's thread does all its lines, and gives the pass back, whatever the
//! result (`IsWorked`), with a turn for each call that is no injection. A job passes the gate before each of its calls,
//! an owner before each feedback call, and tells it its own number. A worker is lent any gate that knows this number
//! (`JobGate`), so that it can tell no other one. Nothing binds what lends it so. Tests look at when and how often the
//! gate is told, and that it is told of no job that there is not. The pass of an owner owns the places of its feedback
//! calls alone (`HasFedLines` in `specs/Owner.antt`), any other one the places of its steps alone (`HasWorked`). The
//! passes are joined (`AreJoined` in `specs/Joined.antt`), and the port is closed with the whole share. So each place
//! of the history is one accepted call of one job, and all feedback calls of a device are its owner's, of which it has
//! one at most. The devices know nothing of each other.
//!
//! Nothing says that a thread gets its turn, or who gets it first, and so nothing says that the call returns.
#![tactic(auto)]

mod device_run;
mod gathered;
mod job_gate;
mod lines;
mod one_job;
mod owned_client;
mod play;
mod worker;
mod workers;

pub use play::play_on_threads;
