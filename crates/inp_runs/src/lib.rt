//! What is promised of the result of a record, whatever the order in which its jobs' steps were made, and all lines of
//! an actor.
//!
//! This crate is for whoever plays a record, on one thread or on many, and for whoever relies on its result. It depends
//! on `inp_script` for jobs and runs, on `inp_recon` for what is true of each client, and on no device.
//!
//! Its contract is a definition, `ArePromised` (`specs/Job.antt`), and what follows from it. Each device has one
//! history, in which each job's replies are the one-thread device's at their places. Each sight, the joysticks' too,
//! follows its lines, and each place is one accepted call of one job. `specs/LossCauses.antt` and
//! `specs/JobViews.antt` say why a job lost events, and what its view is at each report. `docs/RUNS.md`, "Playing a
//! record", has all parts. So a job's view at a report is the device's state at that frame's end where its client could
//! follow ([`laws::jobs_show_the_device`]). [`laws::indices_on_a_short_sight`] shows the indices of equal events on a
//! short sight. A joystick's job has a picture in place of a view: what its records make.
//!
//! What a player must show for it stands in `specs/Done.antt`. Each actor of a device followed its lines on one
//! history, with a view of the device's slots. Each place of the history is one accepted call of one actor, in whatever
//! order the calls were made ([`laws::devices_done_are_promised`]). And this holds of each device by itself
//! ([`laws::all_as_promised`]). [`do_lines`] has an actor do all its lines over whatever device it is lent, and says so
//! (`ActsAll`, `specs/DoingAll.antt`). The lines were done in file order, and a source of a device where lines wait
//! then said that it is done. Those of an owner are feedback calls, one after another (`AreOwned`). Those of any other
//! actor are calls of an evdev: they are those of its lines' talk, and the job is their result (`DoesAll`). Lines of a
//! source that stand next to each other in the record and each inject an event ([`gather_front`]) are done together, by
//! one call of the device. To the history it is the calls that the lines would make one by one. After want of memory
//! too all that was done with the device is such calls (`IsActedOn`).
//!
//! An owner of a device that is made by requests makes no step. What is promised of it is `HasOwned`
//! (`specs/Owner.antt`). The feedback calls among the steps that its device kept are those of its lines, in file order,
//! and each was answered from what was kept before it. Where as many calls are kept as the log limit says, the next one
//! is refused, and the owner stops. [`laws::owners_on_a_short_row`] shows both on a short row. Each of an owner's lines
//! is such a call ([`laws::owners_lines_are_calls`]). For the crates above `proofs/owners/OwnerLaws.antt` has what an
//! owner was told as its device goes on by steps and by its lines (`IsToldByLines`).
//!
//! `specs/Play.antt` says what the result of a record is whose lines are done in file order, each device answering on
//! one list of steps. It is a run of each device, the result of each joystick, and what each owner was told. A feedback
//! call makes no step: it is answered from the device's steps and the feedback calls before it, and nothing is done
//! where its owner has stopped. Two plays of a record give the same ([`laws::at_most_one_play`]), and that is promised
//! ([`laws::each_play_is_promised`]).
//!
//! Why events are lost is said of any history ([`laws::losses`], `specs/LossCauses.antt`). Where a client has, or took,
//! a `SYN_DROPPED`, the step at its place met a full ring of that client, or changed its clock while events were
//! queued.
#![tactic(auto)]

mod actor_lines;
mod event_lines;
pub mod laws;

pub use actor_lines::do_lines;
pub use event_lines::{NO_STAMPED, gather_front};
