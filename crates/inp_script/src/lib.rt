//! Jobs: what an actor of a record does, line by line, over any evdev, and what it sees.
//!
//! This crate is for whoever plays a record. An [`Actor`] does the lines of a source, a tap, a client or a joystick,
//! and keeps what it saw. That is each call with its reply, each event that it read or that its reader made, and each
//! record of a joystick that it handed out. It also keeps where nothing was visible. Or it is the owner of a device
//! that is made by requests. Then it keeps what it was told: each answer to a feedback call, and each event that the
//! call took. It depends on `inp_actors` for records, on `inp_reader` and `inp_recon` for readers and views, and on
//! `inp_joy` for joystick clients. It also depends on `inp_feedback` for feedback calls, on `inp_edge` for gates, and
//! on `inp_model` for steps, replies and `Evdev`.
//!
//! Its contract: `specs/Line.antt`, `specs/Client.antt` and `specs/Joystick.antt` say what each command asks of an
//! evdev, one step by the answers before it. They also say what the job is afterwards (a `Talk` of `inp_reader`).
//! `specs/Sight.antt` says what enters the sight. [`Actor::line`] promises that the calls it made are those of that
//! talk, in some number of rounds. The actor's job is the talk's result (`DoesLine`, `specs/DoneLine.antt`): what it
//! saw, its client and its view, of a joystick its picture, and whether it stopped. An actor that has stopped does
//! nothing. Where memory ran out it promises that the calls it made are the first ones of that talk (`BeginsLine`).
//! They are all that it did with the evdev (`IsLeft` of `inp_model`), so the evdev can be handed on. The description
//! and the tie stay, the own places grow by those of the calls, and the calls are a legal run.
//!
//! Besides, what an actor saw grows by entries of accepted calls. Their places are those that the evdev gained as its
//! own, in order (`GainsPlaces`). Its calls stay a legal run of the history (`StaysLegal`), and its view stays the fold
//! of what it saw (`StaysFolded`). Where it stops as idle, at least as many reads were answered Again as it says, or
//! their count stands at its end (`CountsTurns`). [`Actor::end`] makes the step End, or nothing where the actor has
//! stopped (`end_talk`), unless memory ran out, and makes no other call then either. [`Actor::finish`] gives the end
//! that `job_end` makes of the actor, a joystick's and an owner's apart. [`examples_of_jobs`] shows what these
//! definitions compute on short records.
//!
//! [`Actor::do_line`] does any line of a record on a device that the actor may own: one that is an evdev and that
//! answers feedback calls (`Feeds` of `inp_feedback`). A line of an owner makes one feedback call, with room for as
//! many events as it asks for but for no more than ever wait. The answer and the events are noted after what the owner
//! was told before. Where the owner had stopped, nothing is done (`OwnsLine`, `specs/ActorLine.antt`). An answer `Full`
//! stops it. A line of any other actor makes the calls of [`Actor::line`] (`CallsLine`). Where memory ran out, an owner
//! made one call or none, and any other actor the first calls of its talk (`BeginsToAct`). Where nobody owns the device
//! a line of an owner is nothing: [`Actor::line`] makes no call for it. An owner ends as an [`OwnerEnd`].
//!
//! A line that hands out events ends whatever the evdev answers. Each round makes a call that takes a place of the
//! history, which is bounded, or hands out an event that was read or made before. Else it counts one answer Again of
//! those that it may wait for (`specs/Effort.antt` here and in `inp_reader`). A line that reads records of a joystick
//! ends too: a read that hands out no record and does not end the line leaves its reader less to do. An actor takes
//! memory when it is made, at an open, and for what it sees.
//!
//! A call of [`Gated`] is one of the evdev behind the gate (`IsEvdevCall`), and so is one that injects many events.
//! After it, over any gate, the gate's `passed` holds of the job's number and the count of the calls before. The count
//! is then one more, whatever the number of events. No clause says that the gate was passed before the call and not
//! after it, and once: tests of evdevs and of gates look. A `Gated` rests before the call after an answer Again, and an
//! actor nowhere.
#![tactic(auto)]

mod actor;
mod blocks;
mod end;
pub mod examples;
mod fed_sight;
mod gated;
mod kept_sight;
mod notes;
mod role;
mod run;
mod sight;
mod sight_ref;
mod sight_run;
mod sights;
mod steps;
mod stop;
mod stops;
mod waiting;

pub use actor::Actor;
pub use end::ended::Ended;
pub use end::job::JobEnd;
pub use end::joystick::JoyEnd;
pub use end::owner::OwnerEnd;
pub use fed_sight::{FedList, FedSight};
pub use gated::Gated;
pub use run::{DeviceEnds, Jobs, JoyRuns, OwnerRuns, Played, Run, Runs};
pub use sight::{JoySight, JoySights, Sight};
pub use sight_ref::SightRef;
pub use sight_run::SightRun;
pub use sights::Sights;
pub use steps::step_of;
pub use stop::Stop;
pub use waiting::Waiting;
