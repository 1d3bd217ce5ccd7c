//! Devices that a program makes by requests, and what goes to them.
//!
//! This crate is for whoever makes a device as a program does through uinput. A [`Maker`] takes the requests: what the
//! device has, its name, and that it be created. The [`Udev`] that it gives is a device as any other, and its maker,
//! the owner, reads by [`Udev::feedback`] what goes to the device: its lights, sounds and settings. The crate depends
//! on `inp_device`, whose device makes the steps and says which events go to it. It also depends on `inp_feedback`,
//! whose definitions say what is sent to it and what waits, and on `inp_actors` for names. The program plays so the
//! devices that a record makes by requests. Threads share such a device by `inp_turn` and `inp_port`. [`UPort`] is a
//! port of one, [`UClient`] is one thread's use of it, and [`FeedbackPort::feedback`] is a feedback call under the
//! turn.
//!
//! Its contract: a [`Udev`] keeps a list of its accepted steps, and between them of its feedback calls ([`UEntry`]).
//! [`Udev::step`] (`IsDeviceStep`) and [`Udev::inject_all`] are those of a device that made the same steps, as if there
//! were no feedback calls. So it is an `Evdev`, and a value that `inp_port` can serve. What it has now is asked for with
//! no step, as of a device ([`Udev::visible`] to [`Udev::repeat`], by the queries of `inp_device`). A feedback call
//! writes the first events that wait, as many as fit, to the front of the buffer, and the rest of the buffer stays.
//! What is sent and what waits is what `inp_feedback` says of the kept list. The last 15 at most wait of the events that
//! were sent to the device and not taken yet. The call is kept, or `Full` comes exactly where as many are kept as the
//! log limit says. The code is told by its device, after a step, whether the step's event goes to it, and never looks
//! back at its list.
//!
//! By a port ([`FeedbackPort::feedback`], `IsFeedbackTurn` of `specs/FeedbackTurn.antt`) one turn is taken. The call is
//! answered, and the buffer written, as the device does it for what is kept then, which begins with all that the pass
//! had seen. A call that is kept is the last entry that the pass has seen, and its place alone comes to be the pass's
//! own. A refused one enters nothing. To the caller of a [`UClient`] it is no step (`IsFeedbackBy`). Its own steps
//! stay, the answer has the length of the history that it then sees, and its tie has the place of the call more. What
//! `inp_port` says of a port of served values and of its client holds of [`UPort`] and [`UClient`].
//!
//! [`Owned`] is a device with its owner for one thread, and an `Evdev` too. Its caller is told the feedback calls as
//! the tie (`owned_view` of `specs/UdevView.antt`). So calls of an evdev leave them as they are, and are calls of the
//! device without its owner (`proofs/Tied.antt`). It answers feedback calls by `Feeds` of `inp_feedback` as
//! [`Udev::feedback`] does (`IsFeedbackOf` of `specs/OwnedFeeds.antt`).
//!
//! Of a [`Maker`], `setup` is refused exactly where the text is no name, and `bits` lends the builder of descriptions.
//! `create` answers `NotSetUp` exactly where no setup was accepted. Else it gives a device of the description that was
//! asked for, which keeps nothing yet, or memory ran out. A maker whose `create` was refused comes back as it was. Only
//! [`Maker::create`], [`Udev::new`], [`Owned::new`], [`UPort::new`](inp_port::PortOf::new) and a step that opens a
//! client take memory.
//!
//! The laws of what waits, and examples on short lists, are those of `inp_feedback`.
#![tactic(auto)]

mod bad_name;
mod create_refused;
mod kept;
mod maker;
mod outputs;
mod owned;
mod owned_feeds;
mod port;
mod udev;

pub use bad_name::BadName;
pub use create_refused::CreateRefused;
pub use inp_device::{ClientState, Repeat};
pub use inp_feedback::{FEEDBACK_MAX, Fed, UEntry};
pub use maker::Maker;
pub use owned::Owned;
pub use port::{FeedbackPort, UClient, UPort};
pub use udev::Udev;
