//! A joystick client of an input device, as the kernel's joydev is one: it hands out numbered buttons and axes.
//!
//! This crate is for whoever reads a device as a joystick. A [`Joy`] opens a client and hands out how each button and
//! axis stands (a startup). Then it hands out a record of eight bytes for each button event and each change of an axis.
//! Where events were lost it synchronises and begins with a startup again. It depends on `inp_reader` for the client,
//! on `inp_recon` for its view, and on `inp_model` for events and the trait `Evdev`. It also depends on `inp_caps` for
//! the description and on `inp_bits` for words of truth values.
//!
//! Its contract: `specs/Joy.antt` says what `start` and `read` ask of an evdev, one step by the answers before it. It
//! also says what they answer, hand out and keep (a `Talk` of `inp_reader`). [`Joy::start`] and [`Joy::read`] promise
//! that the calls they made are those of that talk, of `read` in some number of turns. The answer, the record and what
//! is kept are its result (`FollowsTalk`, `IsJoyRead`). Without a record the caller's bytes stay. A `read` ends. The
//! count of answers Again rises at `Again` alone. What the calls leave of the history is said as
//! [`Reader`](inp_reader::Reader) says it (`LeavesMade`), and so is where the client stands. [`laws::pictures`] states
//! what a startup, an event and a view that is the device's make of pictures. [`examples`] shows what two short
//! histories, a loss among them, hand out byte by byte.
//!
//! The picture is what the records since the last startup make of a blank one (`specs/Picture.antt`). What is left of a
//! startup leads it to the buttons and cut axes of the reader's view, and after the startup it shows them. This is an
//! invariant, `IsPictured` of `specs/Reads.antt`, which [`Joy::picture`] promises. Where `read` answers `Frame`, the
//! picture is the device's at the end of that frame, if the client could follow the device up to there.
//!
//! A joystick client takes all its memory when it is made; only the open of a start may meet want of memory. A `start`
//! makes at most 64 calls, a `read` at most 128.
#![tactic(auto)]

mod code_list;
pub mod examples;
mod joy;
mod joy_read;
mod joy_record;
mod joy_state;
pub mod laws;
mod picture;
mod stops;
mod turn_end;
mod views;

pub use code_list::{BTN_JOYSTICK, BTN_MISC};
pub use joy::Joy;
pub use joy_read::JoyRead;
pub use joy_record::{JS_EVENT_AXIS, JS_EVENT_BUTTON, JS_EVENT_INIT, JoyRecord};
pub use picture::Picture;
