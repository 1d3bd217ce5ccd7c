//! What a recorded device file says, as data: devices, the actors on them, what these do, and the streams of events
//! that sources take from files.
//!
//! This crate is for whoever reads a record from text, plays one, or prints its result. They meet in [`Record`] and
//! need to know nothing of one another. It depends on `inp_model` for events and clocks, and on `inp_caps` for
//! descriptions.
//!
//! Its contract: a [`Record`] is seen as its version and its four lists and keeps what `IsRecord` says
//! (`specs/Record.antt`). The version is 1 or 2, its indices are in range, and there are at most [`ACTORS_MAX`] actors.
//! An owner's device is made by requests and has no other owner. Each line's command is one that its actor's role has,
//! each number is one that a line may have, and there is one stream for each stream command. So whoever plays a record
//! has nothing to refuse. [`Name`], [`FileName`], `Command::is_of` and `Command::stream_index` have exact results, each
//! an equation. Nothing here takes memory but the lists' `push`.
#![tactic(auto)]

mod actor_text;
mod command;
mod device_text;
mod file_name;
mod line;
mod name;
mod record;
mod role;

pub use actor_text::{ACTORS_MAX, ActorText, Actors};
pub use command::{Command, READ_MAX};
pub use device_text::{DeviceText, Devices};
pub use file_name::FileName;
pub use line::{Line, Lines};
pub use name::{NAME_MAX, Name, is_name};
pub use record::{Record, Stamps, Streams, VERSION_MAX};
pub use role::Role;
