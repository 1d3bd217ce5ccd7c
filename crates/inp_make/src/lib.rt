//! A record that is made from two numbers, so that a large one need not be stored.
//!
//! This crate is for a program that plays such a record, and for tests. [`make`] gives it: a touchpad with ten slots on
//! which ten fingers touch and move, and a source that injects a number of frames. Three clients read them after each
//! frame, after each tenth frame, and at the end, when events were lost. The crate depends on `inp_actors` for records,
//! on `inp_caps` for the touchpad, and on `inp_model`.
//!
//! The device is `pad`: hint 64, ten slots, the button `BTN_TOUCH`, and positions from 0 to 4096. Its actors are the
//! source `finger` and the clients `fast`, `mid` and `slow`. In a record of the number N the lines are, in order:
//!
//! | Line | When |
//! |---|---|
//! | `fast open`, `mid open`, `slow open` | first |
//! | `BTN_TOUCH` 1 | in frame 0 |
//! | `ABS_MT_SLOT` i | in each frame, for each finger i from 0 to 9 |
//! | `ABS_MT_TRACKING_ID` i | after it, in frame 0 |
//! | `ABS_MT_POSITION_X` (N + 7f + 13i) mod 4096 + 1 | after it, in each frame f |
//! | `ABS_MT_POSITION_Y` (N + 11f + 17i) mod 4096 + 1 | after it |
//! | `SYN_REPORT` 0 | after the fingers, in each frame |
//! | `fast follow` | after each frame |
//! | `mid follow` | after it, where f mod 10 is 9 |
//! | `slow follow` | last |
//!
//! Frames are counted from 0, and all events of frame f have the moment 10000 (f + 1), in microseconds.
//!
//! Its contract: the record is `generated number count` of `specs/Generated.antt`, for every number and for each count
//! of frames up to 10,000, unless memory runs out. [`examples`] shows what that definition says: where the fingers are,
//! the events of a finger, the moments, and how many events a frame and how many lines each actor has.
#![tactic(auto)]

pub mod examples;
mod frame;
mod generated_record;
mod pad;

pub use generated_record::{FRAMES_MAX, make};
pub use pad::BTN_TOUCH;
