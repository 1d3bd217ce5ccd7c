//! Which client of a device holds its grab, and whether the device is inhibited.
//!
//! This crate is for whoever keeps a device with clients. [`Handles`] has one place for a client that took the device
//! for itself (evdev's grab request), and a flag that says whether the device is inhibited (the kernel's `inhibited`
//! attribute). It depends on `inp_model`.
//!
//! A contract sees [`Handles`] as the number of the holder, if there is one, and the flag (`HandleState` in
//! `specs/Handles.antt`). Each refusal says exactly when it comes, and changes nothing. Nothing takes memory.
#![tactic(auto)]

mod handles;
mod refusal;

pub use handles::Handles;
pub use refusal::{Busy, NotGrabber};
