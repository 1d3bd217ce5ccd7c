//! What each role of an actor does at a line.

pub(crate) mod client;
pub(crate) mod joystick;
pub(crate) mod owner;
pub(crate) mod source;
pub(crate) mod state;
pub(crate) mod tap;
