//! What each role of an actor comes to at its end.

pub(crate) mod ended;
pub(crate) mod job;
pub(crate) mod joystick;
pub(crate) mod owner;
