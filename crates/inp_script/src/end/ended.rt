//! The result of an actor.

use crate::{JobEnd, JoyEnd, OwnerEnd};

/// The result of an actor when its lines are done.
#[derive(Drop)]
pub enum Ended {
    /// Of a source, a client or a tap.
    Job { end: JobEnd },
    /// Of a joystick.
    Joy { end: JoyEnd },
    /// Of an owner.
    Owner { end: OwnerEnd },
}
