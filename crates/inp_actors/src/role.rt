//! What an actor is.

/// What an actor of a record is.
#[derive(Clone, Copy, Debug, PartialEq, Eq)]
pub enum Role {
    /// It injects events, as a driver does.
    Source,
    /// It reads as libevdev does, and keeps a view of the device.
    Client,
    /// It makes a client's calls one by one.
    Tap,
    /// It reads as a joystick, as the kernel's joydev has it.
    Joy,
    /// It reads what is sent to a device that was made by requests, as its owner.
    Owner,
}
