//! The description of an axis.

/// The description of an absolute axis, with its value (evdev's `struct input_absinfo`).
#[derive(Clone, Copy, Debug, PartialEq, Eq)]
#[repr(C)]
pub struct AxisInfo {
    /// The value.
    pub value: i32,
    /// The least value that the device means to send. Nothing is cut to it.
    pub minimum: i32,
    /// The greatest value that the device means to send. Nothing is cut to it.
    pub maximum: i32,
    /// How far a value may move before the move counts.
    pub fuzz: i32,
    /// How far round 0 a joystick counts as at rest.
    pub flat: i32,
    /// Units per millimetre, or per radian for a rotation.
    pub resolution: i32,
}

/// An axis of which nothing was said: all its numbers are 0 (this project's choice).
pub const NO_INFO: AxisInfo = AxisInfo {
    value: 0,
    minimum: 0,
    maximum: 0,
    fuzz: 0,
    flat: 0,
    resolution: 0,
};
