//! The devices of a record.

use crate::Name;
use inp_caps::Caps;
use inp_model::Items;

/// A device of a record.
#[derive(Drop)]
pub struct DeviceText {
    /// Its name.
    pub name: Name,
    /// What it is.
    pub caps: Caps,
    /// Whether it is made by requests, and so may have an owner.
    pub requested: bool,
}

/// The devices of a record, in file order.
pub type Devices = Items<DeviceText>;
