//! The actors of a record.

use crate::{Name, Role};
use inp_model::Items;

/// The greatest number of actors of a record: on each of 8 devices 8 sources, 128 clients, taps and joysticks, and an
/// owner (this project's choice).
pub const ACTORS_MAX: u32 = 1096;

const _: () = prove!(ACTORS_MAX == 8 * (8 + 128 + 1));

/// An actor of a record.
#[derive(Drop)]
pub struct ActorText {
    /// Its name.
    pub name: Name,
    /// What it is.
    pub role: Role,
    /// The number of its device, from 0.
    pub device: u32,
}

/// The actors of a record, in file order. They are numbered from 0 over the whole record.
pub type Actors = Items<ActorText>;
