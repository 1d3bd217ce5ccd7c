//! The action lines of a record.

use crate::Command;
use inp_model::Items;

/// What one action line says.
#[derive(Drop)]
pub struct Line {
    /// The number of the actor, from 0 over the whole record.
    pub actor: u32,
    /// What it does.
    pub command: Command,
}

/// The action lines of a record, in file order.
pub type Lines = Items<Line>;
