//! How much a record has, as C has it.
ghost use Rattle.std.specs.Prelude.{◌≡◌};
ghost use Rattle.inp_c.specs.Counts.{told_counts};

use inp_record::Record;
use std::mem::size_of;

/// How many devices, actors and action lines a record has.
#[repr(C)]
#[derive(Clone, Copy)]
pub struct CCounts {
    /// How many devices it has.
    pub devices: u32,
    /// How many actors it has.
    pub actors: u32,
    /// How many action lines it has.
    pub lines: u32,
}

const _: () = prove!(size_of::<CCounts>() == 12);

/// How much a record has, as C has it.
pub(crate) fn c_counts(recorded: &Record) -> CCounts
    ensures { result ≡ told_counts recorded.now }
{
    CCounts {
        devices: recorded.devices().len() as u32,
        actors: recorded.actors().len() as u32,
        lines: recorded.lines().len() as u32,
    }
}
