//! Why a line was not read.

ghost use Rattle.std.specs.Prelude.{◌≡◌};
ghost use Rattle.inp_record.specs.Fault.{fault_at};

use crate::{Cause, ParseFault, Refused};
use inp_model::NoMemory;

/// Why a line was not read.
#[derive(Clone, Copy, Debug, PartialEq, Eq)]
pub(crate) enum LineFault {
    /// It has no meaning.
    Refused(Cause),
    /// Memory ran out.
    NoMemory,
}

impl LineFault {
    /// The same of a line with this number.
    pub(crate) fn at(self, line: u32) -> ParseFault
        ensures { result ≡ fault_at line self }
    {
        match self {
            LineFault::Refused(cause) => ParseFault::Refused(Refused { line, cause }),
            LineFault::NoMemory => ParseFault::NoMemory,
        }
    }
}
