//! Why a client is not opened.
ghost use Rattle.std.specs.Prelude.{◌≡◌};
ghost use Rattle.inp_client.specs.declared.open_refused.OpenRefused.TheVariants.{NoMemory as WantOfMemory};

use inp_model::NoMemory;
use std::error::Error;
use std::fmt;

/// Why a client is not opened.
#[derive(Clone, Copy, Debug, PartialEq, Eq)]
pub enum OpenRefused {
    /// As many clients are open as may be (`CLIENTS_MAX`).
    TooMany,
    /// Memory ran out.
    NoMemory,
}

impl fmt::Display for OpenRefused {
    ghost use Rattle.std.specs.Prelude.{Some};
    ghost use Rattle.inp_client.specs.OpenRefused.{open_refused_text};

    ghost output = { λ refused. Some (open_refused_text refused) };

    fn fmt<W: fmt::Write>(&self, f: &mut fmt::Formatter<W>) -> fmt::Result {
        match self {
            OpenRefused::TooMany => write!(f, "too many clients are open"),
            OpenRefused::NoMemory => write!(f, "out of memory"),
        }
    }
}

impl Error for OpenRefused {}

impl From<NoMemory> for OpenRefused {
    ghost from_gives = { λ _ refused. refused ≡ WantOfMemory };

    fn from(_: NoMemory) -> OpenRefused {
        OpenRefused::NoMemory
    }
}
