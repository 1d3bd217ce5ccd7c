//! Migrating a record to the newest version of its text.
ghost use Rattle.std.specs.Prelude.{◌≡◌, IfOk};
ghost use Rattle.inp_record.specs.canon.Text.{record_text};
ghost use Rattle.inp_tool.specs.Upgrade.{upgraded};

use crate::upgrade::upgrade;
use inp_model::NoMemory;
use inp_record::{Record, print};
use std::alloc::Global;

/// The canonical text of the record in the newest version.
pub(crate) fn migrated_text(alloc: Global, recorded: Record) -> Result<Vec<u8>, NoMemory>
    ensures text { IfOk result (λ text. text.items ≡ record_text (upgraded recorded)) }
{
    print(alloc, &upgrade(recorded))
}
