//! The report of the whole result of a record.
ghost use Rattle.std.specs.Prelude.{◌≡◌, IfOk};
ghost use Rattle.inp_report.specs.Whole.{whole_report};
ghost use Rattle.inp_script.specs.Runs.{AreRunsOf, AreJoysOf, AreOwnersOf};

use crate::joysticks::joy_report;
use crate::owners::owner_report;
use crate::whole::report;
use inp_actors::Record;
use inp_model::NoMemory;
use inp_script::Played;
use std::alloc::Global;

/// The report of the record's devices, after it that of its joysticks, and after that the one of its owners.
///
/// `played` must be the result of this record, as for [`report`], `joy_report` and `owner_report`. It takes time and
/// memory in proportion to the text.
///
/// # Errors
///
/// `NoMemory` where memory is short for the text.
pub fn whole_report(
    alloc: Global,
    recorded: &Record,
    played: &Played,
    history: bool,
) -> Result<Vec<u8>, NoMemory>
    requires runs { AreRunsOf recorded.now played.now.runs }
    requires joys { AreJoysOf recorded.now played.now.joys }
    requires owners { AreOwnersOf recorded.now played.now.owners }
    ensures text { IfOk result
        (λ text. text.items ≡ whole_report recorded.now history played.now) }
{
    let mut text = report(alloc, recorded, &played.runs, history)?;
    let joysticks = joy_report(alloc, recorded, &played.joys)?;
    text.extend_from_slice(&joysticks)?;
    let owners = owner_report(alloc, recorded, &played.owners)?;
    text.extend_from_slice(&owners)?;
    Ok(text)
}
