//! Reading a record's text.
ghost use Rattle.std.specs.Prelude.{◌≤◌, length};
ghost use Rattle.inp_edge.specs.declared.input.TheConstants.{INPUT_LIMIT};
ghost use Rattle.inp_record.specs.Fault.{IsParsing};
ghost use Rattle.inp_record.specs.Meaning.{meaning};
ghost use Rattle.inp_c.specs.FromText.{IsTextRead};

use crate::cause::cause_number;
use crate::status::{NO_MEMORY, REFUSED, TOO_LONG};
use inp_edge::INPUT_LIMIT;
use inp_record::{ParseFault, Record, parse};
use std::alloc::Global;

/// The record that a text is, or the status that says why it is no record. The line and the cause of a refused text are
/// told; both are 0 at first.
pub(crate) fn read_text(
    alloc: Global,
    text: &[u8],
    line: &mut u32,
    cause: &mut u32,
) -> Result<Record, u32>
    ensures { IsTextRead text.now line.old cause.old result line.new cause.new }
{
    if text.len() > INPUT_LIMIT {
        return Err(TOO_LONG);
    }
    match record_of(alloc, text) {
        Ok(recorded) => Ok(recorded),
        Err(ParseFault::Refused(refused)) => {
            *line = refused.line;
            *cause = cause_number(refused.cause);
            Err(REFUSED)
        }
        Err(ParseFault::NoMemory) => Err(NO_MEMORY),
    }
}

/// The record that a text is.
fn record_of(alloc: Global, text: &[u8]) -> Result<Record, ParseFault>
    requires within { length text.now ≤ INPUT_LIMIT }
    ensures meaning { IsParsing result (meaning text.now) }
{
    parse(alloc, text)
}
