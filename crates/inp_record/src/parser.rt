//! The parser of records.
ghost use Rattle.std.specs.Prelude.{◌≡◌, ◌<◌, ◌≤◌, ◌^◌, [], Ok, length, MatchResult};
ghost use Rattle.inp_texts.specs.Line.{lines_of};
ghost use Rattle.inp_record.specs.Fault.{IsParsing};
ghost use Rattle.inp_actors.specs.Record.{IsRecord};
ghost use Rattle.inp_record.specs.ItemsBefore.{ItemsBefore, context_of};
ghost use Rattle.inp_record.specs.Meaning.{meaning, as_record, record_of_context, AreLinesRead};

use crate::context::Context;
use crate::line_parser::read_line;
use crate::place::Place;
use crate::{Cause, ParseFault, Refused};
use inp_actors::Record;
use inp_model::Items;
use inp_texts::{line_end, strip_carriage_return};
use std::alloc::Global;

/// For so many bytes of a text, room for one action line is asked for before the first is read.
const LINE_LEN: usize = 32;

/// Reads all lines, and counts them. One list takes the words of each line.
fn read_lines(alloc: Global, text: &[u8]) -> Result<(Context, u32), ParseFault>
    requires few { length (lines_of text.now) < 2 ^ 32 }
    ensures { AreLinesRead result (lines_of text.now) }
{
    let Ok(lines) = Vec::with_capacity(alloc, text.len() / LINE_LEN) else {
        return Err(ParseFault::NoMemory);
    };
    let mut context = Context::new(alloc, Items::of(lines));
    let mut words = Vec::new(alloc);
    let mut line: u32 = 0;
    let mut rest = text;
    'lines: loop {
        let end = line_end(rest);
        line += 1;
        let bytes = strip_carriage_return(&rest[..end]);
        if let Err(fault) = read_line(&mut context, alloc, &mut words, bytes, rest) {
            return Err(fault.at(line));
        }
        if end == rest.len() {
            return Ok((context, line));
        }
        rest = &rest[end + 1..];
    }
}

/// The record that bytes are. `docs/FORMATS.md` has the form, which is this project's choice. Each stream is empty:
/// `load` gives it its events. The time is linear in the length of the text, since a record has at most 1,096 actors
/// and a line looks at each at most once.
///
/// # Errors
///
/// `ParseFault::Refused` names the first line, from 1, that has a cause that the text alone decides, and its first
/// cause in the order of [`Cause`]. A record without a header is refused at its last line. `ParseFault::NoMemory` says
/// that memory ran out.
pub fn parse(alloc: Global, text: &[u8]) -> Result<Record, ParseFault>
    requires few { length (lines_of text.now) < 2 ^ 32 }
    ensures meaning { IsParsing result (meaning text.now) }
{
    match read_lines(alloc, text) {
        Ok((context, line)) => into_record(alloc, context, line),
        Err(fault) => Err(fault),
    }
}

/// The record of what so many lines left, unless they have no header.
fn into_record(alloc: Global, context: Context, line: u32) -> Result<Record, ParseFault>
    requires record { IsRecord (record_of_context context) }
    ensures { (past : ItemsBefore) → context ≡ context_of past
        → IsParsing result (as_record line (Ok past)) }
{
    if context.place == Place::Start {
        return Err(ParseFault::Refused(Refused {
            line,
            cause: Cause::BadHeader,
        }));
    }
    match context.into_record(alloc) {
        Ok(record) => Ok(record),
        Err(_) => Err(ParseFault::NoMemory),
    }
}
