//! Reading a record and its streams.
ghost use Rattle.std.specs.Prelude.{◌≡◌, ◌≤◌, ◌<◌, length, is_some, MatchResult, IsSome, Ok};
ghost use Rattle.inp_edge.specs.declared.input.TheConstants.{INPUT_LIMIT};
ghost use Rattle.inp_texts.specs.Line.{lines_of};
ghost use Rattle.inp_record.specs.Meaning.{meaning};
ghost use Rattle.inp_record.specs.Stream.{stream_at};
ghost use Rattle.inp_record.specs.LineNumber.{action_numbers};
ghost use Rattle.inp_tool.specs.Edge.{reads_of};
ghost use Rattle.inp_tool.specs.RecordFile.{IsReadLast, CannotRead, HasRecord, HasNoRecord};
ghost use Rattle.inp_tool.specs.LoadedStreams.{IsDone, CannotDo, AreStreamsLoaded, CannotFinish, IsRefusal, HasParts, HasNoParts, IsStream, IsNoStream};

use crate::no_record::NoRecord;
use inp_edge::{Input, ReadFault, read_all};
use inp_record::{
    Cause, Command, LoadFault, ParseFault, Record, Refused, line_number, load, parse,
};
use std::alloc::Global;

/// Reads the record in a file, and its streams, in line order.
pub(crate) fn read_record<I: Input>(
    alloc: Global,
    input: &mut I,
    file: &str,
) -> Result<Record, NoRecord>
    ensures read { let r = reads_of I.files I.given I.left I.faults input.old input.new in
        MatchResult result (HasRecord r file.now) (HasNoRecord r file.now) }
    ensures files_stay { I.files input.new ≡ I.files input.old }
    ensures stays_told { is_some (I.left input.new) ≡ is_some (I.left input.old) }
    ensures never_falls { I.faults input.old ≤ I.faults input.new }
{
    let text = read_file(alloc, input, file)?;
    read_parts(alloc, input, &text)
}

/// The record that a text is, and the streams in the files that its lines name.
fn read_parts<I: Input>(alloc: Global, input: &mut I, text: &[u8]) -> Result<Record, NoRecord>
    requires within { length text.now ≤ INPUT_LIMIT }
    ensures read { let r = reads_of I.files I.given I.left I.faults input.old input.new in
        MatchResult result (HasParts r text.now) (HasNoParts r text.now) }
    ensures files_stay { I.files input.new ≡ I.files input.old }
    ensures stays_told { is_some (I.left input.new) ≡ is_some (I.left input.old) }
    ensures never_falls { I.faults input.old ≤ I.faults input.new }
{
    let mut recorded = parse_text(alloc, text)?;
    read_streams(alloc, input, text, &mut recorded)?;
    Ok(recorded)
}

/// Reads a whole file.
fn read_file<I: Input>(alloc: Global, input: &mut I, name: &str) -> Result<Vec<u8>, NoRecord>
    ensures read { let r = reads_of I.files I.given I.left I.faults input.old input.new in
        MatchResult result (λ bytes. IsReadLast r name.now bytes.items) (CannotRead r name.now) }
    ensures files_stay { I.files input.new ≡ I.files input.old }
    ensures stays_told { is_some (I.left input.new) ≡ is_some (I.left input.old) }
    ensures never_falls { I.faults input.old ≤ I.faults input.new }
{
    match read_all(alloc, input, name) {
        Ok(bytes) => Ok(bytes),
        Err(ReadFault::Failed) => Err(NoRecord::Unread),
        Err(ReadFault::TooLong) => Err(NoRecord::TooLong),
        Err(ReadFault::NoMemory) => Err(NoRecord::NoMemory),
    }
}

/// The record that a text is, without its streams.
fn parse_text(alloc: Global, text: &[u8]) -> Result<Record, NoRecord>
    requires within { length text.now ≤ INPUT_LIMIT }
    ensures means { MatchResult result
        (λ recorded. meaning text.now ≡ Ok recorded) (IsRefusal (meaning text.now)) }
{
    match parse(alloc, text) {
        Ok(recorded) => Ok(recorded),
        Err(ParseFault::Refused(refused)) => Err(NoRecord::Refused(refused)),
        Err(ParseFault::NoMemory) => Err(NoRecord::NoMemory),
    }
}

/// Reads the files of all stream lines, in line order, and loads each.
fn read_streams<I: Input>(
    alloc: Global,
    input: &mut I,
    text: &[u8],
    recorded: &mut Record,
) -> Result<(), NoRecord>
    requires within { length text.now ≤ INPUT_LIMIT }
    requires means { meaning text.now ≡ Ok recorded.old }
    ensures read { let r = reads_of I.files I.given I.left I.faults input.old input.new in
        MatchResult result
        (λ _. AreStreamsLoaded r recorded.old recorded.new) (CannotFinish r text.now recorded.old) }
    ensures files_stay { I.files input.new ≡ I.files input.old }
    ensures stays_told { is_some (I.left input.new) ≡ is_some (I.left input.old) }
    ensures never_falls { I.faults input.old ≤ I.faults input.new }
{
    let count = recorded.lines().len() as u32;
    for line in 0..count {
        read_stream(alloc, input, text, recorded, line)?;
    }
    Ok(())
}

/// Reads the file of a line, where it is a stream line, and loads it.
fn read_stream<I: Input>(
    alloc: Global,
    input: &mut I,
    text: &[u8],
    recorded: &mut Record,
    line: u32,
) -> Result<(), NoRecord>
    requires within { length text.now ≤ INPUT_LIMIT }
    requires lines { length (action_numbers 1 (lines_of text.now)) ≡ length recorded.old.lines }
    requires there { line < length recorded.old.lines }
    ensures read { let r = reads_of I.files I.given I.left I.faults input.old input.new in
        MatchResult result (λ _. IsDone r recorded.old line recorded.new)
        (CannotDo r text.now recorded.old line) }
    ensures files_stay { I.files input.new ≡ I.files input.old }
    ensures stays_told { is_some (I.left input.new) ≡ is_some (I.left input.old) }
    ensures never_falls { I.faults input.old ≤ I.faults input.new }
{
    match &recorded.lines().get(line as usize).command {
        Command::Stream { file, .. } | Command::Stream16 { file, .. } => {
            let bytes = read_file(alloc, input, file.text())?;
            load_stream(text, recorded, line, &bytes)
        }
        _ => Ok(()),
    }
}

/// Makes the events of a file the stream of a stream line.
fn load_stream(text: &[u8], recorded: &mut Record, line: u32, bytes: &[u8]) -> Result<(), NoRecord>
    requires within { length text.now ≤ INPUT_LIMIT }
    requires lines { length (action_numbers 1 (lines_of text.now)) ≡ length recorded.old.lines }
    requires stream { IsSome (stream_at recorded.old line) }
    ensures loaded { MatchResult result
        (λ _. IsStream recorded.old line bytes.now recorded.new)
        (IsNoStream text.now recorded.old line bytes.now) }
{
    match load(recorded, line, bytes) {
        Ok(()) => Ok(()),
        Err(LoadFault::BadStream) => Err(NoRecord::Refused(Refused {
            line: line_number(text, line),
            cause: Cause::BadStream,
        })),
        Err(LoadFault::NoMemory) => Err(NoRecord::NoMemory),
    }
}
