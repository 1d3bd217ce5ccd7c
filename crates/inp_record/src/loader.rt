//! The streams of a record.
ghost use Rattle.std.specs.Prelude.{◌≡◌, ◌<◌, length, IfOk, IsSome, Some};
ghost use Rattle.inp_model.specs.Injection.{AreInTime};
ghost use Rattle.inp_stream.specs.Form.{time_len};
ghost use Rattle.inp_record.specs.Stream.{stamps_of, form_of, stream_at, AreStamps, IsLoaded};

use crate::LoadFault;
use inp_actors::{Command, Record, Stamps};
use inp_model::{Items, Stamped};
use inp_stream::RecordForm;
use std::alloc::Global;

/// The form of the records that a command's stream has.
fn form_of(command: &Command) -> RecordForm
    ensures { result ≡ form_of command.now }
{
    match command {
        Command::Stream16 { .. } => RecordForm::Narrow,
        _ => RecordForm::Wide,
    }
}

/// The events that bytes are, by records of this form.
fn stamps_of(alloc: Global, form: RecordForm, bytes: &[u8]) -> Result<Stamps, LoadFault>
    ensures stamps { AreStamps result (stamps_of (time_len form) bytes.now) }
    ensures in_time { IfOk result (λ stamps. AreInTime stamps) }
{
    let Ok(room) = Vec::with_capacity(alloc, bytes.len() / form.record_len()) else {
        return Err(LoadFault::NoMemory);
    };
    let mut stamps = Items::of(room);
    let mut rest = bytes;
    while !rest.is_empty() {
        let Ok((event, now)) = form.decode(rest) else {
            return Err(LoadFault::BadStream);
        };
        if stamps.push(Stamped { event, now }).is_err() {
            return Err(LoadFault::NoMemory);
        }
        rest = &rest[form.record_len()..];
    }
    Ok(stamps)
}

/// The number of the stream that a line takes.
fn stream_at(parsed: &Record, line: u32) -> usize
    requires stream { IsSome (stream_at parsed.now line) }
    ensures index { stream_at parsed.now line ≡ Some result }
    ensures within { result < length parsed.now.streams }
{
    match parsed.lines().get(line as usize).command.stream_index() {
        Some(index) => index as usize,
        None => unreachable!(),
    }
}

/// Makes the events of a file the stream of an action line, from 0, that has the command `stream` or `stream16`. All
/// else of the record stays. The bytes are the file's, read to its end.
///
/// # Errors
///
/// `BadStream` where the bytes are not whole records, of 24 bytes for `stream` and of 16 for `stream16`, or the time of
/// one is no time (see `inp_stream`). `NoMemory` says that memory ran out. After both the record is unchanged.
pub fn load(parsed: &mut Record, line: u32, bytes: &[u8]) -> Result<(), LoadFault>
    requires stream { IsSome (stream_at parsed.old line) }
    ensures loaded { IsLoaded result parsed.old line bytes.now parsed.new }
{
    let index = stream_at(parsed, line);
    let form = form_of(&parsed.lines().get(line as usize).command);
    match stamps_of(parsed.allocator(), form, bytes) {
        Ok(stamps) => {
            parsed.set_stream(index, stamps);
            Ok(())
        }
        Err(fault) => Err(fault),
    }
}
