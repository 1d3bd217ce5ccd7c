//! The events of the stream lines of a record, for C.
ghost use Rattle.std.specs.Prelude.{◌≡◌, ◌≢◌, length, take, option_copied, Some};
ghost use Rattle.inp_model.specs.Reply.{written};
ghost use Rattle.inp_c.specs.Contents.{contents};
ghost use Rattle.inp_c.specs.StreamEvents.{stream_of_line, events_status, IsToldEvents};

use crate::handle::Handle;
use crate::kept::Kept;
use crate::loaded_streams::stream_index;
use crate::status::{BAD_ARGUMENT, BAD_HANDLE, OK};
use inp_model::Stamped;
use inp_record::{Record, Stamps};
use std::alloc::Global;

/// Copies the events of a stream line from a place on, as many as fit. It tells how many there are from there on.
#[unsafe(no_mangle)]
pub extern "C" fn inputplay_record_events(
    alloc: Global,
    handle: &mut Handle,
    line: u32,
    from: usize,
    events: &mut [Stamped],
    left: &mut usize,
) -> u32
    ensures status { result ≡ events_status (contents handle.old) line from }
    ensures told { result ≡ OK
        → IsToldEvents (contents handle.old) line from events.old events.new left.new }
    ensures not_told { result ≢ OK → (events.new ≡ events.old) × (left.new ≡ left.old) }
    ensures handle { contents handle.new ≡ contents handle.old }
{
    if handle.is_none() {
        return BAD_HANDLE;
    }
    let kept = handle.take(alloc);
    let status = events_in(&kept, line, from, events, left);
    *handle = Handle::of(kept);
    status
}

/// Copies the events of a stream line of what is kept, if it is a record.
fn events_in(kept: &Kept, line: u32, from: usize, events: &mut [Stamped], left: &mut usize) -> u32
    ensures status { result ≡ events_status (Some kept.now) line from }
    ensures told { result ≡ OK
        → IsToldEvents (Some kept.now) line from events.old events.new left.new }
    ensures not_told { result ≢ OK → (events.new ≡ events.old) × (left.new ≡ left.old) }
{
    let Kept::Record(record) = kept else {
        return BAD_HANDLE;
    };
    let Some(stream) = stream_of_line(&record.recorded, line) else {
        return BAD_ARGUMENT;
    };
    let stamps = stream.as_slice();
    if from > stamps.len() {
        return BAD_ARGUMENT;
    }
    let rest = &stamps[from..];
    *left = rest.len();
    copy_events(rest, events);
    OK
}

/// The events of the stream that a line takes, if it takes one.
fn stream_of_line(recorded: &Record, line: u32) -> Option<&Stamps>
    ensures { option_copied result ≡ stream_of_line recorded.now line }
{
    match stream_index(recorded, line) {
        Some(index) => Some(recorded.stream(index as usize)),
        None => None,
    }
}

/// Copies events to the front of C's array, as many as fit.
fn copy_events(stamps: &[Stamped], events: &mut [Stamped])
    ensures { events.new ≡ written (take (length events.old) stamps.now) events.old }
{
    let count = stamps.len().min(events.len());
    events[..count].copy_from_slice(&stamps[..count]);
}
