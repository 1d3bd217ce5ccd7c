//! The streams of a record, for C.
ghost use Rattle.std.specs.Prelude.{◌≡◌, ◌≢◌, ◌<◌, true, length, slice_set, IfSome, Some};
ghost use Rattle.inp_record.specs.Stream.{stream_at};
ghost use Rattle.inp_c.specs.Contents.{contents};
ghost use Rattle.inp_c.specs.LoadedStreams.{IsLoadStatus, IsToldLoad};

use crate::handle::Handle;
use crate::kept::Kept;
use crate::status::{BAD_ARGUMENT, BAD_HANDLE, BAD_STREAM, NO_MEMORY, OK};
use inp_record::{LoadFault, Record, load};
use std::alloc::Global;

/// Gives an action line, from 0, the bytes of its stream.
#[unsafe(no_mangle)]
pub extern "C" fn inputplay_record_load(
    alloc: Global,
    handle: &mut Handle,
    line: u32,
    bytes: &[u8],
) -> u32
    ensures status { IsLoadStatus (contents handle.old) line bytes.now result }
    ensures made { result ≡ OK
        → IsToldLoad (contents handle.old) (contents handle.new) line bytes.now }
    ensures not_made { result ≢ OK → contents handle.new ≡ contents handle.old }
{
    if handle.is_none() {
        return BAD_HANDLE;
    }
    let mut kept = handle.take(alloc);
    let status = load_in(&mut kept, line, bytes);
    *handle = Handle::of(kept);
    status
}

/// Gives an action line of what is kept the bytes of its stream, if it is a record.
fn load_in(kept: &mut Kept, line: u32, bytes: &[u8]) -> u32
    ensures status { IsLoadStatus (Some kept.old) line bytes.now result }
    ensures made { result ≡ OK → IsToldLoad (Some kept.old) (Some kept.new) line bytes.now }
    ensures not_made { result ≢ OK → kept.new ≡ kept.old }
{
    let Kept::Record(record) = kept else {
        return BAD_HANDLE;
    };
    let Some(index) = stream_index(&record.recorded, line) else {
        return BAD_ARGUMENT;
    };
    match load(&mut record.recorded, line, bytes) {
        Ok(()) => {
            mark(&mut record.loaded, index as usize);
            OK
        }
        Err(LoadFault::BadStream) => BAD_STREAM,
        Err(LoadFault::NoMemory) => NO_MEMORY,
    }
}

/// Marks the stream of this number as given.
fn mark(loaded: &mut Vec<bool>, index: usize)
    ensures { loaded.new.items ≡ slice_set loaded.old.items index true }
{
    if index < loaded.len() {
        loaded[index] = true;
    }
}

/// The number of the stream that a line takes, if it takes one.
pub(crate) fn stream_index(recorded: &Record, line: u32) -> Option<u32>
    ensures index { result ≡ stream_at recorded.now line }
    ensures within { IfSome result (λ index. index < length recorded.now.streams) }
{
    if line as usize >= recorded.lines().len() {
        return None;
    }
    recorded.lines().get(line as usize).command.stream_index()
}
