//! The files that the stream lines of a record name, for C.
ghost use Rattle.std.specs.Prelude.{◌≡◌, ◌≢◌, option_copied, Some};
ghost use Rattle.inp_c.specs.Contents.{contents};
ghost use Rattle.inp_c.specs.Streams.{file_at, file_status, IsToldFile};

use crate::bytes::copy_bytes;
use crate::handle::Handle;
use crate::kept::Kept;
use crate::status::{BAD_ARGUMENT, BAD_HANDLE, OK};
use inp_record::{Command, FileName, Record};
use std::alloc::Global;

/// Copies the name of the file that a stream line names, as many bytes as fit, and tells how many it has.
#[unsafe(no_mangle)]
pub extern "C" fn inputplay_record_file(
    alloc: Global,
    handle: &mut Handle,
    line: u32,
    out: &mut [u8],
    len: &mut usize,
) -> u32
    ensures status { result ≡ file_status (contents handle.old) line }
    ensures told { result ≡ OK
        → IsToldFile (contents handle.old) line out.old out.new len.new }
    ensures not_told { result ≢ OK → (out.new ≡ out.old) × (len.new ≡ len.old) }
    ensures handle { contents handle.new ≡ contents handle.old }
{
    if handle.is_none() {
        return BAD_HANDLE;
    }
    let kept = handle.take(alloc);
    let status = file_in(&kept, line, out, len);
    *handle = Handle::of(kept);
    status
}

/// Copies the name of the file that a line of what is kept names, if it is a record.
fn file_in(kept: &Kept, line: u32, out: &mut [u8], len: &mut usize) -> u32
    ensures status { result ≡ file_status (Some kept.now) line }
    ensures told { result ≡ OK → IsToldFile (Some kept.now) line out.old out.new len.new }
    ensures not_told { result ≢ OK → (out.new ≡ out.old) × (len.new ≡ len.old) }
{
    let Kept::Record(record) = kept else {
        return BAD_HANDLE;
    };
    let Some(file) = file_at(&record.recorded, line) else {
        return BAD_ARGUMENT;
    };
    let name = file.text().as_bytes();
    *len = name.len();
    copy_bytes(name, out);
    OK
}

/// The file that a line names, if it takes a stream.
fn file_at(recorded: &Record, line: u32) -> Option<&FileName>
    ensures { option_copied result ≡ file_at recorded.now line }
{
    if line as usize >= recorded.lines().len() {
        return None;
    }
    match &recorded.lines().get(line as usize).command {
        Command::Stream { file, .. } => Some(file),
        Command::Stream16 { file, .. } => Some(file),
        _ => None,
    }
}
