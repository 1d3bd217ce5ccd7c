//! The action lines of a record, for C.
ghost use Rattle.std.specs.Prelude.{◌≡◌, ◌≢◌, Some};
ghost use Rattle.inp_c.specs.Contents.{contents};
ghost use Rattle.inp_c.specs.Lines.{line_status, IsToldLine};

use crate::c_line::{CLine, c_line};
use crate::handle::Handle;
use crate::kept::Kept;
use crate::status::{BAD_ARGUMENT, BAD_HANDLE, OK};
use std::alloc::Global;

/// Tells what a record's action line of this number, from 0, says: its actor, its command, the command's count, and the
/// step that it makes.
#[unsafe(no_mangle)]
pub extern "C" fn inputplay_record_line(
    alloc: Global,
    handle: &mut Handle,
    line: u32,
    out: &mut CLine,
) -> u32
    ensures status { result ≡ line_status (contents handle.old) line }
    ensures told { result ≡ OK → IsToldLine (contents handle.old) line out.new }
    ensures not_told { result ≢ OK → out.new ≡ out.old }
    ensures handle { contents handle.new ≡ contents handle.old }
{
    if handle.is_none() {
        return BAD_HANDLE;
    }
    let kept = handle.take(alloc);
    let status = line_in(&kept, line, out);
    *handle = Handle::of(kept);
    status
}

/// Tells what an action line of what is kept says, if it is a record.
fn line_in(kept: &Kept, line: u32, out: &mut CLine) -> u32
    ensures status { result ≡ line_status (Some kept.now) line }
    ensures told { result ≡ OK → IsToldLine (Some kept.now) line out.new }
    ensures not_told { result ≢ OK → out.new ≡ out.old }
{
    let Kept::Record(record) = kept else {
        return BAD_HANDLE;
    };
    let lines = record.recorded.lines();
    if line as usize >= lines.len() {
        return BAD_ARGUMENT;
    }
    *out = c_line(lines.get(line as usize));
    OK
}
