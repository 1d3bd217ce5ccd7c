//! The text that was made of a record, for C.
ghost use Rattle.std.specs.Prelude.{◌≡◌, ◌≢◌, Some};
ghost use Rattle.inp_c.specs.Contents.{contents};
ghost use Rattle.inp_c.specs.Texts.{text_status, IsToldText};

use crate::bytes::copy_bytes;
use crate::handle::Handle;
use crate::kept::Kept;
use crate::status::{BAD_ARGUMENT, BAD_HANDLE, OK};
use std::alloc::Global;

/// Copies the text that was made of a record last, from a place on, as many bytes as fit, and tells how many there are
/// from there on.
#[unsafe(no_mangle)]
pub extern "C" fn inputplay_record_text(
    alloc: Global,
    handle: &mut Handle,
    from: usize,
    out: &mut [u8],
    left: &mut usize,
) -> u32
    ensures status { result ≡ text_status (contents handle.old) from }
    ensures told { result ≡ OK
        → IsToldText (contents handle.old) from out.old out.new left.new }
    ensures not_told { result ≢ OK → (out.new ≡ out.old) × (left.new ≡ left.old) }
    ensures handle { contents handle.new ≡ contents handle.old }
{
    if handle.is_none() {
        return BAD_HANDLE;
    }
    let kept = handle.take(alloc);
    let status = text_in(&kept, from, out, left);
    *handle = Handle::of(kept);
    status
}

/// Copies the text of what is kept, if it is a record.
fn text_in(kept: &Kept, from: usize, out: &mut [u8], left: &mut usize) -> u32
    ensures status { result ≡ text_status (Some kept.now) from }
    ensures told { result ≡ OK → IsToldText (Some kept.now) from out.old out.new left.new }
    ensures not_told { result ≢ OK → (out.new ≡ out.old) × (left.new ≡ left.old) }
{
    let Kept::Record(record) = kept else {
        return BAD_HANDLE;
    };
    if from > record.text.len() {
        return BAD_ARGUMENT;
    }
    let rest = &record.text[from..];
    *left = rest.len();
    copy_bytes(rest, out);
    OK
}
