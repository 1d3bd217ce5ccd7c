//! How much a record has, for C.
ghost use Rattle.std.specs.Prelude.{◌≡◌, ◌≢◌, Some};
ghost use Rattle.inp_c.specs.Contents.{contents};
ghost use Rattle.inp_c.specs.Counts.{record_status, IsToldCounts};

use crate::c_counts::{CCounts, c_counts};
use crate::handle::Handle;
use crate::kept::Kept;
use crate::status::{BAD_HANDLE, OK};
use std::alloc::Global;

/// Tells how many devices, actors and action lines a record has.
#[unsafe(no_mangle)]
pub extern "C" fn inputplay_record_counts(
    alloc: Global,
    handle: &mut Handle,
    counts: &mut CCounts,
) -> u32
    ensures status { result ≡ record_status (contents handle.old) }
    ensures told { result ≡ OK → IsToldCounts (contents handle.old) counts.new }
    ensures not_told { result ≢ OK → counts.new ≡ counts.old }
    ensures handle { contents handle.new ≡ contents handle.old }
{
    if handle.is_none() {
        return BAD_HANDLE;
    }
    let kept = handle.take(alloc);
    let status = counts_in(&kept, counts);
    *handle = Handle::of(kept);
    status
}

/// Tells how much what is kept has, if it is a record.
fn counts_in(kept: &Kept, counts: &mut CCounts) -> u32
    ensures status { result ≡ record_status (Some kept.now) }
    ensures told { result ≡ OK → IsToldCounts (Some kept.now) counts.new }
    ensures not_told { result ≢ OK → counts.new ≡ counts.old }
{
    let Kept::Record(record) = kept else {
        return BAD_HANDLE;
    };
    *counts = c_counts(&record.recorded);
    OK
}
