//! The reader of a device, for C.
ghost use Rattle.std.specs.Prelude.{◌≡◌, ◌≢◌, Some};
ghost use Rattle.inp_c.specs.Contents.{contents};
ghost use Rattle.inp_c.specs.Status.{device_status};
ghost use Rattle.inp_c.specs.ReaderCalls.{IsToldStart, IsToldNext, IsForced, mode_numbered, start_refusal, next_number, next_event, next_status};

use crate::c_reply::number_of;
use crate::handle::Handle;
use crate::kept::Kept;
use crate::status::{BAD_ARGUMENT, BAD_HANDLE, OK};
use crate::untimed::untimed;
use inp_model::Taken;
use inp_reader::{Mode, Next, Started};
use std::alloc::Global;

/// Opens a client of the device and asks for its whole state. It tells the reader's client, and why a call was refused,
/// or 0.
#[unsafe(no_mangle)]
pub extern "C" fn inputplay_reader_start(
    alloc: Global,
    handle: &mut Handle,
    client: &mut u32,
    why: &mut u32,
) -> u32
    ensures status { result ≡ device_status (contents handle.old) }
    ensures made { result ≡ OK
        → IsToldStart (contents handle.old) (contents handle.new) client.new why.new }
    ensures not_made { result ≢ OK → contents handle.new ≡ contents handle.old }
    ensures not_told { result ≢ OK → (client.new ≡ client.old) × (why.new ≡ why.old) }
{
    if handle.is_none() {
        return BAD_HANDLE;
    }
    let mut kept = handle.take(alloc);
    let status = start_in(&mut kept, client, why);
    *handle = Handle::of(kept);
    status
}

/// Starts the reader of what is kept, if it is a device.
fn start_in(kept: &mut Kept, client: &mut u32, why: &mut u32) -> u32
    ensures status { result ≡ device_status (Some kept.old) }
    ensures made { result ≡ OK → IsToldStart (Some kept.old) (Some kept.new) client.new why.new }
    ensures not_made { result ≢ OK → kept.new ≡ kept.old }
    ensures not_told { result ≢ OK → (client.new ≡ client.old) × (why.new ≡ why.old) }
{
    let Kept::Device(device) = kept else {
        return BAD_HANDLE;
    };
    let started = device.start();
    *client = device.reader.client();
    *why = start_refusal(started);
    OK
}

/// Why a start was refused, or 0.
pub(crate) fn start_refusal(started: Started) -> u32
    ensures { result ≡ start_refusal started }
{
    match started {
        Started::Opened { .. } => 0,
        Started::Refused { why, .. } => number_of(why),
    }
}

/// The reader's next event: `told` says which answer it is.
#[unsafe(no_mangle)]
pub extern "C" fn inputplay_reader_next(
    alloc: Global,
    handle: &mut Handle,
    mode: u32,
    event: &mut Taken,
    told: &mut u32,
) -> u32
    ensures status { result ≡ next_status (contents handle.old) mode }
    ensures made { result ≡ OK
        → IsToldNext (contents handle.old) (contents handle.new) mode event.old event.new told.new }
    ensures not_made { result ≢ OK → contents handle.new ≡ contents handle.old }
    ensures not_told { result ≢ OK → (event.new ≡ event.old) × (told.new ≡ told.old) }
{
    if handle.is_none() {
        return BAD_HANDLE;
    }
    let mut kept = handle.take(alloc);
    let status = next_in(&mut kept, mode, event, told);
    *handle = Handle::of(kept);
    status
}

/// The next event of the reader of what is kept, if it is a device.
fn next_in(kept: &mut Kept, mode: u32, event: &mut Taken, told: &mut u32) -> u32
    ensures status { result ≡ next_status (Some kept.old) mode }
    ensures made { result ≡ OK
        → IsToldNext (Some kept.old) (Some kept.new) mode event.old event.new told.new }
    ensures not_made { result ≢ OK → kept.new ≡ kept.old }
    ensures not_told { result ≢ OK → (event.new ≡ event.old) × (told.new ≡ told.old) }
{
    let Kept::Device(device) = kept else {
        return BAD_HANDLE;
    };
    let Some(mode) = mode_numbered(mode) else {
        return BAD_ARGUMENT;
    };
    let next = device.next(mode);
    *event = next_event(next, *event);
    *told = next_number(next);
    OK
}

/// The mode of this number.
fn mode_numbered(number: u32) -> Option<Mode>
    ensures { result ≡ mode_numbered number }
{
    match number {
        0 => Some(Mode::Normal),
        1 => Some(Mode::Sync),
        _ => None,
    }
}

/// The number of an answer.
fn next_number(next: Next) -> u32
    ensures { result ≡ next_number next }
{
    match next {
        Next::Success { .. } => 0,
        Next::Dropped { .. } => 1,
        Next::Sync { .. } => 2,
        Next::Again { .. } => 3,
        Next::Synced => 4,
        Next::NoDevice => 5,
        Next::Closed => 6,
        Next::Full { .. } => 7,
    }
}

/// The event of an answer, or the one that C had.
fn next_event(next: Next, had: Taken) -> Taken
    ensures { result ≡ next_event next had }
{
    match next {
        Next::Success { event } | Next::Dropped { event } => event,
        Next::Sync { event } => untimed(event),
        _ => had,
    }
}

/// Makes the reader synchronise before its next event.
#[unsafe(no_mangle)]
pub extern "C" fn inputplay_reader_force_sync(alloc: Global, handle: &mut Handle) -> u32
    ensures status { result ≡ device_status (contents handle.old) }
    ensures made { result ≡ OK → IsForced (contents handle.old) (contents handle.new) }
    ensures not_made { result ≢ OK → contents handle.new ≡ contents handle.old }
{
    if handle.is_none() {
        return BAD_HANDLE;
    }
    let mut kept = handle.take(alloc);
    let status = force_in(&mut kept);
    *handle = Handle::of(kept);
    status
}

/// Makes the reader of what is kept synchronise, if it is a device.
fn force_in(kept: &mut Kept) -> u32
    ensures status { result ≡ device_status (Some kept.old) }
    ensures made { result ≡ OK → IsForced (Some kept.old) (Some kept.new) }
    ensures not_made { result ≢ OK → kept.new ≡ kept.old }
{
    let Kept::Device(device) = kept else {
        return BAD_HANDLE;
    };
    device.reader.force_sync();
    OK
}
