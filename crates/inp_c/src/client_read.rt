//! Reads of a client, for C.
ghost use Rattle.std.specs.Prelude.{◌≡◌, ◌≢◌, ◌≤◌, length, Some};
ghost use Rattle.inp_model.specs.Run.{place_of};
ghost use Rattle.inp_actors.specs.declared.command.TheConstants.{READ_MAX};
ghost use Rattle.inp_c.specs.Contents.{contents};
ghost use Rattle.inp_c.specs.ClientRead.{read_status, TellsRead, IsToldRead};
ghost use Rattle.inp_c.specs.Steps.{read_count};
ghost use Rattle.inp_c.specs.Told.{told_refusal};

use crate::c_reply::number_of;
use crate::handle::Handle;
use crate::kept::Kept;
use crate::kept_device::KeptDevice;
use crate::status::{BAD_ARGUMENT, BAD_HANDLE, OK};
use inp_actors::READ_MAX;
use inp_model::{Reply, Step, Taken};
use std::alloc::Global;

/// Reads events of a client to the front of C's array, as many as are there and fit. It tells the place of the
/// read, how many events were read, and why it was refused, or 0. It is fewer instructions than a step `Read`,
/// whose reply has room for that of any step.
#[unsafe(no_mangle)]
pub extern "C" fn inputplay_read(
    alloc: Global,
    handle: &mut Handle,
    client: u32,
    events: &mut [Taken],
    at: &mut u32,
    count: &mut u32,
    why: &mut u32,
) -> u32
    ensures status { result ≡ read_status (contents handle.old) (length events.old) }
    ensures made { result ≡ OK → IsToldRead (contents handle.old) (contents handle.new) client
        events.old events.new at.new count.new why.new }
    ensures not_made { result ≢ OK → contents handle.new ≡ contents handle.old }
    ensures no_events { result ≢ OK → events.new ≡ events.old }
    ensures not_told { result ≢ OK
        → (at.new ≡ at.old) × (count.new ≡ count.old) × (why.new ≡ why.old) }
{
    if handle.is_none() {
        return BAD_HANDLE;
    }
    let mut kept = handle.take(alloc);
    let status = read_in(&mut kept, client, events, at, count, why);
    *handle = Handle::of(kept);
    status
}

/// Reads events of a client of what is kept, if it is a device.
fn read_in(
    kept: &mut Kept,
    client: u32,
    events: &mut [Taken],
    at: &mut u32,
    count: &mut u32,
    why: &mut u32,
) -> u32
    ensures status { result ≡ read_status (Some kept.old) (length events.old) }
    ensures made { result ≡ OK → IsToldRead (Some kept.old) (Some kept.new) client
        events.old events.new at.new count.new why.new }
    ensures not_made { result ≢ OK → kept.new ≡ kept.old }
    ensures no_events { result ≢ OK → events.new ≡ events.old }
    ensures not_told { result ≢ OK
        → (at.new ≡ at.old) × (count.new ≡ count.old) × (why.new ≡ why.old) }
{
    let Kept::Device(device) = kept else {
        return BAD_HANDLE;
    };
    if events.len() > READ_MAX as usize {
        return BAD_ARGUMENT;
    }
    let reply = read_device(device, client, events);
    *at = place_of(&reply);
    *count = read_count(&reply);
    *why = told_refusal(&reply);
    OK
}

/// Reads events of a client of a device, as many as fit.
fn read_device(device: &mut KeptDevice, client: u32, events: &mut [Taken]) -> Reply
    requires few { length events.old ≤ READ_MAX }
    ensures { TellsRead device.old device.new client events.old events.new result }
{
    let count = events.len() as u32;
    device.step(Step::Read { client, count }, events, &mut [])
}

/// The place of a step, or the history's length where it was not entered.
fn place_of(reply: &Reply) -> u32
    ensures { result ≡ place_of reply.now }
{
    match *reply {
        Reply::Done { at }
        | Reply::Opened { at, .. }
        | Reply::Took { at, .. }
        | Reply::Discarded { at, .. }
        | Reply::Bits { at, .. }
        | Reply::Axis { at, .. }
        | Reply::Cells { at, .. }
        | Reply::Again { at, .. }
        | Reply::Refused { at, .. } => at,
    }
}

/// How many events a reply says that were read.
fn read_count(reply: &Reply) -> u32
    ensures { result ≡ read_count reply.now }
{
    match *reply {
        Reply::Took { count, .. } => count,
        _ => 0,
    }
}

/// The number of the cause of a reply that is a refusal, or 0.
fn told_refusal(reply: &Reply) -> u32
    ensures { result ≡ told_refusal reply.now }
{
    match *reply {
        Reply::Refused { why, .. } => number_of(why),
        _ => 0,
    }
}
