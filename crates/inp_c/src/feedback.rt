//! What the owner of a device takes, for C.
ghost use Rattle.std.specs.Prelude.{◌≡◌, ◌≢◌, ◌≤◌, length, map, Some};
ghost use Rattle.inp_model.specs.Reply.{written};
ghost use Rattle.inp_c.specs.Contents.{contents};
ghost use Rattle.inp_c.specs.Status.{device_status};
ghost use Rattle.inp_c.specs.Told.{told_untimed};
ghost use Rattle.inp_c.specs.Feedback.{IsOwnerTold, FeedsDevice, fed_place, fed_count, fed_full};

use crate::handle::Handle;
use crate::kept::Kept;
use crate::kept_device::KeptDevice;
use crate::status::{BAD_HANDLE, OK};
use crate::untimed::untimed;
use inp_model::{Event, Taken};
use inp_uinput::{FEEDBACK_MAX, Fed};
use std::alloc::Global;

/// The owner's call: the first of the events that wait for it stand at the front of C's array, as many as fit. It tells
/// the history's length, how many they are, and whether the calls are as many as may be kept.
#[unsafe(no_mangle)]
pub extern "C" fn inputplay_feedback(
    alloc: Global,
    handle: &mut Handle,
    events: &mut [Taken],
    at: &mut u32,
    count: &mut u32,
    full: &mut u32,
) -> u32
    ensures status { result ≡ device_status (contents handle.old) }
    ensures made { result ≡ OK → IsOwnerTold (contents handle.old) (contents handle.new)
        events.old events.new at.new count.new full.new }
    ensures not_made { result ≢ OK → contents handle.new ≡ contents handle.old }
    ensures not_told { result ≢ OK
        → (at.new ≡ at.old) × (count.new ≡ count.old) × (full.new ≡ full.old) }
    ensures no_events { result ≢ OK → events.new ≡ events.old }
{
    if handle.is_none() {
        return BAD_HANDLE;
    }
    let mut kept = handle.take(alloc);
    let status = feed_in(&mut kept, events, at, count, full);
    *handle = Handle::of(kept);
    status
}

/// The owner's call on what is kept, if it is a device.
fn feed_in(
    kept: &mut Kept,
    events: &mut [Taken],
    at: &mut u32,
    count: &mut u32,
    full: &mut u32,
) -> u32
    ensures status { result ≡ device_status (Some kept.old) }
    ensures made { result ≡ OK → IsOwnerTold (Some kept.old) (Some kept.new)
        events.old events.new at.new count.new full.new }
    ensures not_made { result ≢ OK → kept.new ≡ kept.old }
    ensures not_told { result ≢ OK
        → (at.new ≡ at.old) × (count.new ≡ count.old) × (full.new ≡ full.old) }
    ensures no_events { result ≢ OK → events.new ≡ events.old }
{
    let Kept::Device(device) = kept else {
        return BAD_HANDLE;
    };
    let fed = feed_device(device, events);
    *at = fed_place(fed);
    *count = fed_count(fed);
    *full = fed_full(fed);
    OK
}

/// The owner's call on a device.
fn feed_device(device: &mut KeptDevice, events: &mut [Taken]) -> Fed
    ensures { FeedsDevice device.old device.new events.old events.new result }
{
    let mut out = [Event {
        kind: 0,
        code: 0,
        value: 0,
    }; FEEDBACK_MAX];
    let room = events.len().min(FEEDBACK_MAX);
    let part = &mut out[..room];
    let fed = device.udev.feedback(part);
    copy_untimed(&part[..fed_count(fed) as usize], events);
    fed
}

/// Copies events that have no time to the front of C's array.
fn copy_untimed(taken: &[Event], events: &mut [Taken])
    requires { length taken.now ≤ length events.old }
    ensures { events.new ≡ written (map told_untimed taken.now) events.old }
{
    for at in 0..taken.len() {
        events[at] = untimed(taken[at]);
    }
}

/// The history's length at a feedback call.
fn fed_place(fed: Fed) -> u32
    ensures { result ≡ fed_place fed }
{
    match fed {
        Fed::Took { at, .. } | Fed::Full { at } => at,
    }
}

/// How many events a feedback call took.
fn fed_count(fed: Fed) -> u32
    ensures { result ≡ fed_count fed }
{
    match fed {
        Fed::Took { count, .. } => count,
        Fed::Full { .. } => 0,
    }
}

/// 1 where the calls are as many as may be kept, else 0.
fn fed_full(fed: Fed) -> u32
    ensures { result ≡ fed_full fed }
{
    match fed {
        Fed::Took { .. } => 0,
        Fed::Full { .. } => 1,
    }
}
