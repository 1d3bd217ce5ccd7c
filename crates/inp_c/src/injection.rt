//! Many events that are injected, for C.
ghost use Rattle.std.specs.Prelude.{◌≡◌, ◌≢◌, Some};
ghost use Rattle.inp_c.specs.Contents.{contents};
ghost use Rattle.inp_c.specs.Injection.{are_timely, inject_all_status, IsToldInjectAll};

use crate::handle::Handle;
use crate::kept::Kept;
use crate::status::{BAD_ARGUMENT, BAD_HANDLE, OK};
use inp_actors::READ_MAX;
use inp_model::{MOMENT_MAX, Stamped};
use std::alloc::Global;

/// Injects events, each at its own moment, as many of them as the history has room for. It tells the place of the first
/// one, and how many were entered.
#[unsafe(no_mangle)]
pub extern "C" fn inputplay_inject_all(
    alloc: Global,
    handle: &mut Handle,
    events: &[Stamped],
    from: &mut u32,
    count: &mut u32,
) -> u32
    ensures status { result ≡ inject_all_status (contents handle.old) events.now }
    ensures made { result ≡ OK → IsToldInjectAll (contents handle.old) (contents handle.new)
        events.now from.new count.new }
    ensures not_made { result ≢ OK → contents handle.new ≡ contents handle.old }
    ensures not_told { result ≢ OK → (from.new ≡ from.old) × (count.new ≡ count.old) }
{
    if handle.is_none() {
        return BAD_HANDLE;
    }
    let mut kept = handle.take(alloc);
    let status = inject_all_in(&mut kept, events, from, count);
    *handle = Handle::of(kept);
    status
}

/// Injects events into what is kept, if it is a device.
fn inject_all_in(kept: &mut Kept, events: &[Stamped], from: &mut u32, count: &mut u32) -> u32
    ensures status { result ≡ inject_all_status (Some kept.old) events.now }
    ensures made { result ≡ OK
        → IsToldInjectAll (Some kept.old) (Some kept.new) events.now from.new count.new }
    ensures not_made { result ≢ OK → kept.new ≡ kept.old }
    ensures not_told { result ≢ OK → (from.new ≡ from.old) × (count.new ≡ count.old) }
{
    let Kept::Device(device) = kept else {
        return BAD_HANDLE;
    };
    if events.len() > READ_MAX as usize || !are_timely(events) {
        return BAD_ARGUMENT;
    }
    let injected = device.inject_all(events);
    *from = injected.from;
    *count = injected.count;
    OK
}

/// Whether each moment is within its limit.
fn are_timely(events: &[Stamped]) -> bool
    ensures { result ≡ are_timely events.now }
{
    for event in events {
        if event.now > MOMENT_MAX {
            return false;
        }
    }
    true
}
