//! Steps of a device, for C.
ghost use Rattle.std.specs.Prelude.{◌≡◌, ◌≢◌, ◌≤◌, length, true, Some};
ghost use Rattle.inp_model.specs.declared.stamped.TheConstants.{MOMENT_MAX};
ghost use Rattle.inp_model.specs.Step.{moment_of};
ghost use Rattle.inp_c.specs.Contents.{contents};
ghost use Rattle.inp_c.specs.Status.{step_status, inject_status, has_room};
ghost use Rattle.inp_c.specs.Steps.{TellsStep, IsToldStep, IsToldInject};
ghost use Rattle.inp_c.specs.Injection.{inject_cause};

use crate::c_reply::{CReply, number_of, tell_reply};
use crate::c_step::{CStep, step_of};
use crate::handle::Handle;
use crate::kept::Kept;
use crate::kept_device::KeptDevice;
use crate::status::{BAD_ARGUMENT, BAD_HANDLE, OK};
use inp_actors::READ_MAX;
use inp_caps::Caps;
use inp_model::{Event, MOMENT_MAX, Refusal, SLOT_VALUES, Stamped, Step, Taken};
use std::alloc::Global;

/// Makes a step. What it reads stands at the front of the arrays.
#[unsafe(no_mangle)]
pub extern "C" fn inputplay_step(
    alloc: Global,
    handle: &mut Handle,
    step: &CStep,
    reply: &mut CReply,
    events: &mut [Taken],
    cells: &mut [i32],
) -> u32
    ensures status { result
        ≡ step_status (contents handle.old) step.now (length events.old) (length cells.old) }
    ensures made { result ≡ OK → IsToldStep (contents handle.old) (contents handle.new) step.now
        reply.new events.old events.new cells.old cells.new }
    ensures not_made { result ≢ OK → contents handle.new ≡ contents handle.old }
    ensures not_told { result ≢ OK → reply.new ≡ reply.old }
    ensures no_events { result ≢ OK → events.new ≡ events.old }
    ensures no_cells { result ≢ OK → cells.new ≡ cells.old }
{
    if handle.is_none() {
        return BAD_HANDLE;
    }
    let mut kept = handle.take(alloc);
    let status = step_in(&mut kept, step, reply, events, cells);
    *handle = Handle::of(kept);
    status
}

/// Makes a step of what is kept, if it is a device.
fn step_in(
    kept: &mut Kept,
    step: &CStep,
    reply: &mut CReply,
    events: &mut [Taken],
    cells: &mut [i32],
) -> u32
    ensures status { result
        ≡ step_status (Some kept.old) step.now (length events.old) (length cells.old) }
    ensures made { result ≡ OK → IsToldStep (Some kept.old) (Some kept.new) step.now
        reply.new events.old events.new cells.old cells.new }
    ensures not_made { result ≢ OK → kept.new ≡ kept.old }
    ensures not_told { result ≢ OK → reply.new ≡ reply.old }
    ensures no_events { result ≢ OK → events.new ≡ events.old }
    ensures no_cells { result ≢ OK → cells.new ≡ cells.old }
{
    let Kept::Device(device) = kept else {
        return BAD_HANDLE;
    };
    let Some(step) = step_of(step) else {
        return BAD_ARGUMENT;
    };
    if !has_room(device.caps(), step, events.len(), cells.len()) {
        return BAD_ARGUMENT;
    }
    step_device(device, step, reply, events, cells);
    OK
}

/// Makes a step of a device, for which there is room.
fn step_device(
    device: &mut KeptDevice,
    step: Step,
    reply: &mut CReply,
    events: &mut [Taken],
    cells: &mut [i32],
)
    requires moment { moment_of step ≤ MOMENT_MAX }
    requires room { has_room device.old.udev.description step (length events.old) (length cells.old)
        ≡ true }
    ensures { TellsStep device.old device.new step reply.new
        events.old events.new cells.old cells.new }
{
    let made = device.step(step, events, cells);
    tell_reply(&made, reply);
}

/// Whether C's arrays are long enough for a step, which reads no more than the greatest count.
fn has_room(caps: &Caps, step: Step, events: usize, cells: usize) -> bool
    ensures { result ≡ has_room caps.now step events cells }
{
    match step {
        Step::Read { count, .. } => count <= READ_MAX && count as usize <= events,
        Step::GetSlots { .. } | Step::SyncSlots { .. } => {
            (SLOT_VALUES * caps.slots()) as usize <= cells
        }
        _ => true,
    }
}

/// Injects an event, and tells its place, or the cause for which it was refused.
#[unsafe(no_mangle)]
pub extern "C" fn inputplay_inject(
    alloc: Global,
    handle: &mut Handle,
    kind: u16,
    code: u16,
    value: i32,
    now: u64,
    at: &mut u32,
    why: &mut u32,
) -> u32
    ensures status { result ≡ inject_status (contents handle.old) now }
    ensures made { result ≡ OK → IsToldInject (contents handle.old) (contents handle.new)
        (record { kind = kind; code = code; value = value }) now at.new why.new }
    ensures not_made { result ≢ OK → contents handle.new ≡ contents handle.old }
    ensures not_told { result ≢ OK → (at.new ≡ at.old) × (why.new ≡ why.old) }
{
    if handle.is_none() {
        return BAD_HANDLE;
    }
    let mut kept = handle.take(alloc);
    let status = inject_in(&mut kept, Event { kind, code, value }, now, at, why);
    *handle = Handle::of(kept);
    status
}

/// Injects an event into what is kept, if it is a device.
fn inject_in(kept: &mut Kept, event: Event, now: u64, at: &mut u32, why: &mut u32) -> u32
    ensures status { result ≡ inject_status (Some kept.old) now }
    ensures made { result ≡ OK → IsToldInject (Some kept.old) (Some kept.new)
        event now at.new why.new }
    ensures not_made { result ≢ OK → kept.new ≡ kept.old }
    ensures not_told { result ≢ OK → (at.new ≡ at.old) × (why.new ≡ why.old) }
{
    let Kept::Device(device) = kept else {
        return BAD_HANDLE;
    };
    if now > MOMENT_MAX {
        return BAD_ARGUMENT;
    }
    let injected = device.inject(Stamped { event, now });
    *at = injected.from;
    *why = inject_cause(injected.count);
    OK
}

/// The number of the cause for which an event was not injected, where so many were, or 0.
fn inject_cause(count: u32) -> u32
    ensures { result ≡ inject_cause count }
{
    if count == 0 {
        number_of(Refusal::LogFull)
    } else {
        0
    }
}
