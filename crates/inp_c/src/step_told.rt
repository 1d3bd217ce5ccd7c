//! A step that is told to C, and the calls that a reader made.
ghost use Rattle.std.specs.Prelude.{◌≡◌, ◌≢◌, Some};
ghost use Rattle.inp_c.specs.Contents.{contents};
ghost use Rattle.inp_c.specs.ToldStep.{clock_number, step_by, told_step, call_status, IsToldCall};

use crate::c_reply::{CReply, tell_reply};
use crate::c_step::CStep;
use crate::handle::Handle;
use crate::kept::Kept;
use crate::status::{BAD_ARGUMENT, BAD_HANDLE, OK};
use inp_model::{Clock, Event, NO_INFO, Step};
use std::alloc::Global;

/// A call that the reader of a device made in its last start or next, of this number, from 0.
#[unsafe(no_mangle)]
pub extern "C" fn inputplay_reader_call(
    alloc: Global,
    handle: &mut Handle,
    index: usize,
    step: &mut CStep,
    reply: &mut CReply,
) -> u32
    ensures status { result ≡ call_status (contents handle.old) index }
    ensures told { result ≡ OK
        → IsToldCall (contents handle.old) index step.new reply.new }
    ensures not_told { result ≢ OK → (step.new ≡ step.old) × (reply.new ≡ reply.old) }
    ensures handle { contents handle.new ≡ contents handle.old }
{
    if handle.is_none() {
        return BAD_HANDLE;
    }
    let kept = handle.take(alloc);
    let status = call_in(&kept, index, step, reply);
    *handle = Handle::of(kept);
    status
}

/// A call that the reader of what is kept made last, if it is a device.
fn call_in(kept: &Kept, index: usize, step: &mut CStep, reply: &mut CReply) -> u32
    ensures status { result ≡ call_status (Some kept.now) index }
    ensures told { result ≡ OK → IsToldCall (Some kept.now) index step.new reply.new }
    ensures not_told { result ≢ OK → (step.new ≡ step.old) × (reply.new ≡ reply.old) }
{
    let Kept::Device(device) = kept else {
        return BAD_HANDLE;
    };
    let made = device.reader.made();
    if index >= made.len() {
        return BAD_ARGUMENT;
    }
    let call = made[index];
    *step = c_step(call.step);
    tell_reply(&call.reply, reply);
    OK
}

/// The kernel's number of a clock.
pub(crate) fn clock_number(clock: Clock) -> u32
    ensures { result ≡ clock_number clock }
{
    match clock {
        Clock::Realtime => 0,
        Clock::Monotonic => 1,
        Clock::Boottime => 7,
    }
}

/// A step of this number that names a client and no more.
pub(crate) fn step_by(step: u32, client: u32) -> CStep
    ensures { result ≡ step_by step client }
{
    CStep {
        step,
        client,
        kind: 0,
        code: 0,
        value: 0,
        moment: 0,
        count: 0,
        clock: 0,
        bits: 0,
        info: NO_INFO,
    }
}

/// A step of this number that brings an event.
fn step_with(step: u32, client: u32, event: Event, moment: u64) -> CStep
    ensures { result ≡ record (step_by step client) {
      kind = event.kind;
      code = event.code;
      value = event.value;
      moment = moment;
    } }
{
    CStep {
        kind: event.kind,
        code: event.code,
        value: event.value,
        moment,
        ..step_by(step, client)
    }
}

/// A step, as C has it.
pub(crate) fn c_step(step: Step) -> CStep
    ensures { result ≡ told_step step }
{
    match step {
        Step::Inject { event, now } => step_with(0, 0, event, now),
        Step::Tick { now: moment } => CStep {
            moment,
            ..step_by(1, 0)
        },
        Step::Open => step_by(2, 0),
        Step::Close { client } => step_by(3, client),
        Step::Read { client, count } => CStep {
            count,
            ..step_by(4, client)
        },
        Step::Discard { client } => step_by(5, client),
        Step::GetKeys { client } => step_by(6, client),
        Step::GetSwitches { client } => step_by(7, client),
        Step::GetLeds { client } => step_by(8, client),
        Step::GetSounds { client } => step_by(9, client),
        Step::GetAxis { client, code } => CStep {
            code,
            ..step_by(10, client)
        },
        Step::SetAxis { client, code, info } => CStep {
            code,
            info,
            ..step_by(11, client)
        },
        Step::GetSlots { client, code } => CStep {
            code,
            ..step_by(12, client)
        },
        Step::SyncSlots { client } => step_by(13, client),
        Step::Write { client, event, now } => step_with(14, client, event, now),
        Step::Grab { client } => step_by(15, client),
        Step::Ungrab { client } => step_by(16, client),
        Step::Mask {
            client,
            kind,
            word: code,
            bits,
        } => CStep {
            kind,
            code,
            bits,
            ..step_by(17, client)
        },
        Step::Clock {
            client,
            clock,
            now: moment,
        } => CStep {
            clock: clock_number(clock),
            moment,
            ..step_by(18, client)
        },
        Step::Revoke { client } => step_by(19, client),
        Step::Inhibit { now: moment } => CStep {
            moment,
            ..step_by(20, 0)
        },
        Step::Uninhibit => step_by(21, 0),
        Step::End => step_by(22, 0),
    }
}
