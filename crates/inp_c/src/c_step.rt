//! A step, as C has it.
ghost use Rattle.std.specs.Prelude.{◌≡◌, ◌≤◌, IfSome};
ghost use Rattle.inp_model.specs.declared.stamped.TheConstants.{MOMENT_MAX};
ghost use Rattle.inp_model.specs.Step.{moment_of};
ghost use Rattle.inp_c.specs.StepOfC.{clock_numbered, step_of_c, step_numbered};

use inp_model::{AxisInfo, Clock, Event, MOMENT_MAX, Step};
use std::mem::size_of;

/// A step: its number, and what it takes.
#[repr(C)]
#[derive(Clone, Copy)]
pub struct CStep {
    /// Which step it is.
    pub step: u32,
    /// The client that it names.
    pub client: u32,
    /// The event's type.
    pub kind: u16,
    /// The event's code, the axis, or the word of a mask.
    pub code: u16,
    /// The event's value.
    pub value: i32,
    /// The moment, in microseconds.
    pub moment: u64,
    /// How many events are to be read.
    pub count: u32,
    /// The clock, by the kernel's number.
    pub clock: u32,
    /// The bits of a mask's word.
    pub bits: u64,
    /// The axis that is described anew.
    pub info: AxisInfo,
}

const _: () = prove!(size_of::<CStep>() == 64);

/// The step that C gave, unless a number is not one that a step has.
pub(crate) fn step_of(c: &CStep) -> Option<Step>
    ensures step { result ≡ step_of_c c.now }
    ensures moment { IfSome result (λ x. moment_of x ≤ MOMENT_MAX) }
{
    if c.moment > MOMENT_MAX {
        return None;
    }
    step_numbered(c)
}

/// The step of this number.
fn step_numbered(c: &CStep) -> Option<Step>
    requires { c.now.moment ≤ MOMENT_MAX }
    ensures step { result ≡ step_numbered c.now }
    ensures moment { IfSome result (λ x. moment_of x ≤ MOMENT_MAX) }
{
    let client = c.client;
    let now = c.moment;
    let event = Event {
        kind: c.kind,
        code: c.code,
        value: c.value,
    };
    match c.step {
        0 => Some(Step::Inject { event, now }),
        1 => Some(Step::Tick { now }),
        2 => Some(Step::Open),
        3 => Some(Step::Close { client }),
        4 => Some(Step::Read {
            client,
            count: c.count,
        }),
        5 => Some(Step::Discard { client }),
        6 => Some(Step::GetKeys { client }),
        7 => Some(Step::GetSwitches { client }),
        8 => Some(Step::GetLeds { client }),
        9 => Some(Step::GetSounds { client }),
        10 => Some(Step::GetAxis {
            client,
            code: c.code,
        }),
        11 => Some(Step::SetAxis {
            client,
            code: c.code,
            info: c.info,
        }),
        12 => Some(Step::GetSlots {
            client,
            code: c.code,
        }),
        13 => Some(Step::SyncSlots { client }),
        14 => Some(Step::Write { client, event, now }),
        15 => Some(Step::Grab { client }),
        16 => Some(Step::Ungrab { client }),
        17 => Some(Step::Mask {
            client,
            kind: c.kind,
            word: c.code,
            bits: c.bits,
        }),
        18 => Some(Step::Clock {
            client,
            clock: clock_of(c.clock)?,
            now,
        }),
        19 => Some(Step::Revoke { client }),
        20 => Some(Step::Inhibit { now }),
        21 => Some(Step::Uninhibit),
        22 => Some(Step::End),
        _ => None,
    }
}

/// The clock of this number.
fn clock_of(number: u32) -> Option<Clock>
    ensures { result ≡ clock_numbered number }
{
    match number {
        0 => Some(Clock::Realtime),
        1 => Some(Clock::Monotonic),
        7 => Some(Clock::Boottime),
        _ => None,
    }
}
