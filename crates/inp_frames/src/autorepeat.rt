//! The timer of the autorepeat.
//!
//! The functions take the timer first; the definitions that they compute take it last.
ghost use Rattle.std.specs.Prelude.{◌≡◌, ◌≤◌, ◌*◌, ◌^◌, unsigned_abs};
ghost use Rattle.inp_model.specs.declared.stamped.TheConstants.{MOMENT_MAX};
ghost use Rattle.inp_model.specs.Timer.{repeats_keys, first_timer, timer_disarmed, timer_rearmed, timer_at_key, timer_at_events};
ghost use Rattle.inp_frames.specs.HandledEvents.{timer_at_event, timer_at_frame};

use inp_caps::Caps;
use inp_model::{EV_KEY, EV_REP, Event, Timer};
use inp_state::State;

// The timer before any press armed it: not armed, with the key 0, which is no key.
pub(crate) fn first_timer() -> Timer
    ensures { result ≡ first_timer }
{
    Timer { due: None, key: 0 }
}

// The timer with its key, armed no more.
pub(crate) fn timer_disarmed(timer: Timer) -> Timer
    ensures { result ≡ timer_disarmed timer }
{
    Timer { due: None, ..timer }
}

// The timer armed anew for its key after a period in microseconds, where that is not 0.
pub(crate) fn timer_rearmed(timer: Timer, now: u64, period: u64) -> Timer
    requires timely { now ≤ MOMENT_MAX }
    requires period { period ≤ 1000 * 2 ^ 31 }
    ensures { result ≡ timer_rearmed now period timer }
{
    if period == 0 {
        return timer;
    }
    Timer {
        due: Some(now + period),
        ..timer
    }
}

// A setting of the autorepeat in microseconds.
pub(crate) fn micros(milliseconds: i32) -> u64
    ensures micros { result ≡ 1000 * unsigned_abs milliseconds }
    ensures range { result ≤ 1000 * 2 ^ 31 }
{
    1000 * u64::from(milliseconds.unsigned_abs())
}

// The timer after a frame that ends at this moment, by the settings of the state at its end.
pub(crate) fn timer_at_frame(
    timer: Timer,
    caps: &Caps,
    state: &State,
    frame: &[Event],
    now: u64,
) -> Timer
    requires timely { now ≤ MOMENT_MAX }
    ensures { result ≡ timer_at_frame caps.now now state.now frame.now timer }
{
    if !repeats_keys(caps) {
        return timer;
    }
    timer_at_events(
        timer,
        frame,
        now,
        micros(state.delay()),
        micros(state.period()),
    )
}

// Whether keys repeat on a device.
fn repeats_keys(caps: &Caps) -> bool
    ensures { result ≡ repeats_keys caps.now }
{
    caps.has_kind(EV_REP) && caps.has_kind(EV_KEY)
}

// The timer after the events of a frame.
fn timer_at_events(timer: Timer, frame: &[Event], now: u64, delay: u64, period: u64) -> Timer
    requires timely { now ≤ MOMENT_MAX }
    requires delay { delay ≤ 1000 * 2 ^ 31 }
    ensures { result ≡ timer_at_events now delay period frame.now timer }
{
    let mut after = timer;
    for event in frame {
        after = timer_at_event(after, *event, now, delay, period);
    }
    after
}

// The timer after one event of a frame.
fn timer_at_event(timer: Timer, event: Event, now: u64, delay: u64, period: u64) -> Timer
    requires timely { now ≤ MOMENT_MAX }
    requires delay { delay ≤ 1000 * 2 ^ 31 }
    ensures { result ≡ timer_at_event now delay period event timer }
{
    if event.kind != EV_KEY || event.is_repeat() {
        return timer;
    }
    timer_at_key(timer, event, now, delay, period)
}

// The timer after a key of a frame that is no autorepeat.
fn timer_at_key(timer: Timer, event: Event, now: u64, delay: u64, period: u64) -> Timer
    requires timely { now ≤ MOMENT_MAX }
    requires delay { delay ≤ 1000 * 2 ^ 31 }
    ensures { result ≡ timer_at_key now delay period event timer }
{
    if !event.is_set() {
        return timer_disarmed(timer);
    }
    if delay == 0 || period == 0 {
        return timer;
    }
    Timer {
        due: Some(now + delay),
        key: event.code,
    }
}
