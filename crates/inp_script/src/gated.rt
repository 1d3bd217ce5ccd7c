//! An evdev, or what answers feedback calls, after a gate.
ghost use Rattle.std.specs.Prelude.{◌≡◌, ◌≤◌, ◌+◌, ◌-◌, ◌^◌, length, min, take};
ghost use Rattle.inp_model.specs.declared.stamped.TheConstants.{MOMENT_MAX};
ghost use Rattle.inp_model.specs.Step.{moment_of};
ghost use Rattle.inp_model.specs.Reply.{HasRoom};
ghost use Rattle.inp_model.specs.Evdev.{IsEvdevCall};
ghost use Rattle.inp_model.specs.Injection.{AreInTime, IsInjectAll};
ghost use Rattle.inp_feedback.specs.Feeds.{taken_count};

use inp_edge::Gate;
use inp_feedback::{Fed, Feeds};
use inp_model::{Evdev, Event, Injected, Reply, Stamped, Step, Taken};
use std::hint::spin_loop;
use std::thread::yield_now;

/// How often a job yields the processor before a call, at most (this project's choice).
const MOST_RESTS: u32 = 8;

/// How often it spins before it yields (this project's choice).
const SPINS: u32 = 16;

/// An evdev that passes a gate before each call, also before one that injects many events and before a feedback call.
/// To a contract it is the evdev behind the gate.
///
/// After a call the gate was told of it: its job, and how many calls were made before.
///
/// A job that found nothing rests before its next call, since each call takes the turn from the sources that it waits
/// for. After the first answer `Again` in a row it spins for a moment and yields the processor, after the second it does
/// so twice, and so on up to eight times.
#[derive(Drop)]
pub struct Gated<'a, E, G> {
    /// The evdev that makes the calls.
    pub inner: E,
    /// The gate.
    pub gate: &'a G,
    /// The number of the job that calls, which the gate is told.
    pub job: u32,
    /// How many calls were made, which the gate is told. The count stays at the greatest `u32`.
    pub calls: u32,
    // How many answers Again came last, one after another. The count stays at the greatest `u32`.
    agains: u32,
}

impl<'a, E, G> Gated<'a, E, G> {
    /// The evdev of a job behind the gate, before its first call. It takes no memory.
    pub fn new(inner: E, gate: &'a G, job: u32) -> Gated<'a, E, G>
        ensures inner { result.inner ≡ inner }
        ensures job { result.job ≡ job }
        ensures calls { result.calls ≡ 0 }
    {
        Gated {
            inner,
            gate,
            job,
            calls: 0,
            agains: 0,
        }
    }
}

// Rests before a call, where so many answers Again came last.
fn rest(agains: u32) {
    for _ in 0..agains.min(MOST_RESTS) {
        spin();
        yield_now();
    }
}

// Spins for about as long as a yield takes.
fn spin() {
    for _ in 0..SPINS {
        spin_loop();
    }
}

// How many answers Again came last, one after another, where this one comes after so many.
fn count_agains(reply: Reply, agains: u32) -> u32 {
    match reply {
        Reply::Again { .. } => agains.saturating_add(1),
        _ => 0,
    }
}

impl<'a, E: Evdev, G: Gate> Evdev for Gated<'a, E, G> {
    ghost told = { λ gated. E.told gated.inner };

    fn call(&mut self, step: Step, out: &mut [Taken], cells: &mut [i32]) -> Reply
        requires moment { moment_of step ≤ MOMENT_MAX }
        requires room { HasRoom (E.told self.old.inner).description step out.old cells.old }
        ensures called { IsEvdevCall (E.told self.old.inner) (E.told self.new.inner)
            step result out.old out.new cells.old cells.new }
        ensures calls { self.new.calls ≡ min (self.old.calls + 1) (2 ^ 32 - 1) }
        ensures job { self.new.job ≡ self.old.job }
        ensures passed { G.passed self.old.gate.now self.old.job self.old.calls }
    {
        rest(self.agains);
        self.gate.before(self.job, self.calls);
        self.calls = self.calls.saturating_add(1);
        let reply = self.inner.call(step, out, cells);
        self.agains = count_agains(reply, self.agains);
        reply
    }

    fn inject_all(&mut self, events: &[Stamped]) -> Injected
        requires moments { AreInTime events.now }
        ensures injected { IsInjectAll (E.told self.old.inner) (E.told self.new.inner)
            events.now result }
        ensures calls { self.new.calls ≡ min (self.old.calls + 1) (2 ^ 32 - 1) }
        ensures job { self.new.job ≡ self.old.job }
        ensures passed { G.passed self.old.gate.now self.old.job self.old.calls }
    {
        rest(self.agains);
        let (gate, job, call) = (self.gate, self.job, self.calls);
        gate.before(job, call);
        self.calls = call.saturating_add(1);
        self.agains = 0;
        self.inner.inject_all(events)
    }
}

impl<'a, E: Feeds, G: Gate> Feeds for Gated<'a, E, G> {
    ghost feeds = { λ before after room answer events.
        E.feeds before.inner after.inner room answer events };

    fn feedback(&mut self, out: &mut [Event]) -> Fed
        ensures fits { taken_count result ≤ length out.new }
        ensures fed { E.feeds self.old.inner self.new.inner (length out.old) result
            (take (taken_count result) out.new) }
        ensures calls { self.new.calls ≡ min (self.old.calls + 1) (2 ^ 32 - 1) }
        ensures job { self.new.job ≡ self.old.job }
        ensures passed { G.passed self.old.gate.now self.old.job self.old.calls }
    {
        rest(self.agains);
        let (gate, job, call) = (self.gate, self.job, self.calls);
        gate.before(job, call);
        self.calls = call.saturating_add(1);
        self.agains = 0;
        self.inner.feedback(out)
    }
}
