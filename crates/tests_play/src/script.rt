//! A gate before the calls on an evdev: that of a device whose history is full, and which looks at the gate. Which
//! steps a full history refuses, and where actors stop then, is shown by the records of `tests/records`.

use inp_edge::Gate;
use inp_model::{Evdev, Injected, Refusal, Reply, Stamped, Step, Taken};
use inp_script::Gated;
use std::sync::atomic::{AtomicU64, Ordering};
use std::test::Fail;

/// A keyboard whose history has the one step that it may have, and no client. So each step is refused. At each call it
/// looks how often the gate was passed so far.
#[derive(Drop)]
struct FullDevice<'a> {
    gate: &'a NotingGate,
    passed: &'a AtomicU64,
}

impl<'a> FullDevice<'a> {
    fn look(&self) {
        let times = self.gate.times.load(Ordering::SeqCst);
        self.passed.store(times, Ordering::SeqCst);
    }
}

impl<'a> Evdev for FullDevice<'a> {
    ghost use Rattle.std.specs.Prelude.{[], ◌∷◌, None};
    ghost use Rattle.inp_model.specs.declared.step.Step.TheVariants.{End};
    ghost use Rattle.inp_model.specs.Description.{one_key};

    ghost told = { λ device. record {
      description = record one_key { log_limit = 1 };
      seen = End ∷ [];
      own = [];
      agains = 0;
      turns = None;
      tie = None;
    } };

    fn call(&mut self, step: Step, _out: &mut [Taken], _cells: &mut [i32]) -> Reply {
        self.look();
        let why = match step.client() {
            Some(_) => Refusal::BadClient,
            None => Refusal::LogFull,
        };
        Reply::Refused { at: 1, why }
    }

    fn inject_all(&mut self, _events: &[Stamped]) -> Injected {
        self.look();
        Injected { from: 1, count: 0 }
    }
}

/// A gate that keeps what it was told last, and how often it was told something.
#[derive(Drop)]
struct NotingGate {
    times: AtomicU64,
    job: AtomicU64,
    call: AtomicU64,
}

impl Gate for NotingGate {
    ghost passed = { λ _ _ _. Unit {0} };

    fn before(&self, job: u32, call: u32) {
        let _before = self.times.fetch_add(1, Ordering::SeqCst);
        self.job.store(u64::from(job), Ordering::SeqCst);
        self.call.store(u64::from(call), Ordering::SeqCst);
    }
}

/// Makes a call that is refused, or one that injects no event.
fn end<E: Evdev>(dev: &mut E, is_step: bool) {
    if is_step {
        dev.call(Step::End, &mut [], &mut []);
    } else {
        dev.inject_all(&[]);
    }
}

// It fails where a gate is passed after a call, or twice.
#[test]
fn a_gate_is_passed_once_before_each_call(rt: HostRuntime) -> Result<(), Fail> {
    let gate = NotingGate {
        times: AtomicU64::new(0),
        job: AtomicU64::new(0),
        call: AtomicU64::new(0),
    };
    let passed = AtomicU64::new(0);
    let device = FullDevice {
        gate: &gate,
        passed: &passed,
    };
    let mut dev = Gated::new(device, &gate, 7);
    assert_eq!(rt; gate.times.load(Ordering::SeqCst), 0, "no call yet");
    for call in 0..4 {
        end(&mut dev, call < 3);
        assert_eq!(rt;
            passed.load(Ordering::SeqCst),
            call + 1,
            "so often before it"
        );
        assert_eq!(rt; gate.times.load(Ordering::SeqCst), call + 1);
        assert_eq!(rt; gate.job.load(Ordering::SeqCst), 7);
        assert_eq!(rt; gate.call.load(Ordering::SeqCst), call);
    }
    Ok(())
}
