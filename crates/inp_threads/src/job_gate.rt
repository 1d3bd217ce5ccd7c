//! The gate as the thread of one job has it.
ghost use Rattle.std.specs.Prelude.{◌≡◌, ℕ, Bool, true};

use inp_edge::Gate;

/// A gate that may be told of the jobs that it knows, and of no others.
///
/// A worker is lent any such gate that knows the number of its actor. Nothing tells it whether the gate knows another
/// number, so that it can tell it this one alone.
pub(crate) trait JobGate: Sync {
    /// Whether it knows the job of this number.
    ghost knows: { Self → ℕ → Bool };
    /// A job's call passed this gate: the number of the job, then that of the call.
    ghost passed: { Self → ℕ → ℕ → Type 0 };

    /// Called before the call of this number, from 0, of the job of this number.
    fn before(&self, job: u32, call: u32)
        requires known { knows self.now job ≡ true }
        ensures passed { passed self.now job call };
}

/// A gate that knows all jobs.
#[derive(Drop)]
pub(crate) struct AnyJob<'a, G> {
    /// The gate that is told.
    pub(crate) gate: &'a G,
}

impl<'a, G: Gate> JobGate for AnyJob<'a, G> {
    ghost knows = { λ _ _. true };

    ghost passed = { λ any job call. G.passed any.gate.now job call };

    fn before(&self, job: u32, call: u32) {
        self.gate.before(job, call)
    }
}
