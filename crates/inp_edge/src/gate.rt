// What a job passes before each of its calls.
ghost use Rattle.std.specs.Prelude.{ℕ};

/// A gate that a job passes before each of its calls. A test may hold a job here until another has come so far.
///
/// What it means that a call passed is for each gate to say. Over a gate that is not known, only a call of
/// [`Gate::before`] with these two numbers shows it.
pub trait Gate: Sync {
    /// A job's call passed this gate: the number of the job, then that of the call.
    ghost passed: { Self → ℕ → ℕ → Type 0 };

    /// Called before the call of this number, from 0, of the job of this number.
    fn before(&self, job: u32, call: u32)
        ensures passed { passed self.now job call };
}

/// A gate that is always open: it returns at once. It says nothing of what passed.
#[derive(Clone, Copy, Debug)]
pub struct OpenGate;

impl Gate for OpenGate {
    ghost passed = { λ _ _ _. Unit {0} };

    fn before(&self, _job: u32, _call: u32) {}
}
