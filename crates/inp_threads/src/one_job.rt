//! A gate that is told of one job.
ghost use Rattle.std.specs.Prelude.{◌≡◌, true};

use crate::job_gate::JobGate;
use inp_edge::Gate;

/// A gate that tells another one of a single job, which that one knows, whatever number it is told itself.
#[derive(Drop)]
pub(crate) struct OneJob<'a, J: JobGate> {
    /// The gate that is told.
    pub(crate) gate: &'a J,
    /// The number of the job.
    pub(crate) job: u32,
    ghost known: { J.knows gate.now job ≡ true },
}

impl<'a, J: JobGate> Gate for OneJob<'a, J> {
    ghost passed = { λ one _ call. J.passed one.gate.now one.job call };

    fn before(&self, _job: u32, call: u32) {
        self.gate.before(self.job, call)
    }
}
