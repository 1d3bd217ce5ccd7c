//! The calls that a reader made.

use inp_model::{Reply, Step};

/// A step that a reader asked for, with its reply.
#[derive(Clone, Copy, Debug, PartialEq, Eq)]
pub struct CallMade {
    /// The step.
    pub step: Step,
    /// Its reply.
    pub reply: Reply,
}
