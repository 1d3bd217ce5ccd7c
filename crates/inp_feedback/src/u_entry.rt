//! What an owner's device keeps, in order.
use inp_model::Step;

/// An entry of what an owner's device keeps: a step, or a call of its owner.
#[derive(Clone, Copy, Debug, PartialEq, Eq)]
pub enum UEntry {
    /// A step was accepted.
    Made { step: Step },
    /// A feedback call took so many events.
    Feedback { count: u32 },
}
