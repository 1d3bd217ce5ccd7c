//! What owners are told.

use inp_feedback::Fed;
use inp_model::{Event, Items};

/// One entry of what an owner was told.
#[derive(Clone, Copy, Debug, PartialEq, Eq)]
pub enum FedSight {
    /// It made a feedback call, and this was the answer.
    Answer { fed: Fed },
    /// The call took this event.
    Event { event: Event },
}

/// What an owner was told, in order: each answer, and after it the events that the call took.
pub type FedList = Items<FedSight>;
