//! Feedback calls of a device with its owner, as an owner's lines make them.

use crate::Owned;
use inp_feedback::{Fed, Feeds};
use inp_model::Event;

impl Feeds for Owned {
    ghost use Rattle.inp_uinput.specs.OwnedFeeds.{IsFeedbackOf};

    ghost feeds = { IsFeedbackOf };

    fn feedback(&mut self, out: &mut [Event]) -> Fed {
        Owned::feedback(self, out)
    }
}
