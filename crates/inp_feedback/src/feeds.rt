//! What answers feedback calls.
ghost use Rattle.std.specs.Prelude.{◌≤◌, length, take};
ghost use Rattle.inp_feedback.specs.Feeds.{Feeding, taken_count};

use crate::Fed;
use inp_model::Event;

/// What answers an owner's feedback calls: its device, or its use of a device that threads share.
pub trait Feeds {
    /// What one call leaves: what this was before, what it is then, for how many events there was room, the answer, and
    /// the events that were taken.
    ghost feeds: { Feeding Self };

    /// Makes one feedback call. The events that it took stand at the front of `out`. It takes no memory.
    fn feedback(&mut self, out: &mut [Event]) -> Fed
        ensures fits { taken_count result ≤ length out.new }
        ensures fed { feeds self.old self.new (length out.old) result
            (take (taken_count result) out.new) };
}
