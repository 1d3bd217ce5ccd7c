//! The events that a reader hands out in one go.
ghost use Rattle.std.specs.Prelude.{◌≡◌, ℕ, length, take};
ghost use Rattle.inp_reader.specs.Reader.{ReaderState, first_run, has_loss, queued_run};

use crate::stops::is_dropped;
use inp_model::Taken;

// How many events can be handed out of a queue in one go, of at most so many: none after a loss.
pub(crate) fn run_len(queue: &[Taken], most: u32) -> usize
    ensures run { take result queue.now ≡ first_run most queue.now }
    ensures len { result ≡ length (first_run most queue.now) }
{
    let mut count = 0;
    for taken in queue {
        if count == most as usize {
            break;
        }
        count += 1;
        if is_dropped(taken.event) {
            return count;
        }
    }
    count
}

// Whether the last event of such a run, the only one that may, tells of a loss.
pub(crate) fn ends_with_loss(run: &[Taken]) -> bool
    ensures lost { (most : ℕ) (r : ReaderState) → run.now ≡ queued_run most r
        → result ≡ has_loss run.now }
{
    if run.is_empty() {
        return false;
    }
    is_dropped(run[run.len() - 1].event)
}
