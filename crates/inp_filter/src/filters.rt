//! The filters of a device, in a row.
ghost use Rattle.std.specs.Prelude.{◌≡◌, ◌≤◌, ◌<◌, ◌^◌, ℕ, List, [], ◌∷◌, length, take, drop, IfOk};
ghost use Rattle.inp_model.specs.declared.filter.Filter.{Filter};
ghost use Rattle.inp_model.specs.Filter.{Timed, timed, is_eaten, with_event, given_after};
ghost use Rattle.inp_model.specs.Queue.{is_empty};
ghost use Rattle.inp_filter.specs.Row.{is_let_through, let_through};
ghost use Rattle.inp_filter.specs.FilterState.{FiltersStandFor};

use crate::filter_state::FilterState;
use inp_caps::Caps;
use inp_model::{EV_SYN, Event, FILTERS_MAX, NoMemory};
use std::alloc::Global;
use std::marker::Model;

/// The filters of a device, in a row: each is given what the one before it left.
///
/// They keep no event: a filter keeps a few bits, and a moment at most. A contract sees them as the list of what is
/// kept of each, and `FiltersStandFor` says for which filters and which events given so far that stands.
#[derive(Drop)]
pub struct Filters {
    filters: Vec<FilterState>,
}

impl Model for Filters {
    ghost use Rattle.std.specs.Prelude.{List};
    ghost use Rattle.inp_filter.specs.declared.filter_state.FilterState.{FilterState};

    ghost Value = { List FilterState };

    ghost view = { λ filters. filters.filters.items };
}

impl Filters {
    /// The filters of a description, in their order, before any frame. It is refused for memory alone.
    pub fn new(alloc: Global, caps: &Caps) -> Result<Filters, NoMemory>
        ensures fresh { IfOk result (λ row. FiltersStandFor caps.now.filters [] row) }
    {
        let mut kept = Vec::new(alloc);
        for index in 0..FILTERS_MAX {
            if let Some(filter) = caps.filter(index) {
                kept.push(FilterState::new(filter))?;
            }
        }
        Ok(Filters { filters: kept })
    }

    /// Whether there is no filter.
    pub fn is_empty(&self) -> bool
        ensures { (fs : List Filter) (given : List Timed) → FiltersStandFor fs given self.now
            → result ≡ is_empty fs }
    {
        self.filters.is_empty()
    }

    /// Takes a frame that ended at a moment in microseconds, and writes what the filters leave of it to the front of
    /// `out`, in order. It answers how many events that are. The rest of `out` stays.
    ///
    /// Events of `EV_SYN` are never eaten. It takes constant time an event and filter, and no memory.
    pub fn pass(&mut self, events: &[Event], now: u64, out: &mut [Event]) -> u32
        requires count { length events.now < 2 ^ 32 }
        requires room { length events.now ≤ length out.old }
        ensures left { (fs : List Filter) (given : List Timed) → FiltersStandFor fs given self.old
            → take result out.new ≡ let_through fs now given events.now }
        ensures stands { (fs : List Filter) (given : List Timed) → FiltersStandFor fs given self.old
            → FiltersStandFor fs (given_after now given events.now) self.new }
        ensures fits { result ≤ length events.now }
        ensures rest { drop result out.new ≡ drop result out.old }
    {
        let mut count = 0;
        for event in events {
            if self.lets_through(*event, now) {
                out[count] = *event;
                count += 1;
            }
        }
        count as u32
    }

    // Takes one more event of a frame that ends at a moment, and says whether it is left.
    fn lets_through(&mut self, event: Event, now: u64) -> bool
        ensures left { (fs : List Filter) (given : List Timed) → FiltersStandFor fs given self.old
            → result ≡ is_let_through fs now given event }
        ensures stands { (fs : List Filter) (given : List Timed) → FiltersStandFor fs given self.old
            → FiltersStandFor fs (with_event now event given) self.new }
    {
        event.kind == EV_SYN || !is_eaten_by(&mut self.filters, event, now)
    }
}

// Gives an event to filters in a row, each of which is given what the one before it left, and says whether one ate it.
fn is_eaten_by(filters: &mut [FilterState], event: Event, now: u64) -> bool
    ensures eaten { (fs : List Filter) (given : List Timed) → FiltersStandFor fs given filters.old
        → result ≡ is_eaten fs (timed now event) given }
    ensures stands { (fs : List Filter) (given : List Timed) → FiltersStandFor fs given filters.old
        → FiltersStandFor fs (timed now event ∷ given) filters.new }
{
    let mut is_eaten = false;
    for filter in filters.iter_mut() {
        is_eaten = filter.takes(event, now, is_eaten);
    }
    is_eaten
}
