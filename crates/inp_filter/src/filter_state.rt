//! What is kept of a filter.
ghost use Rattle.std.specs.Prelude.{◌≡◌, true, false, List, []};
ghost use Rattle.inp_model.specs.declared.filter.Filter.{Filter};
ghost use Rattle.inp_model.specs.Filter.{Given, eats, given_more, timed};
ghost use Rattle.inp_filter.specs.FilterState.{FilterStandsFor};

use crate::bounce::Bounce;
use crate::chord::Chord;
use crate::eat::Eat;
use crate::norepeat::Norepeat;
use inp_model::{Event, Filter};

/// A filter with what it keeps of the events that it was given: a few bits, and a moment at most.
#[derive(Debug, Drop)]
pub enum FilterState {
    Eat(Eat),
    Norepeat(Norepeat),
    Chord(Chord),
    Bounce(Bounce),
}

impl FilterState {
    /// The filter before any event.
    pub fn new(filter: Filter) -> FilterState
        ensures fresh { FilterStandsFor filter [] result }
    {
        match filter {
            Filter::Eat { kind, code } => FilterState::Eat(Eat { kind, code }),
            Filter::Norepeat => FilterState::Norepeat(Norepeat),
            Filter::Chord { first, second } => FilterState::Chord(Chord::new(first, second)),
            Filter::Bounce { code, micros } => FilterState::Bounce(Bounce::new(code, micros)),
        }
    }

    // Takes one more event, of a frame that ends at a moment, and says whether the filter eats it.
    fn eats(&mut self, event: Event, now: u64) -> bool
        ensures eats { (f : Filter) (given : List Given) → FilterStandsFor f given self.old
            → result ≡ eats f (timed now event) given }
        ensures stands { (f : Filter) (given : List Given) → FilterStandsFor f given self.old
            → FilterStandsFor f (given_more f (timed now event) given) self.new }
    {
        match self {
            FilterState::Eat(eat) => eat.eats(event),
            FilterState::Norepeat(norepeat) => norepeat.eats(event),
            FilterState::Chord(chord) => chord.eats(event),
            FilterState::Bounce(bounce) => bounce.eats(event, now),
        }
    }

    /// Gives it an event, where none of the filters before it ate that, and says whether one of them did or it does.
    pub fn takes(&mut self, event: Event, now: u64, is_eaten: bool) -> bool
        ensures eaten { is_eaten ≡ true → result ≡ true }
        ensures kept { is_eaten ≡ true → self.new ≡ self.old }
        ensures eats { is_eaten ≡ false → (f : Filter) (given : List Given)
            → FilterStandsFor f given self.old → result ≡ eats f (timed now event) given }
        ensures stands { is_eaten ≡ false → (f : Filter) (given : List Given)
            → FilterStandsFor f given self.old
            → FilterStandsFor f (given_more f (timed now event) given) self.new }
    {
        is_eaten || self.eats(event, now)
    }
}
