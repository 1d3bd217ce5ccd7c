//! A filter that eats the holds of one key that start while another one is down.
ghost use Rattle.std.specs.Prelude.{◌≡◌, ℕ, List, []};
ghost use Rattle.inp_model.specs.declared.filter.Filter.TheVariants.{Chord as ChordFilter};
ghost use Rattle.inp_model.specs.Filter.{Given, eats, given_more, timed};
ghost use Rattle.inp_filter.specs.FilterState.{IsChord};

use crate::hold::Hold;
use crate::keys::is_on_key;
use inp_model::Event;

/// It eats the holds of one key that start while another one is down.
#[derive(Debug, Drop)]
pub struct Chord {
    pub first: u16,
    pub is_first_down: bool,
    pub hold: Hold,
}

impl Chord {
    /// The filter before any event.
    pub fn new(first: u16, second: u16) -> Chord
        ensures fresh { IsChord first second [] result }
    {
        Chord {
            first,
            is_first_down: false,
            hold: Hold::new(second),
        }
    }

    /// Takes one more event, and says whether it eats it.
    pub fn eats(&mut self, event: Event) -> bool
        ensures eats { (first second moment : ℕ) (given : List Given)
            → IsChord first second given self.old
            → result ≡ eats (ChordFilter first second) (timed moment event) given }
        ensures stands { (first second moment : ℕ) (given : List Given)
            → IsChord first second given self.old
            → IsChord first second
            (given_more (ChordFilter first second) (timed moment event) given)
            self.new }
    {
        let is_eaten = self.hold.eats(event, self.is_first_down);
        if is_on_key(event, self.first) && !event.is_repeat() {
            self.is_first_down = event.is_set();
        }
        is_eaten
    }
}
