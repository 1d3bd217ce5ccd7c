//! The holds of a key, some of which are eaten.
ghost use Rattle.std.specs.Prelude.{◌≡◌, ℕ, Bool, List, [], ◌∷◌};
ghost use Rattle.inp_model.specs.Filter.{Given, Press, timed, with_verdict, is_in_hold};
ghost use Rattle.inp_filter.specs.FilterState.{IsHold};

use crate::keys::{is_on_key, is_press};
use inp_model::Event;

/// A key, and whether its present hold is eaten. Where the key is up there is no hold, and nothing is eaten.
#[derive(Debug, Drop)]
pub struct Hold {
    pub code: u16,
    pub is_eaten: bool,
}

impl Hold {
    /// The key before any event.
    pub fn new(code: u16) -> Hold
        ensures fresh { (test : Press → Bool) → IsHold code test [] result }
    {
        Hold {
            code,
            is_eaten: false,
        }
    }

    /// Takes one more event, and says whether it is of a hold that is eaten, as far as it is about the key. A hold that
    /// starts with this event is eaten where the flag says so.
    pub fn eats(&mut self, event: Event, starts_eaten: bool) -> bool
        ensures eats { (code : ℕ) (test : Press → Bool) (moment : ℕ) (given : List Given)
            → IsHold code test given self.old
            → starts_eaten ≡ test (record { moment = moment; before = given })
            → result ≡ is_in_hold code test (timed moment event) given }
        ensures stands { (code : ℕ) (test : Press → Bool) (moment : ℕ) (eaten : Bool)
            → (given : List Given) → IsHold code test given self.old
            → starts_eaten ≡ test (record { moment = moment; before = given })
            → IsHold code test (with_verdict (timed moment event) eaten ∷ given) self.new }
    {
        if !is_on_key(event, self.code) {
            return false;
        }
        if is_press(event) {
            self.is_eaten = starts_eaten;
        }
        let eaten = self.is_eaten;
        self.is_eaten = eaten && event.is_set();
        eaten
    }
}
