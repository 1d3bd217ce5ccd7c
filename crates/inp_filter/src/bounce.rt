//! A filter that eats the holds of a key that start too soon after a release.
ghost use Rattle.std.specs.Prelude.{◌≡◌, ◌&&◌, not, ℕ, List, []};
ghost use Rattle.inp_model.specs.declared.filter.Filter.TheVariants.{Bounce as BounceFilter};
ghost use Rattle.inp_model.specs.Filter.{Given, is_on_key, is_release, is_soon, eats, given_more, timed};
ghost use Rattle.inp_filter.specs.FilterState.{IsBounce};

use crate::hold::Hold;
use crate::keys::{is_on_key, is_release};
use inp_model::Event;

/// It eats the holds of a key that start too soon after a release that it did not eat. It keeps the moment of the last
/// such release.
#[derive(Debug, Drop)]
pub struct Bounce {
    pub micros: u32,
    pub released: Option<u64>,
    pub hold: Hold,
}

impl Bounce {
    /// The filter before any event.
    pub fn new(code: u16, micros: u32) -> Bounce
        ensures fresh { IsBounce code micros [] result }
    {
        Bounce {
            micros,
            released: None,
            hold: Hold::new(code),
        }
    }

    /// Takes one more event, of a frame that ends at a moment, and says whether it eats it.
    pub fn eats(&mut self, event: Event, now: u64) -> bool
        ensures eats { (code micros : ℕ) (given : List Given)
            → IsBounce code micros given self.old
            → result ≡ eats (BounceFilter code micros) (timed now event) given }
        ensures stands { (code micros : ℕ) (given : List Given)
            → IsBounce code micros given self.old
            → IsBounce code micros
            (given_more (BounceFilter code micros) (timed now event) given)
            self.new }
    {
        let starts_eaten = self.is_soon(now);
        let is_eaten = self.hold.eats(event, starts_eaten);
        if self.counts(event, is_eaten) {
            self.released = Some(now);
        }
        is_eaten
    }

    // Whether it is a release of the key that was not eaten.
    fn counts(&self, event: Event, is_eaten: bool) -> bool
        ensures { let is_here = is_on_key self.now.hold.code event in
            result ≡ (is_here && (is_release event && not is_eaten)) }
    {
        is_on_key(event, self.hold.code) && is_release(event) && !is_eaten
    }

    // Whether a moment is too soon after the last release that was not eaten.
    fn is_soon(&self, now: u64) -> bool
        ensures { result ≡ is_soon self.now.micros self.now.released now }
    {
        match self.released {
            Some(released) => released <= now && now - released < u64::from(self.micros),
            None => false,
        }
    }
}
