//! What a thread uses a shared value by.
ghost use Rattle.std.specs.Prelude.{◌≡◌, ◌<◌, [], ◌∷◌, if◌then◌else◌, None};
ghost use Rattle.inp_turn.specs.PassView.{spent_view, OwnsSeen};

use crate::kept::Kept;
use crate::rule::TurnSeat;

/// The right to take turns on one shared value, for one thread at a time. It has no bytes.
///
/// A contract sees what it has seen and owns (`view_of` in `specs/Pass.antt`), and whether it has the turn
/// (`has_turn`). It is in one thread at a time, and can be handed to another. One that is dropped takes its share
/// along, so that the value can no more be taken out of its [`Shared`](crate::Shared).
pub struct Pass<S: Kept> {
    pub(crate) seat: TurnSeat<S>,
    ghost in_no_join: { seat.me.0.met ≡ spent_view },
    ghost has_share: { 0 < seat.me.0.pass.share },
    ghost owns_seen: { OwnsSeen seat.me.0.pass },
    ghost holds_slot: { seat.me.1 ≡ (if seat.me.0.has_turn then (0, None) ∷ [] else []) },
}

impl<S: Kept> Pass<S> {
    pub(crate) fn into_seat(self) -> TurnSeat<S>
        ensures seat { result ≡ self.seat }
    {
        let Pass { seat } = self;
        seat
    }
}

impl<S: Kept> Drop for Pass<S> {
    fn drop(self) {
        let Pass { seat: _ } = self;
    }
}
