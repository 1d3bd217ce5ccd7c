//! What each step on the table tells.
use crate::kept::Kept;
use crate::seat_view::SeatView;
use atomic_table::{Join, Play, Split};

/// A try for the turn.
pub(crate) struct Try;

impl<S: Kept> Play<Option<S>, SeatView<S::Base, S::Entry>> for Try {
    ghost use Rattle.inp_turn.specs.Steps.{Tries};

    ghost then = { Tries S.base S.entries };
}

/// The turn is free again.
pub(crate) struct Release;

impl<S: Kept> Play<Option<S>, SeatView<S::Base, S::Entry>> for Release {
    ghost use Rattle.inp_turn.specs.Steps.{Releases};

    ghost then = { Releases S.entries };
}

/// The end of a join.
pub(crate) struct Unite;

impl<S, B, E> Play<Option<S>, SeatView<B, E>> for Unite {
    ghost use Rattle.inp_turn.specs.Steps.{Unites};

    ghost then = { λ _ before _ after. Unites before after };
}

/// A pass is split off.
pub(crate) struct Part;

impl<B, E> Split<SeatView<B, E>> for Part {
    ghost use Rattle.inp_turn.specs.Steps.{seat_after_split, split_off_seat};

    ghost left = { seat_after_split };

    ghost right = { split_off_seat };
}

/// The beginning of a join.
pub(crate) struct Meet;

impl<B, E> Join<SeatView<B, E>> for Meet {
    ghost use Rattle.inp_turn.specs.Steps.{seat_after_meeting, spent_seat};

    ghost both = { seat_after_meeting };

    ghost spent = { spent_seat };
}
