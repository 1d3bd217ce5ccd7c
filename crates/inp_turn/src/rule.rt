//! The rule of the table behind a shared value.
use crate::kept::Kept;
use crate::seat_view::SeatView;
use atomic_table::{Seat, Table, TableRule};
use std::alloc::Global;
use std::snapshot::Snapshot;

/// One word, which is 1 while a pass has the turn, and one slot, in which the value lies while none has it.
pub struct TurnRule;

impl<S: Kept> TableRule<Option<S>, SeatView<S::Base, S::Entry>, Snapshot<S>> for TurnRule {
    ghost use Rattle.inp_turn.specs.Turn.{IsTurn, first_seat};

    ghost holds = { λ key. IsTurn S.base S.entries key.value };

    ghost first = { λ key. first_seat (S.base key.value) (S.entries key.value) };
}

/// The table behind a shared value.
pub type TurnTable<S> = Table<
    Option<S>,
    SeatView<<S as Kept>::Base, <S as Kept>::Entry>,
    Snapshot<S>,
    TurnRule,
    Global,
>;

/// A seat at it.
pub type TurnSeat<S> = Seat<Option<S>, SeatView<<S as Kept>::Base, <S as Kept>::Entry>>;
