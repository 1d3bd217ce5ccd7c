//! What the rule of the turn sees of a pass.
use crate::pass_view::PassView;

/// The view of a pass's seat at the table. It is for contracts alone: no value of it is made.
pub struct SeatView<B, E> {
    pub pass: PassView<B, E>,
    /// The view that a join has put beside the pass's own; spent between two calls.
    pub met: PassView<B, E>,
    /// Whether the pass has the turn, and the value with it.
    pub has_turn: bool,
}
