//! What a contract sees of a pass.
use std::collections::LinkedList;

/// What a pass has seen and owns. It is for contracts alone: no value of it is made.
pub struct PassView<B, E> {
    /// What the kept value is made for. A view that a join has spent has no base.
    pub base: Option<B>,
    /// The entries that the pass has seen, oldest first.
    pub seen: LinkedList<E>,
    /// The places of the entries that it made.
    pub own: LinkedList<u64>,
    /// Its part of the 65,536 units that all passes have together.
    pub share: u64,
    /// How often it took the turn.
    pub turns: u64,
}
