//! A value that is out with a pass.

/// A kept value while a pass has the turn. It is given back by [`Shared::give`](crate::Shared::give), and is not
/// dropped by itself: all other passes wait for it.
pub struct Held<S> {
    /// The value.
    pub state: S,
}
