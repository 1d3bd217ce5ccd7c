//! The result of many events that one call injected.

/// How many events a call entered, and from which place on.
///
/// They stand in the history at the places `from`, `from + 1`, up to `from + count - 1`, with nothing between.
#[derive(Clone, Copy, Debug, PartialEq, Eq)]
pub struct Injected {
    /// The history's length before the first event: the place of that event, if one was entered. At most `LOG_MAX`.
    pub from: u32,
    /// How many events were entered: all of them, or as many as the log limit left.
    pub count: u32,
}
