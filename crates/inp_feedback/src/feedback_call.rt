//! A feedback call, as it is kept.

/// A feedback call, as it is kept.
#[derive(Clone, Copy, Debug, PartialEq, Eq)]
pub struct FeedbackCall {
    /// How many steps were kept before it.
    pub at: u32,
    /// How many events it took.
    pub count: u32,
}
