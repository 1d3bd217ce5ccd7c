//! What a feedback call answers.

/// How many events may wait for an owner (this project's choice: the kernel's ring for them has 16 places).
pub const FEEDBACK_MAX: usize = 15;

const _: () = prove!(FEEDBACK_MAX == 3 * 5);

/// What a feedback call answers. `at` is the length of the history then.
#[derive(Clone, Copy, Debug, PartialEq, Eq)]
pub enum Fed {
    /// So many events were taken, and stand at the front of the caller's buffer: none where no event waited.
    Took { at: u32, count: u32 },
    /// As many feedback calls are kept as the log limit says (this project's choice). Nothing changed.
    Full { at: u32 },
}
