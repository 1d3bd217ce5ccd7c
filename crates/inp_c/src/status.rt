//! What a call answers.

/// The call was made.
pub(crate) const OK: u32 = 0;
/// The text is no record.
pub(crate) const REFUSED: u32 = 1;
/// A number is not one that the call has, or an array is too short.
pub(crate) const BAD_ARGUMENT: u32 = 2;
/// The bytes are no stream.
pub(crate) const BAD_STREAM: u32 = 3;
/// Memory ran out.
pub(crate) const NO_MEMORY: u32 = 5;
/// The text is too long.
pub(crate) const TOO_LONG: u32 = 7;
/// The handle keeps nothing, or something of another kind.
pub(crate) const BAD_HANDLE: u32 = 8;
/// The handle keeps something.
pub(crate) const IN_USE: u32 = 9;
