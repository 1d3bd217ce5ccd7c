//! How a line waits.

/// How long a `follow` goes on where nothing is visible to its client.
#[derive(Clone, Copy, Debug, PartialEq, Eq)]
pub struct Waiting {
    /// After so many answers in a row that nothing is visible, the job stops. It is at least 1.
    pub idle: u32,
    /// The number of the device's sources. Where so many are done, nothing more can come, and the line ends.
    pub sources: u32,
}
