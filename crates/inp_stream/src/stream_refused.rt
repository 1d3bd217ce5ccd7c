//! Why bytes are no record.

use thiserror::Error;

/// Why bytes are no record.
#[derive(Clone, Copy, Debug, PartialEq, Eq, Error)]
pub enum StreamRefused {
    /// There are fewer bytes than a record has, 24 or 16.
    #[error("fewer bytes than a record has")]
    Short,
    /// The microseconds are 1,000,000 or more, or the moment is above `MOMENT_MAX`.
    #[error("a time that is none")]
    BadTime,
}
