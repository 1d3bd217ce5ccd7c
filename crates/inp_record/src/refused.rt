//! Why no record was read, and why no stream was.

use crate::Cause;
use thiserror::Error;

/// The first line of a record that has no meaning, and why.
#[derive(Clone, Copy, Debug, PartialEq, Eq, Error)]
#[error("line {line}: {cause}")]
pub struct Refused {
    /// The number of the line, from 1.
    pub line: u32,
    /// Why it has no meaning.
    pub cause: Cause,
}

/// Why no record was read.
#[derive(Clone, Copy, Debug, PartialEq, Eq, Error)]
pub enum ParseFault {
    /// A line has no meaning.
    #[error(transparent)]
    Refused(Refused),
    /// Memory ran out.
    #[error("out of memory")]
    NoMemory,
}

/// Why no stream was read.
#[derive(Clone, Copy, Debug, PartialEq, Eq, Error)]
pub enum LoadFault {
    /// The bytes are not whole records of 24, or of 16 for `stream16`, or the time of one is no time.
    #[error("bad-stream")]
    BadStream,
    /// Memory ran out.
    #[error("out of memory")]
    NoMemory,
}
