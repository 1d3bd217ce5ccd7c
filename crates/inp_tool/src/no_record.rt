//! Why no record was read.

use inp_record::Refused;

/// Why a file gave no record.
#[derive(Clone, Copy, Debug, PartialEq, Eq)]
pub(crate) enum NoRecord {
    /// It was not read, or the file of one of its stream lines was not.
    Unread,
    /// It has more bytes than an input may have, or the file of one of its stream lines has.
    TooLong,
    /// A line has no meaning.
    Refused(Refused),
    /// Memory ran out.
    NoMemory,
}
