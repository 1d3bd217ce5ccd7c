//! What a start answers.

use inp_model::Refusal;

/// What [`Reader::start`](crate::Reader::start) answers.
#[derive(Clone, Copy, Debug, PartialEq, Eq)]
pub enum Started {
    /// A client was opened, and the view is what the device is: the client's number, and the number of places of its
    /// ring.
    Opened { client: u32, ring: u32 },
    /// A call was refused: the length of the history then, and the cause.
    Refused { at: u32, why: Refusal },
}
