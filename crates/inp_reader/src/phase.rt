//! Where a reader stands after lost events.

/// Whether a reader is to synchronise.
#[derive(Clone, Copy, Debug, PartialEq, Eq)]
pub enum Phase {
    /// The view is what the device was at the last event that was handed out.
    Plain,
    /// Events were lost, or a synchronisation was asked for or failed. The next call of
    /// [`Reader::next`](crate::Reader::next) synchronises first.
    Needed,
    /// The reader has synchronised, and hands out the synthesised events.
    Handing,
}
