//! How a reader is asked for its next event.

/// How [`Reader::next`](crate::Reader::next) goes on after lost events (libevdev's `LIBEVDEV_READ_FLAG_NORMAL` and
/// `LIBEVDEV_READ_FLAG_SYNC`).
#[derive(Clone, Copy, Debug, PartialEq, Eq)]
pub enum Mode {
    /// Events are read. After lost events the reader synchronises and drops the synthesised events.
    Normal,
    /// The synthesised events are handed out, and nothing is read.
    Sync,
}
