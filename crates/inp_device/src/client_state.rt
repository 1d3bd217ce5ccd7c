//! What is told of a client.

use inp_model::Clock;

/// What an open client has beside its queue and its masks.
#[derive(Clone, Copy, Debug, PartialEq, Eq)]
pub struct ClientState {
    /// The clock by which it reads its events.
    pub clock: Clock,
    /// Whether it lost the device for good.
    pub revoked: bool,
    /// Whether it holds the grab.
    pub grabs: bool,
}
