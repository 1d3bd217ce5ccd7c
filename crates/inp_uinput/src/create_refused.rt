//! Why no device was made.
use crate::Maker;
use thiserror::Error;

/// Why no device was made. The maker comes back as it was.
#[derive(Debug, Drop, Error)]
pub enum CreateRefused {
    /// No setup was accepted yet (uinput's `EINVAL`).
    #[error("the device was not set up")]
    NotSetUp { maker: Maker },
    /// Memory ran out.
    #[error("memory ran out")]
    NoMemory { maker: Maker },
}
