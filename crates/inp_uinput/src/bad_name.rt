//! Why a device cannot be set up.
use thiserror::Error;

/// The text is no name of a device: it is not 1 to 32 characters of `a` to `z`, `0` to `9`, `_` and `-`.
#[derive(Clone, Copy, Debug, PartialEq, Eq, Error)]
#[error("not the name of a device")]
pub struct BadName;
