//! What a handle keeps.

use crate::kept_device::KeptDevice;
use crate::kept_record::KeptRecord;

/// What a handle keeps.
#[derive(Drop)]
pub enum Kept {
    /// A device with its reader.
    Device(KeptDevice),
    /// A record.
    Record(KeptRecord),
}
