//! The records of a device's events, as a program reads them from an event node: the time in seconds and microseconds,
//! the type, the code and the value. A record has 24 bytes on a 64-bit machine, and 16 on a 32-bit one, where the
//! seconds and the microseconds have 4 bytes each in place of 8.
//!
//! [`encode`] writes a record of 24 bytes, [`decode`] reads one; [`encode16`] and [`decode16`] do so for 16 bytes, and
//! [`RecordForm`] chooses. A file of such records is what `cat /dev/input/event0` gives. The crate depends on
//! `inp_model` for events and on the toolchain's `byteorder`.
//!
//! Its contract: `record_bytes` of `specs/Stream.antt` says which bytes an event and its moment are, and `decoded` what
//! bytes mean or why they mean nothing. Both take how many bytes the seconds and the microseconds have. [`round_trip`]
//! says that what was written is read again, and that no other bytes of that number mean the same. Nothing here takes
//! memory.
#![tactic(auto)]

mod event_record;
mod event_record16;
mod fields;
pub mod laws;
mod record_form;
mod stream_refused;

pub use event_record::{RECORD_LEN, decode, encode};
pub use event_record16::{MOMENT16_MAX, RECORD16_LEN, decode16, encode16};
pub use record_form::RecordForm;
pub use stream_refused::StreamRefused;
