//! The forms of records.
ghost use Rattle.std.specs.Prelude.{◌≡◌};
ghost use Rattle.inp_stream.specs.Stream.{record_len, decoded};
ghost use Rattle.inp_stream.specs.Form.{time_len};

use crate::{RECORD_LEN, RECORD16_LEN, StreamRefused, decode, decode16};
use inp_model::Event;

/// The form of the records of a stream.
#[derive(Clone, Copy, Debug, PartialEq, Eq)]
pub enum RecordForm {
    /// 24 bytes, as a 64-bit machine has them.
    Wide,
    /// 16 bytes, as a 32-bit machine has them.
    Narrow,
}

impl RecordForm {
    /// The number of bytes of a record.
    pub fn record_len(self) -> usize
        ensures { result ≡ record_len (time_len self) }
    {
        match self {
            RecordForm::Wide => RECORD_LEN,
            RecordForm::Narrow => RECORD16_LEN,
        }
    }

    /// The event and the moment, in microseconds, of the record that the bytes begin with.
    ///
    /// # Errors
    ///
    /// Those of [`decode`], or of [`decode16`] for the narrow form.
    pub fn decode(self, bytes: &[u8]) -> Result<(Event, u64), StreamRefused>
        ensures { result ≡ decoded (time_len self) bytes.now }
    {
        match self {
            RecordForm::Wide => decode(bytes),
            RecordForm::Narrow => decode16(bytes),
        }
    }
}
