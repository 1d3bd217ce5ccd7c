//! The record of one event on a 64-bit machine.
ghost use Rattle.std.specs.Prelude.{◌≡◌};
ghost use Rattle.inp_stream.specs.Stream.{record_bytes, decoded};

use crate::StreamRefused;
use crate::fields::{SECOND, event_in};
use byteorder::{ByteOrder, LittleEndian};
use inp_model::{Event, MOMENT_MAX};

/// The number of bytes of a record (the kernel's `struct input_event` on a 64-bit machine).
pub const RECORD_LEN: usize = 24;

const _: () = prove!(RECORD_LEN == 2 * TIME_LEN + 8);

/// The number of bytes of a record's seconds, and of its microseconds.
pub(crate) const TIME_LEN: usize = 8;

const _: () = prove!(TIME_LEN == 4 + 4);

/// Writes the record of an event at a moment in microseconds. It has the seconds in 8 bytes, the microseconds in 8, the
/// type in 2, the code in 2 and the value in 4, each little-endian.
pub fn encode(event: Event, time: u64, out: &mut [u8; RECORD_LEN])
    ensures bytes { out.new ≡ record_bytes TIME_LEN event time }
{
    LittleEndian::write_u64(out, time / SECOND);
    LittleEndian::write_u64(&mut out[8..], time % SECOND);
    LittleEndian::write_u16(&mut out[16..], event.kind);
    LittleEndian::write_u16(&mut out[18..], event.code);
    LittleEndian::write_u32(&mut out[20..], event.value.cast_unsigned());
}

/// The event that the first 24 bytes are, and its moment in microseconds. No other byte is looked at.
///
/// # Errors
///
/// `Short` where there are fewer than 24 bytes. Else `BadTime` where the microseconds are 1,000,000 or more, or the
/// moment is above `MOMENT_MAX`. Any type, code and value is taken.
pub fn decode(bytes: &[u8]) -> Result<(Event, u64), StreamRefused>
    ensures meaning { result ≡ decoded TIME_LEN bytes.now }
{
    if bytes.len() < RECORD_LEN {
        return Err(StreamRefused::Short);
    }
    let seconds = LittleEndian::read_u64(bytes);
    let micros = LittleEndian::read_u64(&bytes[8..]);
    if micros >= SECOND || seconds > MOMENT_MAX / SECOND {
        return Err(StreamRefused::BadTime);
    }
    let time = seconds * SECOND + micros;
    if time > MOMENT_MAX {
        return Err(StreamRefused::BadTime);
    }
    Ok((event_in(&bytes[16..]), time))
}
