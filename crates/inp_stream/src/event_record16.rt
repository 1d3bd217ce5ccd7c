//! The record of one event on a 32-bit machine.
ghost use Rattle.std.specs.Prelude.{◌≡◌, ◌<◌, ◌≤◌, ◌↔◌, length, Err};
ghost use Rattle.inp_stream.specs.declared.fields.TheConstants.{SECOND};
ghost use Rattle.inp_stream.specs.Stream.{record_bytes, microseconds_of, decoded};

use crate::StreamRefused;
use crate::fields::{SECOND, event_in};
use byteorder::{ByteOrder, LittleEndian};
use inp_model::Event;

/// The number of bytes of a record (the kernel's `struct input_event` on a 32-bit machine).
pub const RECORD16_LEN: usize = 16;

const _: () = prove!(RECORD16_LEN == 2 * TIME16_LEN + 8);

/// The number of bytes of a record's seconds, and of its microseconds.
pub(crate) const TIME16_LEN: usize = 4;

const _: () = prove!(TIME16_LEN == 2 + 2);

/// The greatest moment that a record of 16 bytes can have, in microseconds.
pub const MOMENT16_MAX: u64 = 4_294_967_295_999_999;

const _: () = prove!(MOMENT16_MAX + 1 == 4_294_967_296 * SECOND);

/// Writes the record of an event at a moment in microseconds. It has the seconds in 4 bytes, the microseconds in 4, the
/// type in 2, the code in 2 and the value in 4, each little-endian. The moment is below 4,294,967,296,000,000.
pub fn encode16(event: Event, time: u64, out: &mut [u8; RECORD16_LEN])
    requires moment { time ≤ MOMENT16_MAX }
    ensures bytes { out.new ≡ record_bytes TIME16_LEN event time }
{
    LittleEndian::write_u32(out, (time / SECOND) as u32);
    LittleEndian::write_u32(&mut out[4..], (time % SECOND) as u32);
    LittleEndian::write_u16(&mut out[8..], event.kind);
    LittleEndian::write_u16(&mut out[10..], event.code);
    LittleEndian::write_u32(&mut out[12..], event.value.cast_unsigned());
}

/// The event that the first 16 bytes are, and its moment in microseconds. No other byte is looked at.
///
/// # Errors
///
/// `Short` where there are fewer than 16 bytes. Else `BadTime` where the microseconds are 1,000,000 or more: no seconds
/// of 4 bytes are above `MOMENT_MAX`. Any type, code and value is taken.
pub fn decode16(bytes: &[u8]) -> Result<(Event, u64), StreamRefused>
    ensures meaning { result ≡ decoded TIME16_LEN bytes.now }
    ensures short { (result ≡ Err StreamRefused.Short) ↔ (length bytes.now < RECORD16_LEN) }
    ensures bad_time { (result ≡ Err StreamRefused.BadTime)
        ↔ ((RECORD16_LEN ≤ length bytes.now) × (SECOND ≤ microseconds_of TIME16_LEN bytes.now)) }
{
    if bytes.len() < RECORD16_LEN {
        return Err(StreamRefused::Short);
    }
    let seconds = LittleEndian::read_u32(bytes);
    let micros = LittleEndian::read_u32(&bytes[4..]);
    if u64::from(micros) >= SECOND {
        return Err(StreamRefused::BadTime);
    }
    let time = u64::from(seconds) * SECOND + u64::from(micros);
    Ok((event_in(&bytes[8..]), time))
}
