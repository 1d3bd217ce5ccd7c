//! What records of both lengths have in common.
ghost use Rattle.std.specs.Prelude.{◌≡◌, ◌≤◌, length};
ghost use Rattle.inp_stream.specs.Stream.{event_in};

use byteorder::{ByteOrder, LittleEndian};
use inp_model::Event;

/// The number of microseconds in a second.
pub(crate) const SECOND: u64 = 1_000_000;

const _: () = prove!(SECOND == 1000 * 1000);

/// The event that stands after the time of a record.
pub(crate) fn event_in(bytes: &[u8]) -> Event
    requires { 8 ≤ length bytes.now }
    ensures { result ≡ event_in bytes.now }
{
    Event {
        kind: LittleEndian::read_u16(bytes),
        code: LittleEndian::read_u16(&bytes[2..]),
        value: LittleEndian::read_u32(&bytes[4..]).cast_signed(),
    }
}
