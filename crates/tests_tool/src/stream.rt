//! Records of events that are written, which the program does not do, and read again.

use inp_model::Event;
use inp_stream::{RECORD_LEN, RECORD16_LEN, decode, decode16, encode, encode16};
use std::test::Fail;

/// The key A goes down at 1.5 seconds.
const PRESS: [u8; 24] = [
    1, 0, 0, 0, 0, 0, 0, 0, 0x20, 0xa1, 7, 0, 0, 0, 0, 0, 1, 0, 0x1e, 0, 1, 0, 0, 0,
];

/// The same as a record of 16 bytes.
const PRESS16: [u8; 16] = [1, 0, 0, 0, 0x20, 0xa1, 7, 0, 1, 0, 0x1e, 0, 1, 0, 0, 0];

#[test]
fn records_are_written_and_read(rt: HostRuntime) -> Result<(), Fail> {
    let event = Event {
        kind: 1,
        code: 30,
        value: 1,
    };
    let mut bytes = [0; RECORD_LEN];
    encode(event, 1_500_000, &mut bytes);
    assert!(rt; bytes == PRESS);
    assert_eq!(rt; decode(&bytes)?, (event, 1_500_000));
    let mut bytes = [0; RECORD16_LEN];
    encode16(event, 1_500_000, &mut bytes);
    assert!(rt; bytes == PRESS16);
    assert_eq!(rt; decode16(&bytes)?, (event, 1_500_000));
    Ok(())
}
