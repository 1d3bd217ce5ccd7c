//! A reader over a device whose history is full after the open.

use crate::common::full_keyboard;
use inp_device::Device;
use inp_model::Refusal;
use inp_reader::{Mode, Next, Phase, Reader, Started};
use std::test::Fail;

#[test]
fn a_start_is_refused_behind_its_open(rt: HostRuntime) -> Result<(), Fail> {
    let caps = full_keyboard();
    let mut device = Device::new(rt.alloc(), caps.copy())?;
    let mut reader = Reader::new(rt.alloc(), &caps)?;
    let (at, why) = (1, Refusal::LogFull);
    assert_eq!(rt; reader.start(&mut device), Started::Refused { at, why });
    assert_eq!(rt; reader.made().len(), 2, "the open and the query of keys");
    assert_eq!(rt; (reader.client(), reader.phase()), (0, Phase::Needed));
    // A second start is refused at its open, and changes nothing but the calls that were made.
    assert_eq!(rt; reader.start(&mut device), Started::Refused { at, why });
    assert_eq!(rt; reader.made().len(), 1, "the open");
    assert_eq!(rt; (reader.client(), reader.phase()), (0, Phase::Needed));
    assert_eq!(rt; reader.next(&mut device, Mode::Normal), Next::Full { at });
    Ok(())
}
