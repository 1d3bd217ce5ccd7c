//! A device as a value that threads use in turns.
use crate::device::Device;
use inp_caps::Caps;
use inp_model::Step;
use inp_turn::Kept;

/// A device is made for its description, and its entries are the steps that it accepted, oldest first.
impl Kept for Device {
    type Base = Caps;

    type Entry = Step;

    ghost use Rattle.std.specs.Prelude.{reverse};

    ghost base = { λ device. device.description };

    ghost entries = { λ device. reverse device.past };
}
