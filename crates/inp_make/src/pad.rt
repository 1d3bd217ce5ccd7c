//! The touchpad.
ghost use Rattle.std.specs.Prelude.{◌≡◌};
ghost use Rattle.inp_make.specs.Generated.{pad};

use inp_caps::{Caps, CapsBuilder};
use inp_model::{ABS_MT_POSITION_X, ABS_MT_POSITION_Y, AxisInfo, EV_KEY};

/// The button that is down while something touches a touchpad (the kernel's input event codes).
pub const BTN_TOUCH: u16 = 0x14a;

const _: () = prove!(BTN_TOUCH == 330);

/// The number of slots, one for each finger (this project's choice).
const SLOTS: u32 = 10;

/// How many events a frame may gather: more than the 42 of the first frame (this project's choice).
const HINT: u32 = 64;

/// An axis of positions (this project's choice).
const POSITIONS: AxisInfo = AxisInfo {
    value: 0,
    minimum: 0,
    maximum: 4096,
    fuzz: 0,
    flat: 0,
    resolution: 0,
};

// The touchpad's description.
pub(crate) fn pad() -> Caps
    ensures pad { result ≡ pad }
{
    let mut builder = CapsBuilder::new();
    builder.code(EV_KEY, BTN_TOUCH).unwrap();
    builder.axis(ABS_MT_POSITION_X, POSITIONS).unwrap();
    builder.axis(ABS_MT_POSITION_Y, POSITIONS).unwrap();
    builder.hint(HINT).unwrap();
    builder.slots(SLOTS).unwrap();
    builder.build()
}
