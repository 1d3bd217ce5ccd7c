//! The description of most tests, and the report that ends a frame.

use inp_caps::{Caps, CapsBuilder, CapsRefused};
use inp_model::{AxisInfo, EV_KEY, EV_SYN, Event, KEY_A, NO_INFO, SYN_REPORT};

/// A frame ends.
pub const REPORT: Event = Event {
    kind: EV_SYN,
    code: SYN_REPORT,
    value: 0,
};

/// The axis `ABS_X`.
pub const X: u16 = 0;

/// A device with the key A and the axis X, whose frames gather at most 8 events, so that rings have 64 places.
pub fn gamepad() -> Result<Caps, CapsRefused> {
    let mut builder = CapsBuilder::new();
    builder.code(EV_KEY, KEY_A)?;
    builder.axis(
        X,
        AxisInfo {
            maximum: 255,
            ..NO_INFO
        },
    )?;
    builder.hint(8)?;
    Ok(builder.build())
}
