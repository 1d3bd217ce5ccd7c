//! The autorepeat of a device, as C has it.
ghost use Rattle.std.specs.Prelude.{◌≡◌, if◌then◌else◌, is_some, unwrap_or};

use inp_uinput::Repeat;
use std::mem::size_of;

/// The autorepeat of a device: its settings in milliseconds, and its timer.
#[repr(C)]
#[derive(Drop)]
pub struct CRepeat {
    /// The time before a key's first repeat, in milliseconds.
    pub delay: i32,
    /// The time between repeats, in milliseconds.
    pub period: i32,
    /// 1 where the timer is armed, else 0.
    pub armed: u32,
    /// The key that the timer was last armed for, 0 before any.
    pub key: u32,
    /// The moment from which on the timer fires, in microseconds, and 0 where it is not armed.
    pub due: u64,
}

const _: () = prove!(size_of::<CRepeat>() == 24);

/// The autorepeat of a device, as C has it.
pub(crate) fn c_repeat(repeat: Repeat) -> CRepeat
    ensures { result ≡ record {
      delay = repeat.delay;
      period = repeat.period;
      armed = if is_some repeat.timer.due then 1 else 0;
      key = repeat.timer.key;
      due = unwrap_or repeat.timer.due 0;
    } }
{
    let timer = repeat.timer;
    CRepeat {
        delay: repeat.delay,
        period: repeat.period,
        armed: u32::from(timer.due.is_some()),
        key: u32::from(timer.key),
        due: timer.due.unwrap_or(0),
    }
}
