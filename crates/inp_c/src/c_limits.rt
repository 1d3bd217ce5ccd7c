//! The numbers of a device, as C has them.
ghost use Rattle.std.specs.Prelude.{◌≡◌};
ghost use Rattle.inp_c.specs.DescriptionTold.{told_limits};

use inp_caps::Caps;
use inp_model::Clock;
use std::mem::size_of;

/// How much a device has, and how far its clocks are apart.
#[repr(C)]
#[derive(Drop)]
pub struct CLimits {
    /// How many multi-touch slots there are, 0 for none.
    pub slots: u32,
    /// How many events a frame may gather before it is cut.
    pub hint: u32,
    /// How many steps the history may have.
    pub log: u32,
    /// The places of a client's ring.
    pub ring: u32,
    /// How far the realtime clock is ahead of the monotonic one, in microseconds.
    pub realtime: u64,
    /// How far the boottime clock is ahead of the monotonic one, in microseconds.
    pub boottime: u64,
}

const _: () = prove!(size_of::<CLimits>() == 32);

/// The numbers of a description, as C has them.
pub(crate) fn c_limits(caps: &Caps) -> CLimits
    ensures { result ≡ told_limits caps.now }
{
    CLimits {
        slots: caps.slots(),
        hint: caps.hint(),
        log: caps.log(),
        ring: caps.ring(),
        realtime: caps.offset(Clock::Realtime),
        boottime: caps.offset(Clock::Boottime),
    }
}
