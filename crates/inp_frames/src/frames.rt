//! Who takes frames.
ghost use Rattle.std.specs.Prelude.{ℕ, ◌≤◌, List, length};
ghost use Rattle.inp_model.specs.declared.event.Event.{Event};
ghost use Rattle.inp_model.specs.declared.stamped.TheConstants.{MOMENT_MAX};

use inp_model::Event;

/// The greatest number of events of a frame: the greatest hint, the announcement of a slot before the last value, and a
/// report.
pub const FRAME_MAX: usize = 514;

const _: () = prove!(FRAME_MAX == inp_model::HINT_MAX as usize + 2);

/// Who takes the frames of a device, one at a time, as the kernel's handlers do.
pub trait Frames {
    /// What a taker makes of a frame: the taker before it, the frame's events, its moment in microseconds, and the
    /// taker after it.
    ghost takes: { Self → List Event → ℕ → Self → Type 0 };

    /// Takes a frame that ended at a moment in microseconds, at most `MOMENT_MAX`. It has at most `FRAME_MAX` events.
    fn pass(&mut self, events: &[Event], now: u64)
        requires fits { length events.now ≤ FRAME_MAX }
        requires timely { now ≤ MOMENT_MAX }
        ensures taken { takes self.old events.now now self.new };
}
