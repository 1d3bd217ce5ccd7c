//! A clock, as it is written.

use inp_model::Clock;
use std::fmt;
use std::fmt::Write;

/// Writes a clock: `realtime`, `monotonic` or `boottime`, as the kernel's `CLOCK_REALTIME` and the others are named.
#[derive(Drop)]
pub struct ClockText(pub Clock);

impl fmt::Display for ClockText {
    ghost use Rattle.std.specs.Prelude.{Some};
    ghost use Rattle.inp_texts.specs.Texts.{clock_text};

    ghost output = { λ shown. Some (clock_text shown.0) };

    #[tactic(auto, unfolding(crate::specs::Texts::clock_text))]
    fn fmt<W: fmt::Write>(&self, f: &mut fmt::Formatter<W>) -> fmt::Result {
        match self.0 {
            Clock::Realtime => f.write_str("realtime"),
            Clock::Monotonic => f.write_str("monotonic"),
            Clock::Boottime => f.write_str("boottime"),
        }
    }
}
