//! The bits of a mask, as they are written.

use std::fmt;
use std::fmt::Write;

/// Writes the 64 bits of a word of a mask: `0x` and sixteen hexadecimal digits (this project's choice).
#[derive(Drop)]
pub struct BitsText(pub u64);

impl fmt::Display for BitsText {
    ghost use Rattle.std.specs.Prelude.{Some};
    ghost use Rattle.inp_texts.specs.Texts.{bits_text};

    ghost output = { λ shown. Some (bits_text shown.0) };

    #[tactic(auto, unfolding(crate::specs::Texts::bits_text))]
    fn fmt<W: fmt::Write>(&self, f: &mut fmt::Formatter<W>) -> fmt::Result {
        let bits = self.0;
        write!(f, "0x{bits:016x}")
    }
}
