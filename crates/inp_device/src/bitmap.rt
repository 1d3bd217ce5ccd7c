//! Lists of truth values as words.
ghost use Rattle.std.specs.Prelude.{◌≡◌, ◌≤◌, false, slice_index_or};
ghost use Rattle.inp_model.specs.Reply.{bitmap_of};

use inp_bits::Bits;

/// The words of a list of 64 to 768 truth values: bit i for the value i, 64 a word, and 0 past the end of the list.
pub fn bitmap_of<const W: usize>(bits: &Bits<W>) -> [u64; 12]
    requires { (1 ≤ W) × (W ≤ 12) }
    ensures { result ≡ bitmap_of (λ code. slice_index_or bits.now code false) }
{
    let mut words = [0; 12];
    for index in 0..W {
        words[index] = bits.word(index as u32);
    }
    words
}
