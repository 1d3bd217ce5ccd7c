//! The list of truth values.
ghost use Rattle.std.specs.Prelude.{◌≡◌, ℕ, ◌*◌, ◌+◌, ◌<◌, ◌≤◌, ◌++◌, length, replicate, true, false, take, drop, slice_range, slice_set, count_by, IfSome, IfNone};
ghost use Rattle.std.specs.List.{All};
ghost use Rattle.inp_bits.specs.Bits.{is_on_at, word_bits, true_indices, differing_indices};
ghost use Rattle.inp_bits.specs.Ones.{IsFirstTrue};

use crate::Ones;
use crate::words::{total_ones, with_bit};
use std::marker::Model;

/// A list of 64·W truth values, for W up to 1,024, in W words of 64 bits.
///
/// It stands in the place of the kernel's bitmaps of keys, switches and LEDs, and its layout is theirs on a 64-bit
/// machine. Value i is bit i % 64 of word i / 64. It is `Copy`, takes no memory and stores 8·W bytes. A contract sees
/// the list of the values.
#[derive(Debug, Clone, Copy)]
pub struct Bits<const W: usize> {
    words: [u64; W],
}

impl<const W: usize> Model for Bits<W> {
    ghost use Rattle.std.specs.Prelude.{List, Bool};
    ghost use Rattle.inp_bits.specs.Words.{AreWords, bits_of, words_from_bits, words_from_bits-bits_of};

    ghost Value = { List Bool };

    ghost view = { λ b. bits_of b.words };

    ghost invariant = { λ b. AreWords W b.words };

    ghost inverse = { λ bits. record { words = words_from_bits W bits } };

    ghost inverse_ok = { λ b h i. record { words = words_from_bits-bits_of W b.words h.count h.fit i } };
}

impl<const W: usize> Bits<W> {
    /// A list of 64·W values that are all false.
    ///
    /// W is at most 1,024, this project's choice, so that an index has at most 16 bits.
    pub fn new() -> Self
        requires few { W ≤ 1024 }
        ensures all_false { result ≡ replicate (64 * W) false }
    {
        Bits { words: [0; W] }
    }

    /// A list of 64·W values that are all true.
    ///
    /// W is at most 1,024, as for [`Bits::new`].
    pub fn full() -> Self
        requires few { W ≤ 1024 }
        ensures all_true { result ≡ replicate (64 * W) true }
    {
        Bits {
            words: [u64::MAX; W],
        }
    }

    /// Value `index` of the list, for an index below 64·W, as the kernel's `test_bit` gives it.
    pub fn get(&self, index: u32) -> bool
        requires within { index < 64 * W }
        ensures value { result ≡ is_on_at self.now index }
        ensures len { length self.now ≡ 64 * W }
    {
        let word = self.words[index as usize / 64];
        (word >> (index % 64)) & 1 == 1
    }

    /// Sets value `index` of the list to `on`, for an index below 64·W, as the kernel's `__assign_bit` does. The other
    /// values stay.
    pub fn set(&mut self, index: u32, on: bool)
        requires within { index < 64 * W }
        ensures written { self.new ≡ slice_set self.old index on }
        ensures len { length self.new ≡ 64 * W }
    {
        let at = index as usize / 64;
        self.words[at] = with_bit(self.words[at], index % 64, on);
    }

    /// The 64 values from `64 * word_index` on, for a `word_index` below W: the first is the lowest bit of the result.
    pub fn word(&self, word_index: u32) -> u64
        requires within { word_index < W }
        ensures value { word_bits result
            ≡ slice_range self.now (64 * word_index) (64 * word_index + 64) }
        ensures len { length self.now ≡ 64 * W }
    {
        self.words[word_index as usize]
    }

    /// Sets the 64 values from `64 * word_index` on, for a `word_index` below W, to the bits of `bits`, the lowest
    /// first. The other values stay.
    pub fn set_word(&mut self, word_index: u32, bits: u64)
        requires within { word_index < W }
        ensures written { self.new
            ≡ take (64 * word_index) self.old ++ word_bits bits
            ++ drop (64 * word_index + 64) self.old }
        ensures len { length self.new ≡ 64 * W }
    {
        self.words[word_index as usize] = bits;
    }

    /// How many values are true, as the kernel's `bitmap_weight` gives it.
    pub fn count(&self) -> u32
        ensures value { result ≡ count_by (λ on. on) self.now }
        ensures len { length self.now ≡ 64 * W }
    {
        total_ones(&self.words)
    }

    /// The indices at which the list is true, ascending, as the kernel's `for_each_set_bit` gives them.
    ///
    /// A step looks at whole words, so it passes 64 false values at once.
    pub fn ones(&self) -> Ones<W>
        ensures value { result ≡ true_indices self.now }
        ensures within { All (λ index. index < 64 * W) result }
        ensures few { length result ≤ 64 * W }
        ensures len { length self.now ≡ 64 * W }
    {
        Ones::new(Bits { words: self.words })
    }

    /// The indices at which this list and `other` differ, ascending.
    pub fn differing(&self, other: &Self) -> Ones<W>
        ensures value { result ≡ differing_indices self.now other.now }
        ensures within { All (λ index. index < 64 * W) result }
        ensures few { length result ≤ 64 * W }
        ensures len { length self.now ≡ 64 * W }
        ensures other_len { length other.now ≡ 64 * W }
    {
        let mut words = self.words;
        for at in 0..W {
            words[at] ^= other.words[at];
        }
        Ones::new(Bits { words })
    }

    // The first index from `64 * first_word` on at which the list is true.
    pub(crate) fn first_true(&self, first_word: u32) -> Option<u32>
        ensures found { IfSome result (IsFirstTrue self.now (64 * first_word)) }
        ensures none { IfNone result ((k : ℕ) → 64 * first_word ≤ k → is_on_at self.now k ≡ false) }
        ensures len { length self.now ≡ 64 * W }
    {
        for at in first_word as usize..W {
            let word = self.words[at];
            if word != 0 {
                return Some(64 * at as u32 + word.trailing_zeros());
            }
        }
        None
    }
}
