//! The iterator over the indices at which a list is true.
ghost use Rattle.std.specs.Prelude.{◌≡◌, ◌*◌, ◌<◌, ◌≤◌, length};
ghost use Rattle.std.specs.List.{All};
ghost use Rattle.inp_bits.specs.Bits.{true_indices};

use crate::Bits;
use std::marker::Model;

/// The indices at which a list of truth values is true, ascending.
///
/// Made by [`Bits::ones`] and [`Bits::differing`]. It keeps a list of its own, so the one that it came from may
/// change meanwhile. After `None` it gives `None` again. A contract sees the list of the indices that are left.
#[derive(Debug, Drop)]
pub struct Ones<const W: usize> {
    // The values that are still to be given: an index that was given is false here.
    left: Bits<W>,
    // No word before this one has a true value.
    first_word: u32,
}

impl<const W: usize> Model for Ones<W> {
    ghost use Rattle.std.specs.Prelude.{List, ℕ, ◌*◌};
    ghost use Rattle.inp_bits.specs.Bits.{true_indices};
    ghost use Rattle.inp_bits.specs.Ones.{IsFalseBelow};

    ghost Value = { List ℕ };

    ghost view = { λ o. true_indices o.left };

    ghost invariant = { λ o. IsFalseBelow (64 * W) (64 * o.first_word) o.left };
}

impl<const W: usize> Ones<W> {
    // The iterator over the indices at which `left` is true.
    pub(crate) fn new(left: Bits<W>) -> Self
        requires { length left ≡ 64 * W }
        ensures value { result ≡ true_indices left.entry }
        ensures within { All (λ index. index < 64 * W) result }
        ensures few { length result ≤ 64 * W }
    {
        Ones {
            left,
            first_word: 0,
        }
    }
}

impl<const W: usize> Iterator for Ones<W> {
    ghost use Rattle.std.specs.Iterator.{YieldsFirst, item_count};

    type Item = u32;

    ghost next_gives = { YieldsFirst (λ indices. indices) };

    ghost remaining = { item_count (λ indices. indices) };

    fn next(&mut self) -> Option<u32> {
        let index = self.left.first_true(self.first_word)?;
        self.left.set(index, false);
        self.first_word = index / 64;
        Some(index)
    }
}
