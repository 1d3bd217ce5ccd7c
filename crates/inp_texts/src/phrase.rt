//! Words that are written again and again.
ghost use Rattle.std.specs.Prelude.{◌≡◌, ◌≤◌, ◌+◌, [], ◌++◌, length, take, decimal, IfSome, IsSome, ◌↔◌};

use crate::digits::store_number;
use std::marker::Model;

/// How many bytes a phrase has at most.
const WIDTH: usize = 48;

/// Words of at most 48 bytes that are written again and again, kept so that they can be copied by stores of a fixed width.
/// A contract sees the words.
#[derive(Drop)]
pub struct Phrase {
    padded: [u8; WIDTH],
    len: usize,
}

impl Model for Phrase {
    ghost use Rattle.std.specs.Prelude.{◌≤◌, ℕ, List, length, take};

    ghost Value = { List ℕ };

    ghost view = { λ phrase. take phrase.len phrase.padded };

    ghost invariant = { λ phrase. phrase.len ≤ 48 };
}

impl Phrase {
    /// A phrase of no words.
    pub fn new() -> Phrase
        ensures empty { result ≡ [] }
    {
        Phrase {
            padded: [0; WIDTH],
            len: 0,
        }
    }

    // The phrase of these words, the second behind the first; `None` exactly where they are longer than a phrase may be.
    pub(crate) fn of(first: &[u8], second: &[u8]) -> Option<Phrase>
        ensures phrase { IfSome result (λ phrase. phrase ≡ first.now ++ second.now) }
        ensures short { IsSome result ↔ (length (first.now ++ second.now) ≤ 48) }
    {
        if first.len() > WIDTH || second.len() > WIDTH - first.len() {
            return None;
        }
        let mut padded = [0; WIDTH];
        let len = store_words(&mut padded, 0, first);
        let len = store_words(&mut padded, len, second);
        Some(Phrase { padded, len })
    }

    /// How many bytes the words have.
    pub fn len(&self) -> usize
        ensures len { result ≡ length self.now }
        ensures most { result ≤ 48 }
    {
        self.len
    }

    /// The words.
    pub fn as_slice(&self) -> &[u8]
        ensures words { result.now ≡ self.now }
    {
        &self.padded[..self.len]
    }

    /// Forgets the words.
    pub fn clear(&mut self)
        ensures empty { self.new ≡ [] }
    {
        self.len = 0;
    }

    /// Appends words, for which there must be room.
    #[inline(always)]
    pub fn push_str(&mut self, words: &str)
        requires room { length self.old + length words.now ≤ 48 }
        ensures pushed { self.new ≡ self.old ++ words.now }
    {
        self.len = store_words(&mut self.padded, self.len, words.as_bytes());
    }

    /// Appends a number in decimal, for whose digits there must be room.
    #[inline]
    pub fn push_number(&mut self, number: u64)
        requires room { length self.old + length (decimal number) ≤ 48 }
        ensures pushed { self.new ≡ self.old ++ decimal number }
    {
        self.len = store_number(&mut self.padded, self.len, number);
    }
}

// Stores a phrase from a place on, by stores of a fixed width, and gives the place behind its words.
#[inline(always)]
pub(crate) fn store_phrase(bytes: &mut [u8], at: usize, phrase: &Phrase) -> usize
    requires room { at + 48 ≤ length bytes.old }
    ensures end { result ≡ at + length phrase.now }
    ensures short { result ≤ at + 48 }
    ensures stored { take result bytes.new ≡ take at bytes.old ++ phrase.now }
{
    let padded = phrase.padded;
    store_words(bytes, at, &padded);
    at + phrase.len
}

// Stores words from a place on, and gives the place behind them.
#[inline(always)]
pub(crate) fn store_words(bytes: &mut [u8], at: usize, words: &[u8]) -> usize
    requires room { at + length words.now ≤ length bytes.old }
    ensures end { result ≡ at + length words.now }
    ensures stored { take result bytes.new ≡ take at bytes.old ++ words.now }
{
    for (index, byte) in words.iter().enumerate() {
        bytes[at + index] = *byte;
    }
    at + words.len()
}
