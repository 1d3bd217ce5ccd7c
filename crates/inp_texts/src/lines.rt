//! The end of a page: what was written, and waits to go into the text.
ghost use Rattle.std.specs.Prelude.{◌≡◌, ◌+◌, ◌≤◌, [], ◌∷◌, ◌++◌, length, decimal};
ghost use Rattle.std.specs.Fmt.{signed_decimal};

use crate::digits::{store_number, store_signed};
use crate::phrase::{Phrase, store_phrase, store_words};
use std::marker::Model;

/// How many bytes wait at most (this project's choice).
const ROOM: usize = 2048;

/// What waits: a buffer of a fixed size. A contract sees the bytes.
#[derive(Drop)]
pub(crate) struct Lines {
    bytes: [u8; ROOM],
    len: usize,
}

impl Model for Lines {
    ghost use Rattle.std.specs.Prelude.{◌≤◌, ℕ, List, take};

    ghost Value = { List ℕ };

    ghost view = { λ lines. take lines.len lines.bytes };

    ghost invariant = { λ lines. lines.len ≤ 2048 };
}

impl Lines {
    pub(crate) fn new() -> Lines
        ensures empty { result ≡ [] }
    {
        Lines {
            bytes: [0; ROOM],
            len: 0,
        }
    }

    // How many bytes more may wait.
    #[inline(always)]
    pub(crate) fn spare(&self) -> usize
        ensures spare { length self.now + result ≡ 2048 }
    {
        ROOM - self.len
    }

    pub(crate) fn as_slice(&self) -> &[u8]
        ensures bytes { result.now ≡ self.now }
    {
        &self.bytes[..self.len]
    }

    pub(crate) fn clear(&mut self)
        ensures empty { self.new ≡ [] }
    {
        self.len = 0;
    }

    #[inline(always)]
    pub(crate) fn push_bytes(&mut self, words: &[u8])
        requires room { length self.old + length words.now ≤ 2048 }
        ensures pushed { self.new ≡ self.old ++ words.now }
    {
        self.len = store_words(&mut self.bytes, self.len, words);
    }

    #[inline(always)]
    pub(crate) fn push_phrase(&mut self, phrase: &Phrase)
        requires room { length self.old + 48 ≤ 2048 }
        ensures pushed { self.new ≡ self.old ++ phrase.now }
    {
        self.len = store_phrase(&mut self.bytes, self.len, phrase);
    }

    #[inline(always)]
    pub(crate) fn push_number(&mut self, number: u64)
        requires room { length self.old + 20 ≤ 2048 }
        ensures pushed { self.new ≡ self.old ++ decimal number }
    {
        self.len = store_number(&mut self.bytes, self.len, number);
    }

    #[inline(always)]
    pub(crate) fn push_signed(&mut self, number: i32)
        requires room { length self.old + 11 ≤ 2048 }
        ensures pushed { self.new ≡ self.old ++ signed_decimal number }
    {
        self.len = store_signed(&mut self.bytes, self.len, number);
    }

    // Appends two phrases, a number and a line feed.
    #[inline(always)]
    pub(crate) fn push_line(&mut self, first: &Phrase, second: &Phrase, number: i32)
        requires room { length self.old + 108 ≤ 2048 }
        ensures pushed { self.new
            ≡ self.old ++ (first.now ++ (second.now ++ (signed_decimal number ++ 10 ∷ []))) }
    {
        let at = store_phrase(&mut self.bytes, self.len, first);
        let at = store_phrase(&mut self.bytes, at, second);
        let at = store_signed(&mut self.bytes, at, number);
        self.bytes[at] = b'\n';
        self.len = at + 1;
    }
}
