//! A text that is written piece by piece.
ghost use Rattle.std.specs.Prelude.{◌≡◌, ◌≤◌, ◌+◌, [], ◌∷◌, ◌++◌, length, drop, decimal, OnOk, OnErr, IfOk, IfSome, IsSome, ◌↔◌};
ghost use Rattle.std.specs.Fmt.{AppendsText, signed_decimal};

use crate::lines::Lines;
use crate::phrase::Phrase;
use inp_model::NoMemory;
use std::alloc::Global;
use std::fmt::{self, Display, Write};
use std::marker::Model;

/// A text that is written piece by piece. A contract sees the bytes that were written.
///
/// Pieces go into a buffer of a fixed size, and from there into the text, some two thousand bytes at a time.
#[derive(Drop)]
pub struct Page {
    text: Vec<u8>,
    lines: Lines,
}

impl Model for Page {
    ghost use Rattle.std.specs.Prelude.{ℕ, List, ◌++◌};

    ghost Value = { List ℕ };

    ghost view = { λ page. page.text.items ++ page.lines };
}

impl Page {
    /// An empty page. It takes no memory of the allocator.
    pub fn new(alloc: Global) -> Page
        ensures empty { result ≡ [] }
    {
        Page {
            text: Vec::new(alloc),
            lines: Lines::new(),
        }
    }

    /// Where its memory comes from.
    pub fn allocator(&self) -> Global {
        *self.text.allocator()
    }

    /// Asks at once for the memory of so many more bytes. Where there is none, the page grows as it is written.
    pub fn reserve(&mut self, bytes: usize)
        ensures same { self.new ≡ self.old }
    {
        let _ = self.text.reserve(bytes);
    }

    /// How many bytes were written.
    pub fn len(&self) -> usize
        ensures { result ≡ length self.now }
    {
        self.text.len() + self.lines.as_slice().len()
    }

    /// The bytes that were written.
    ///
    /// # Errors
    ///
    /// `NoMemory` where there is none for the last of them.
    pub fn into_bytes(self) -> Result<Vec<u8>, NoMemory>
        ensures bytes { IfOk result (λ bytes. bytes.items ≡ self) }
    {
        let Page { mut text, lines } = self;
        text.extend_from_slice(lines.as_slice())?;
        Ok(text)
    }

    /// Appends words. Words that the caller writes out are stored at once, with no loop.
    ///
    /// # Errors
    ///
    /// `NoMemory` where there is none for them, and the page is as before.
    #[inline(always)]
    pub fn push_str(&mut self, words: &str) -> Result<(), NoMemory>
        ensures pushed { OnOk result (self.new ≡ self.old ++ words.now) }
        ensures kept { OnErr result (self.new ≡ self.old) }
    {
        let words = words.as_bytes();
        if self.lines.spare() < words.len() {
            return push_apart(&mut self.text, &mut self.lines, words);
        }
        self.lines.push_bytes(words);
        Ok(())
    }

    /// Appends a phrase, by stores of a fixed width.
    ///
    /// # Errors
    ///
    /// `NoMemory` where there is none for it, and the page is as before.
    #[inline(always)]
    pub fn push_phrase(&mut self, phrase: &Phrase) -> Result<(), NoMemory>
        ensures pushed { OnOk result (self.new ≡ self.old ++ phrase.now) }
        ensures kept { OnErr result (self.new ≡ self.old) }
    {
        make_room(&mut self.text, &mut self.lines, 48)?;
        self.lines.push_phrase(phrase);
        Ok(())
    }

    /// Appends a number in decimal, without leading zeros.
    ///
    /// # Errors
    ///
    /// `NoMemory` where there is none for the digits, and the page is as before.
    #[inline]
    pub fn push_number(&mut self, number: u64) -> Result<(), NoMemory>
        ensures pushed { OnOk result (self.new ≡ self.old ++ decimal number) }
        ensures kept { OnErr result (self.new ≡ self.old) }
    {
        make_room(&mut self.text, &mut self.lines, 20)?;
        self.lines.push_number(number);
        Ok(())
    }

    /// Appends a number in decimal, behind `-` where it is negative, without leading zeros.
    ///
    /// # Errors
    ///
    /// `NoMemory` where there is none for the digits, and the page is as before.
    #[inline]
    pub fn push_signed(&mut self, number: i32) -> Result<(), NoMemory>
        ensures pushed { OnOk result (self.new ≡ self.old ++ signed_decimal number) }
        ensures kept { OnErr result (self.new ≡ self.old) }
    {
        make_room(&mut self.text, &mut self.lines, 11)?;
        self.lines.push_signed(number);
        Ok(())
    }

    /// Appends a line: two phrases, a number, behind `-` where it is negative, and a line feed. Room is asked for once.
    ///
    /// # Errors
    ///
    /// `NoMemory` where there is none for it, and the page is as before.
    #[inline(always)]
    pub fn push_line(
        &mut self,
        first: &Phrase,
        second: &Phrase,
        number: i32,
    ) -> Result<(), NoMemory>
        ensures pushed { OnOk result (self.new
            ≡ self.old ++ (first.now ++ (second.now ++ (signed_decimal number ++ 10 ∷ [])))) }
        ensures kept { OnErr result (self.new ≡ self.old) }
    {
        make_room(&mut self.text, &mut self.lines, 108)?;
        self.lines.push_line(first, second, number);
        Ok(())
    }

    /// Appends what a value is displayed as: `write!` calls this.
    ///
    /// # Errors
    ///
    /// `NoMemory` where there is none for the text.
    pub fn write_fmt<D: Display + Drop>(&mut self, value: D) -> Result<(), NoMemory>
        ensures pushed { OnOk result (AppendsText self.old self.new (D.output value)) }
    {
        match self.write(value) {
            Ok(()) => Ok(()),
            Err(_) => Err(NoMemory),
        }
    }

    /// What was written from a place on, as a phrase; `None` exactly where that is longer than a phrase may be.
    pub fn phrase_from(&self, start: usize) -> Option<Phrase>
        requires start { start ≤ length self.now }
        ensures phrase { IfSome result (λ phrase. phrase ≡ drop start self.now) }
        ensures short { IsSome result ↔ (length (drop start self.now) ≤ 48) }
    {
        let kept = self.text.len();
        if start < kept {
            Phrase::of(&self.text[start..], self.lines.as_slice())
        } else {
            Phrase::of(&[], &self.lines.as_slice()[start - kept..])
        }
    }
}

impl Write for Page {
    ghost use Rattle.std.specs.Prelude.{◌≡◌, ◌++◌};

    ghost write_str_gives = { λ before words after. after ≡ before ++ words };

    fn write_str(&mut self, words: &str) -> fmt::Result {
        match self.push_str(words) {
            Ok(()) => Ok(()),
            Err(_) => Err(fmt::Error),
        }
    }
}

// Makes room for so many bytes behind what waits.
#[inline(always)]
fn make_room(text: &mut Vec<u8>, lines: &mut Lines, room: usize) -> Result<(), NoMemory>
    requires most { room ≤ 2048 }
    ensures same { text.new.items ++ lines.new ≡ text.old.items ++ lines.old }
    ensures room { OnOk result (length lines.new + room ≤ 2048) }
{
    if lines.spare() < room {
        flush(text, lines)?;
    }
    Ok(())
}

// Appends words behind what waits, with nothing that waits any more.
#[cold]
#[inline(never)]
fn push_apart(text: &mut Vec<u8>, lines: &mut Lines, words: &[u8]) -> Result<(), NoMemory>
    ensures pushed { OnOk result (text.new.items ++ lines.new ≡ (text.old.items ++ lines.old) ++ words.now) }
    ensures kept { OnErr result (text.new.items ++ lines.new ≡ text.old.items ++ lines.old) }
{
    flush(text, lines)?;
    text.extend_from_slice(words)?;
    Ok(())
}

// Moves what waits into the text.
#[cold]
#[inline(never)]
fn flush(text: &mut Vec<u8>, lines: &mut Lines) -> Result<(), NoMemory>
    ensures same { text.new.items ++ lines.new ≡ text.old.items ++ lines.old }
    ensures empty { OnOk result (lines.new ≡ []) }
{
    text.extend_from_slice(lines.as_slice())?;
    lines.clear();
    Ok(())
}
