//! Words that are types and codes of events.
ghost use Rattle.std.specs.Prelude.{◌≡◌};
ghost use Rattle.inp_texts.specs.Number.{number};
ghost use Rattle.inp_texts.specs.Code.{kind_word, code_word};

use crate::number_words::number;
use inp_codes::{code_named, kind_named};

/// The number of at most 65,535 that a word is.
#[cold]
#[inline(never)]
fn number_word(word: &[u8]) -> Option<u16>
    ensures { result ≡ number 65535 word.now }
{
    match number(word, 65535) {
        Some(value) => Some(value as u16),
        None => None,
    }
}

/// The type of an event that a word is: by its name in `inp_codes`, or by a number of at most 65,535.
#[inline(always)]
#[tactic(auto, unfolding(crate::specs::Code::kind_word))]
pub fn kind_word(word: &[u8]) -> Option<u16>
    ensures kind { result ≡ kind_word word.now }
{
    match kind_named(word) {
        Some(kind) => Some(kind),
        None => number_word(word),
    }
}

/// The code of an event of type `kind` that a word is: by a name in `inp_codes` that belongs to the type, or by a number
/// of at most 65,535.
#[inline(always)]
#[tactic(auto, unfolding(crate::specs::Code::code_word))]
pub fn code_word(kind: u16, word: &[u8]) -> Option<u16>
    ensures code { result ≡ code_word kind word.now }
{
    match code_named(word) {
        Some(named) => { if named.0 == kind { Some(named.1) } else { None } }
        None => number_word(word),
    }
}
