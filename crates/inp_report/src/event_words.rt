//! The words before the value of an event.
ghost use Rattle.std.specs.Prelude.{◌≡◌, ◌<◌, ◌++◌, length, replicate, None, IfOk, OnOk, IfSome};
ghost use Rattle.inp_report.specs.Words.{event_label};

use inp_model::NoMemory;
use inp_texts::{Page, Phrase, push_code, push_kind};
use std::alloc::Global;

/// Of how many types and codes the words are kept at once (this project's choice).
const PLACES: usize = 32;

/// The type and the code of an event, as they are written.
#[derive(Drop)]
struct EventWords {
    kind: u16,
    code: u16,
    words: Phrase,
    ghost says: { words ≡ event_label kind code },
}

/// The types and codes that were written, each at the place that it has: what comes again is copied.
#[derive(Drop)]
pub(crate) struct KnownWords {
    known: Vec<Option<EventWords>>,
    ghost places: { length known.items ≡ 32 },
}

impl KnownWords {
    // No words are known.
    pub(crate) fn new(alloc: Global) -> Result<KnownWords, NoMemory>
        ensures none { IfOk result (λ words. words.known.items ≡ replicate 32 None) }
    {
        let mut known = Vec::with_capacity(alloc, PLACES)?;
        for _ in 0..PLACES {
            known.push(None)?;
        }
        Ok(KnownWords { known })
    }

    // The words of a type and a code, where they are known.
    #[inline(always)]
    pub(crate) fn get(&self, kind: u16, code: u16) -> Option<&Phrase>
        ensures words { IfSome result (λ words. words.now ≡ event_label kind code) }
    {
        if let Some(event) = &self.known[place_of(kind, code)] {
            if event.kind == kind && event.code == code {
                return Some(&event.words);
            }
        }
        None
    }

    // Appends the words of a type and a code, and keeps them.
    #[cold]
    #[inline(never)]
    pub(crate) fn write(&mut self, text: &mut Page, kind: u16, code: u16) -> Result<(), NoMemory>
        ensures pushed { OnOk result (text.new ≡ text.old ++ event_label kind code) }
    {
        let start = text.len();
        push_event_words(text, kind, code)?;
        if let Some(words) = text.phrase_from(start) {
            self.known[place_of(kind, code)] = Some(EventWords { kind, code, words });
        }
        Ok(())
    }
}

// The place of a type and a code: codes that follow each other have places of their own, and so have types.
#[inline(always)]
fn place_of(kind: u16, code: u16) -> usize
    ensures place { result < 32 }
{
    (usize::from(code) + 5 * usize::from(kind)) % PLACES
}

/// Appends the type and the code of an event, each with a space after it.
#[tactic(auto, unfolding(crate::specs::Words::event_label))]
pub(crate) fn push_event_words(text: &mut Page, kind: u16, code: u16) -> Result<(), NoMemory>
    ensures pushed { OnOk result (text.new ≡ text.old ++ event_label kind code) }
{
    push_kind(text, kind)?;
    text.push_str(" ")?;
    push_code(text, kind, code)?;
    text.push_str(" ")
}
