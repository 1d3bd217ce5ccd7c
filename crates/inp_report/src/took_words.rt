//! The lines of events that were taken.
ghost use Rattle.std.specs.Prelude.{◌≡◌, ◌++◌, OnOk, IfOk};
ghost use Rattle.inp_script.specs.declared.sight.Sight.TheVariants.{Took};
ghost use Rattle.inp_report.specs.Sights.{sight_line, stamp_text};
ghost use Rattle.inp_report.specs.Words.{event_text};

use crate::event_words::KnownWords;
use crate::stamp::Stamp;
use inp_model::{NoMemory, Taken};
use inp_texts::{Page, push_signed};
use std::alloc::Global;

/// The words of `took` lines that were written before, to be copied where they come again.
#[derive(Drop)]
pub(crate) struct TookWords {
    stamp: Stamp,
    events: KnownWords,
}

impl TookWords {
    // Of the place and the time 0, with no words of events.
    pub(crate) fn new(alloc: Global) -> Result<TookWords, NoMemory>
        ensures first { IfOk result (λ words. words.stamp.words ≡ stamp_text 0 0) }
    {
        let events = KnownWords::new(alloc)?;
        Ok(TookWords {
            stamp: Stamp::new(),
            events,
        })
    }

    // Appends the line of an event that was taken.
    #[inline(always)]
    #[tactic(auto, unfolding(crate::specs::Sights::sight_line, crate::specs::Sights::stamp_text, crate::specs::Words::event_text, crate::specs::Words::event_label))]
    pub(crate) fn push(&mut self, text: &mut Page, taken: &Taken) -> Result<(), NoMemory>
        ensures pushed { OnOk result (text.new ≡ text.old ++ sight_line (Took taken.now)) }
    {
        let Taken { event, time, place } = *taken;
        self.stamp.turn_to(place, time);
        match self.events.get(event.kind, event.code) {
            Some(label) => text.push_line(self.stamp.words(), label, event.value),
            None => self.push_new(text, taken),
        }
    }

    // The same where the words of its type and code are not known.
    #[cold]
    #[inline(never)]
    #[tactic(auto, unfolding(crate::specs::Sights::sight_line, crate::specs::Sights::stamp_text))]
    fn push_new(&mut self, text: &mut Page, taken: &Taken) -> Result<(), NoMemory>
        ensures pushed { OnOk result (text.new ≡ text.old ++ sight_line (Took taken.now)) }
    {
        self.push_parts(text, taken)?;
        text.push_str("\n")
    }

    // The same without its end.
    #[tactic(auto, unfolding(crate::specs::Sights::stamp_text, crate::specs::Words::event_text, crate::specs::Words::event_label))]
    fn push_parts(&mut self, text: &mut Page, taken: &Taken) -> Result<(), NoMemory>
        ensures pushed { OnOk result
            (text.new ≡ text.old ++ (stamp_text taken.now.place taken.now.time ++ event_text taken.now.event)) }
    {
        self.stamp.turn_to(taken.place, taken.time);
        text.push_phrase(self.stamp.words())?;
        self.events.write(text, taken.event.kind, taken.event.code)?;
        push_signed(text, taken.event.value)
    }
}
