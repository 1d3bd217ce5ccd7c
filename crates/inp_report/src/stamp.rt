//! The words before the event of a `took` line.
ghost use Rattle.std.specs.Prelude.{◌≡◌};
ghost use Rattle.inp_report.specs.Sights.{stamp_text};

use inp_texts::Phrase;

/// The words before the event of a `took` line. All events of a frame have one place and one time, so these words are
/// made once for a frame, and copied for its further events.
#[derive(Drop)]
pub(crate) struct Stamp {
    place: u32,
    time: u64,
    words: Phrase,
    ghost says: { words ≡ stamp_text place time },
}

impl Stamp {
    // The words of the place and the time 0.
    pub(crate) fn new() -> Stamp
        ensures words { result.words ≡ stamp_text 0 0 }
    {
        let mut words = Phrase::new();
        write_stamp(&mut words, 0, 0);
        Stamp {
            place: 0,
            time: 0,
            words,
        }
    }

    // Makes the words of a place and a time, unless it has them.
    #[inline(always)]
    pub(crate) fn turn_to(&mut self, place: u32, time: u64)
        ensures words { self.new.words ≡ stamp_text place time }
    {
        if self.place != place || self.time != time {
            write_stamp(&mut self.words, place, time);
            self.place = place;
            self.time = time;
        }
    }

    #[inline(always)]
    pub(crate) fn words(&self) -> &Phrase
        ensures words { result.now ≡ self.now.words }
    {
        &self.words
    }
}

// Writes the words of a place and a time over a phrase. There is room: they have two numbers and seven bytes more.
#[inline(never)]
#[tactic(auto, unfolding(crate::specs::Sights::stamp_text))]
fn write_stamp(words: &mut Phrase, place: u32, time: u64)
    ensures words { words.new ≡ stamp_text place time }
{
    words.clear();
    words.push_str("took ");
    words.push_number(u64::from(place));
    words.push_str(" ");
    words.push_number(time);
    words.push_str(" ");
}
