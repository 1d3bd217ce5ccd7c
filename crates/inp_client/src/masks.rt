//! The masks of a client.
ghost use Rattle.std.specs.Prelude.{◌≡◌, ◌<◌, true, length, slice_index_or};
ghost use Rattle.inp_model.specs.Past.{has_mask, mask_words};
ghost use Rattle.inp_bits.specs.Bits.{word_bits};
ghost use Rattle.inp_client.specs.Masks.{full_masks, mask_of, mask_bit_of, admits_of, word_of, masks_after};

use inp_bits::Bits;
use inp_model::{EV_ABS, EV_KEY, EV_LED, EV_MSC, EV_REL, EV_REP, EV_SND, EV_SW, EV_SYN, Event};
use std::marker::Model;

/// Which events a client admits: a bit for each type, and one for each code of seven types (evdev's event masks).
#[derive(Drop)]
pub struct Masks {
    types: Bits<1>,
    keys: Bits<12>,
    relatives: Bits<1>,
    axes: Bits<1>,
    miscs: Bits<1>,
    switches: Bits<1>,
    leds: Bits<1>,
    sounds: Bits<1>,
    // No word was set, so every bit is set.
    is_full: bool,
}

impl Model for Masks {
    ghost use Rattle.inp_client.specs.Masks.{MaskView};

    ghost Value = { MaskView };

    ghost use Rattle.inp_client.specs.KeptMasks.{masks_of, AreMasks};

    ghost view = { masks_of };

    ghost invariant = { AreMasks };
}

impl Masks {
    /// Masks whose bits are all set.
    pub fn new() -> Masks
        ensures full { result ≡ full_masks }
    {
        Masks {
            types: Bits::full(),
            keys: Bits::full(),
            relatives: Bits::full(),
            axes: Bits::full(),
            miscs: Bits::full(),
            switches: Bits::full(),
            leds: Bits::full(),
            sounds: Bits::full(),
            is_full: true,
        }
    }

    /// Whether no word was set yet, so that every event is admitted.
    pub fn is_full(&self) -> bool
        ensures full { result ≡ true → self.now ≡ full_masks }
    {
        self.is_full
    }

    /// Whether an event is admitted. `EV_SYN` always is, and of `EV_REP` the type decides alone.
    pub fn admits(&self, event: Event) -> bool
        ensures admits { result ≡ admits_of self.now event }
    {
        event.kind == EV_SYN
            || (self.has_bit(EV_SYN, event.kind)
                && (event.kind == EV_REP || self.has_bit(event.kind, event.code)))
    }

    /// A bit of the mask that goes by a type, set where the type has no mask.
    fn has_bit(&self, kind: u16, index: u16) -> bool
        ensures bit { result ≡ mask_bit_of self.now kind index }
    {
        match kind {
            EV_SYN => code_bit(&self.types, index),
            EV_KEY => key_bit(&self.keys, index),
            EV_REL => code_bit(&self.relatives, index),
            EV_ABS => code_bit(&self.axes, index),
            EV_MSC => code_bit(&self.miscs, index),
            EV_SW => code_bit(&self.switches, index),
            EV_LED => code_bit(&self.leds, index),
            EV_SND => code_bit(&self.sounds, index),
            _ => true,
        }
    }

    /// 64 bits of the mask that goes by a type, from `64 * word` on: the first is the lowest bit of the result.
    pub fn word(&self, kind: u16, word: u16) -> u64
        requires kind { has_mask kind ≡ true }
        requires word { word < mask_words kind }
        ensures word { word_bits result ≡ word_of word (mask_of self.now kind) }
    {
        let word = u32::from(word);
        match kind {
            EV_SYN => self.types.word(word),
            EV_KEY => self.keys.word(word),
            EV_REL => self.relatives.word(word),
            EV_ABS => self.axes.word(word),
            EV_MSC => self.miscs.word(word),
            EV_SW => self.switches.word(word),
            EV_LED => self.leds.word(word),
            EV_SND => self.sounds.word(word),
            _ => unreachable!(),
        }
    }

    /// Sets 64 bits of the mask that goes by a type, from `64 * word` on, the lowest bit of `bits` first.
    pub fn set_word(&mut self, kind: u16, word: u16, bits: u64)
        requires kind { has_mask kind ≡ true }
        requires word { word < mask_words kind }
        ensures set { self.new ≡ masks_after kind word bits self.old }
    {
        self.is_full = false;
        let word = u32::from(word);
        match kind {
            EV_SYN => self.types.set_word(word, bits),
            EV_KEY => self.keys.set_word(word, bits),
            EV_REL => self.relatives.set_word(word, bits),
            EV_ABS => self.axes.set_word(word, bits),
            EV_MSC => self.miscs.set_word(word, bits),
            EV_SW => self.switches.set_word(word, bits),
            EV_LED => self.leds.set_word(word, bits),
            EV_SND => self.sounds.set_word(word, bits),
            _ => {}
        }
    }
}

// The bit of a key, set past the end.
fn key_bit(keys: &Bits<12>, code: u16) -> bool
    requires { length keys.now ≡ 768 }
    ensures { result ≡ slice_index_or keys.now code true }
{
    code >= 768 || keys.get(u32::from(code))
}

// The bit of a code, set past the end.
fn code_bit(codes: &Bits<1>, code: u16) -> bool
    requires { length codes.now ≡ 64 }
    ensures { result ≡ slice_index_or codes.now code true }
{
    code >= 64 || codes.get(u32::from(code))
}
