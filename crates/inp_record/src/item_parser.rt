//! What the words of lines mean, actions aside.
ghost use Rattle.std.specs.Prelude.{◌≡◌, ◌-◌, ◌<◌, ◌^◌, length, true, option_and_then};
ghost use Rattle.inp_model.specs.declared.limits.TheConstants.{BOUNCE_MAX};
ghost use Rattle.inp_texts.specs.Number.{number};
ghost use Rattle.inp_codes.specs.ByNumber.{texts};
ghost use Rattle.inp_record.specs.declared.keyword.Keyword.TheVariants.{Code, Clock, Axis, Eat, Chord, Bounce};
ghost use Rattle.inp_record.specs.declared.item.Item.TheVariants.{Device, Actor};
ghost use Rattle.inp_record.specs.Keyword.{has_words};
ghost use Rattle.inp_record.specs.Field.{field_word, name_word, version_word, Positive};
ghost use Rattle.inp_record.specs.Words.{word, is_header, plain_item};

use crate::item::Item;
use crate::keyword::Keyword;
use crate::verb::other_clock_word;
use inp_actors::{Name, Role, is_name};
use inp_model::{AxisInfo, BOUNCE_MAX, EV_ABS, EV_KEY, Filter};
use inp_texts::{code_word, kind_word, number, signed_number};

/// The word at a place.
pub(crate) fn word<'a>(words: &[&'a [u8]], place: usize) -> &'a [u8]
    requires { place < length words.now }
    ensures { result.now ≡ word place (texts words.now) }
{
    words[place]
}

/// The version that a word names.
fn version_word(word: &[u8]) -> Option<u32>
    ensures { result ≡ version_word word.now }
{
    if word == b"1".as_slice() {
        Some(1)
    } else if word == b"2".as_slice() {
        Some(2)
    } else {
        None
    }
}

/// Whether the words are `inputrecord` and a version.
pub(crate) fn is_header(words: &[&[u8]]) -> bool
    ensures { result ≡ is_header (texts words.now) }
{
    words.len() == 2
        && word(words, 0) == b"inputrecord".as_slice()
        && version_word(word(words, 1)).is_some()
}

/// The name that a word is.
fn name_word(word: &[u8]) -> Option<Name>
    ensures { result ≡ name_word word.now }
{
    if is_name(word) {
        Some(Name::new(word))
    } else {
        None
    }
}

/// The number of 32 bits that a word is.
pub(crate) fn count_word(word: &[u8]) -> Option<u32>
    ensures { result ≡ number (2 ^ 32 - 1) word.now }
{
    match number(word, 4_294_967_295) {
        Some(count) => Some(count as u32),
        None => None,
    }
}

/// A code that a device supports.
#[tactic(auto, unfolding(crate::specs::Words::plain_item, crate::specs::Line::line_row))]
fn code_item(words: &[&[u8]]) -> Option<Item>
    requires { 2 < length words.now }
    ensures { result ≡ plain_item Code (texts words.now) }
{
    let kind = kind_word(word(words, 1))?;
    let code = code_word(kind, word(words, 2))?;
    Some(Item::Code { kind, code })
}

/// The offset of a clock.
#[tactic(auto, unfolding(crate::specs::Words::plain_item, crate::specs::Line::line_row))]
fn offset_item(words: &[&[u8]]) -> Option<Item>
    requires { 2 < length words.now }
    ensures { result ≡ plain_item Clock (texts words.now) }
{
    let boot = other_clock_word(word(words, 1))?;
    let offset = number(word(words, 2), u64::MAX)?;
    if boot {
        Some(Item::Boottime { offset })
    } else {
        Some(Item::Realtime { offset })
    }
}

/// An axis that a device supports.
#[tactic(auto, unfolding(crate::specs::Words::plain_item, crate::specs::Line::line_row))]
fn axis_item(words: &[&[u8]]) -> Option<Item>
    requires { 7 < length words.now }
    ensures { result ≡ plain_item Axis (texts words.now) }
{
    let code = code_word(EV_ABS, word(words, 1))?;
    let value = signed_number(word(words, 2))?;
    let minimum = signed_number(word(words, 3))?;
    let maximum = signed_number(word(words, 4))?;
    let fuzz = signed_number(word(words, 5))?;
    let flat = signed_number(word(words, 6))?;
    let resolution = signed_number(word(words, 7))?;
    let info = AxisInfo {
        value,
        minimum,
        maximum,
        fuzz,
        flat,
        resolution,
    };
    Some(Item::Axis { code, info })
}

/// The microseconds of a filter, of which there is one or more.
fn micros_word(word: &[u8]) -> Option<u32>
    ensures { result ≡ field_word (Positive BOUNCE_MAX) 0 word.now }
{
    match number(word, u64::from(BOUNCE_MAX)) {
        Some(0) | None => None,
        Some(micros) => Some(micros as u32),
    }
}

/// A filter that eats one code.
#[tactic(auto, unfolding(crate::specs::Words::plain_item, crate::specs::Line::line_row))]
fn eat_item(words: &[&[u8]]) -> Option<Item>
    requires { 3 < length words.now }
    ensures { result ≡ plain_item Eat (texts words.now) }
{
    let kind = kind_word(word(words, 2))?;
    let code = code_word(kind, word(words, 3))?;
    let filter = Filter::Eat { kind, code };
    Some(Item::Filter { filter })
}

/// A filter for chords of two keys.
#[tactic(auto, unfolding(crate::specs::Words::plain_item, crate::specs::Line::line_row))]
fn chord_item(words: &[&[u8]]) -> Option<Item>
    requires { 3 < length words.now }
    ensures { result ≡ plain_item Chord (texts words.now) }
{
    let first = code_word(EV_KEY, word(words, 2))?;
    let second = code_word(EV_KEY, word(words, 3))?;
    let filter = Filter::Chord { first, second };
    Some(Item::Filter { filter })
}

/// A filter for a key that bounces.
#[tactic(auto, unfolding(crate::specs::Words::plain_item, crate::specs::Line::line_row))]
fn bounce_item(words: &[&[u8]]) -> Option<Item>
    requires { 3 < length words.now }
    ensures { result ≡ plain_item Bounce (texts words.now) }
{
    let code = code_word(EV_KEY, word(words, 2))?;
    let micros = micros_word(word(words, 3))?;
    let filter = Filter::Bounce { code, micros };
    Some(Item::Filter { filter })
}

/// The meaning of a line that is no action.
#[tactic(auto, unfolding(crate::specs::Words::plain_item, crate::specs::Line::line_row, crate::specs::Keyword::has_words))]
pub(crate) fn plain_item(keyword: Keyword, words: &[&[u8]]) -> Option<Item>
    requires { has_words keyword (length words.now) ≡ true }
    ensures { result ≡ plain_item keyword (texts words.now) }
{
    match keyword {
        Keyword::Header => {
            let version = version_word(word(words, 1))?;
            Some(Item::Header { version })
        }
        Keyword::Device => device_item(false, word(words, 1)),
        Keyword::Udevice => device_item(true, word(words, 1)),
        Keyword::Hint => {
            let count = count_word(word(words, 1))?;
            Some(Item::Hint { count })
        }
        Keyword::Log => {
            let count = count_word(word(words, 1))?;
            Some(Item::Log { count })
        }
        Keyword::Clock => offset_item(words),
        Keyword::Slots => {
            let count = count_word(word(words, 1))?;
            Some(Item::Slots { count })
        }
        Keyword::Kind => {
            let kind = kind_word(word(words, 1))?;
            Some(Item::Kind { kind })
        }
        Keyword::Code => code_item(words),
        Keyword::Axis => axis_item(words),
        Keyword::Filter => None,
        Keyword::Eat => eat_item(words),
        Keyword::Norepeat => Some(Item::Filter {
            filter: Filter::Norepeat,
        }),
        Keyword::Chord => chord_item(words),
        Keyword::Bounce => bounce_item(words),
        Keyword::Source => actor_item(Role::Source, word(words, 1)),
        Keyword::Client => actor_item(Role::Client, word(words, 1)),
        Keyword::Tap => actor_item(Role::Tap, word(words, 1)),
        Keyword::Joy => actor_item(Role::Joy, word(words, 1)),
        Keyword::Owner => actor_item(Role::Owner, word(words, 1)),
        Keyword::Action => None,
    }
}

/// A device with this name, which is made by requests or is not.
fn device_item(requested: bool, word: &[u8]) -> Option<Item>
    ensures { result ≡ option_and_then (λ name. Some (Device requested name)) (name_word word.now) }
{
    let name = name_word(word)?;
    Some(Item::Device { requested, name })
}

/// An actor of this role, with this name.
fn actor_item(role: Role, word: &[u8]) -> Option<Item>
    ensures { result ≡ option_and_then (λ name. Some (Actor role name)) (name_word word.now) }
{
    let name = name_word(word)?;
    Some(Item::Actor { role, name })
}
