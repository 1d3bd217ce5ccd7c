//! The codes of event types and their names.
ghost use Rattle.std.specs.Prelude.{◌≡◌, slice_index_or, option_copied};
ghost use Rattle.std.specs.Char.{is_ascii_uppercase};
ghost use Rattle.inp_codes.specs.ByNumber.{texts, names_by_number};
ghost use Rattle.inp_codes.specs.CodeNames.{name_of, code_of, codes_of_kind};

mod keys;
mod names;
mod rows;
mod slots;

use crate::by_name::number_at;
use crate::by_number::name_at;
use crate::kinds::{EV_ABS, EV_KEY, EV_LED, EV_MSC, EV_REL, EV_REP, EV_SND, EV_SW, EV_SYN};
use keys::key_names;
use names::{
    abs_names, led_names, msc_names, rel_names, rep_names, snd_names, sw_names, syn_names,
};
use rows::code_rows;
use slots::name_slot;

/// The name of the code `code` of the event type `kind`, as `KEY_F12` for 1 and 88; `None` where the table has no such
/// code.
///
/// Numbers and names are those of the kernel's header `input-event-codes.h`, one name for each code: which of several
/// the table has is this project's choice. One look at an index.
pub fn name_of(kind: u16, code: u16) -> Option<&'static str>
    ensures name { option_copied result ≡ name_of kind code }
{
    name_at(code_names(kind), code)
}

/// The event type and the code whose name is `text`, as 1 and 88 for `KEY_F12`; `None` where the table has no such
/// name. The name of an event type, as `EV_KEY`, is no code's: see `kind_of`.
///
/// The whole text is compared, byte by byte: case counts, and nothing is trimmed. One look at a slot.
pub fn code_of(text: &str) -> Option<(u16, u16)>
    ensures code { result ≡ code_of text.now }
{
    code_named(text.as_bytes())
}

/// The same for bytes, which need not be text.
#[inline(always)]
pub fn code_named(name: &[u8]) -> Option<(u16, u16)>
    ensures code { result ≡ code_of name.now }
{
    if begins_name(name) {
        number_at(code_rows(), name_slot(name), name)
    } else {
        None
    }
}

/// Whether the first byte is an upper-case letter, as that of each name. A number is no name at one look.
#[inline(always)]
fn begins_name(word: &[u8]) -> bool
    ensures { result ≡ is_ascii_uppercase (slice_index_or word.now 0 0) }
{
    match word {
        [first, ..] => first.is_ascii_uppercase(),
        [] => false,
    }
}

/// The names of the codes of `kind`, at their codes.
#[tactic(auto, unfolding(crate::specs::CodeNames::codes_in, crate::specs::CodeNames::kinds_with_codes, crate::specs::ByNumber::names_from))]
fn code_names(kind: u16) -> &'static [&'static str]
    ensures { texts result.now ≡ names_by_number (codes_of_kind kind) }
{
    match kind {
        EV_SYN => syn_names(),
        EV_KEY => key_names(),
        EV_REL => rel_names(),
        EV_ABS => abs_names(),
        EV_MSC => msc_names(),
        EV_SW => sw_names(),
        EV_LED => led_names(),
        EV_SND => snd_names(),
        EV_REP => rep_names(),
        _ => &[],
    }
}
