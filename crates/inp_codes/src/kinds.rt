//! The event types and their names.
ghost use Rattle.std.specs.Prelude.{◌≡◌, option_copied};
ghost use Rattle.inp_codes.specs.ByName.{AreRowsOf, GiveOwnNumbers};
ghost use Rattle.inp_codes.specs.ByNumber.{texts, names_by_number};
ghost use Rattle.inp_codes.specs.KindNames.{kind_entries, kind_name, kind_of};

use crate::by_name::{number_at, rows};
use crate::by_number::{name_at, names};

// The event types, by the names that the header has for them.
pub(crate) const EV_SYN: u16 = 0x00;

pub(crate) const EV_KEY: u16 = 0x01;

pub(crate) const EV_REL: u16 = 0x02;

pub(crate) const EV_ABS: u16 = 0x03;

pub(crate) const EV_MSC: u16 = 0x04;

pub(crate) const EV_SW: u16 = 0x05;

pub(crate) const EV_LED: u16 = 0x11;

pub(crate) const EV_SND: u16 = 0x12;

pub(crate) const EV_REP: u16 = 0x14;

/// The name of the event type `kind`, as `EV_KEY` for 1; `None` where the table has no such type.
///
/// Numbers and names are those of the kernel's header `input-event-codes.h`. One look at an index.
pub fn kind_name(kind: u16) -> Option<&'static str>
    ensures name { option_copied result ≡ kind_name kind }
{
    name_at(kind_names(), kind)
}

/// The event type whose name is `text`, as 1 for `EV_KEY`; `None` where the table has no such name.
///
/// The whole text is compared, byte by byte: case counts, and nothing is trimmed. One look at a slot.
pub fn kind_of(text: &str) -> Option<u16>
    ensures kind { result ≡ kind_of text.now }
{
    kind_named(text.as_bytes())
}

/// The same for bytes, which need not be text.
#[inline(always)]
pub fn kind_named(name: &[u8]) -> Option<u16>
    ensures kind { result ≡ kind_of name.now }
{
    number_at(kind_rows(), kind_slot(name), name)
}

/// The names of event types, at their numbers.
fn kind_names() -> &'static [&'static str]
    ensures { texts result.now ≡ names_by_number kind_entries }
{
    static NAMES: [&str; 21] = names![
        // 0x00
        EV_SYN EV_KEY EV_REL EV_ABS EV_MSC EV_SW
        // 0x06
        _ _ _ _ _ _ _ _ _ _ _
        // 0x11
        EV_LED EV_SND
        // 0x13
        _
        // 0x14
        EV_REP
    ];
    &NAMES
}

/// The slot of a type's name, made of its last two letters. Each type has one of its own. No answer rests on
/// that: see `number_at`.
#[inline(always)]
fn kind_slot(name: &[u8]) -> usize {
    match name {
        [.., before, last] => (usize::from(*before) * 27 + usize::from(*last) * 6) / 16 % 9,
        _ => 0,
    }
}

/// Each name with its event type, in the order of the slots of the names.
fn kind_rows() -> &'static [(&'static str, u16)]
    ensures numbers { AreRowsOf result.now kind_entries }
    ensures own { GiveOwnNumbers result.now }
{
    static ROWS: [(&str, u16); 9] = rows![
        EV_REL = EV_REL,
        EV_SW = EV_SW,
        EV_REP = EV_REP,
        EV_MSC = EV_MSC,
        EV_SND = EV_SND,
        EV_KEY = EV_KEY,
        EV_LED = EV_LED,
        EV_ABS = EV_ABS,
        EV_SYN = EV_SYN,
    ];
    &ROWS
}
