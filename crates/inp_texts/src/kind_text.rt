//! A type of events, as it is written.
ghost use Rattle.std.specs.Prelude.{◌≡◌, ◌++◌, OnOk};
ghost use Rattle.inp_texts.specs.Texts.{kind_text};

use crate::numbers::push_number;
use crate::page::Page;
use inp_codes::kind_name;
use inp_model::NoMemory;
use std::fmt;
use std::fmt::Write;

/// Writes a type of events: by its name in the kernel's input event codes, as `EV_KEY`, or in decimal where `inp_codes` has
/// none.
#[derive(Drop)]
pub struct KindText(pub u16);

impl fmt::Display for KindText {
    ghost use Rattle.std.specs.Prelude.{Some};
    ghost use Rattle.inp_texts.specs.Texts.{kind_text};

    ghost output = { λ shown. Some (kind_text shown.0) };

    #[tactic(auto, unfolding(crate::specs::Texts::kind_text))]
    fn fmt<W: fmt::Write>(&self, f: &mut fmt::Formatter<W>) -> fmt::Result {
        let kind = self.0;
        match kind_name(kind) {
            Some(name) => f.write_str(name),
            None => write!(f, "{kind}"),
        }
    }
}

/// Appends what [`KindText`] writes, by one copy.
///
/// # Errors
///
/// `NoMemory` where there is none for the text.
#[tactic(auto, unfolding(crate::specs::Texts::kind_text))]
pub fn push_kind(text: &mut Page, kind: u16) -> Result<(), NoMemory>
    ensures pushed { OnOk result
        (text.new ≡ text.old ++ kind_text kind) }
{
    match kind_name(kind) {
        Some(name) => Ok(text.push_str(name)?),
        None => push_number(text, u64::from(kind)),
    }
}
