//! A code of a type of events, as it is written.
ghost use Rattle.std.specs.Prelude.{◌≡◌, ◌++◌, OnOk};
ghost use Rattle.inp_model.specs.declared.event.TheConstants.{EV_KEY, EV_ABS};
ghost use Rattle.inp_texts.specs.Texts.{code_text};

use crate::numbers::push_number;
use crate::page::Page;
use inp_codes::name_of;
use inp_model::{EV_ABS, EV_KEY, NoMemory};
use std::fmt;
use std::fmt::Write;

/// Writes a code of a type: by its name in the kernel's input event codes, as `KEY_A`, or in decimal where `inp_codes` has
/// none.
#[derive(Drop)]
pub struct CodeText {
    /// The type.
    pub kind: u16,
    /// The code.
    pub code: u16,
}

impl CodeText {
    /// The text of an axis.
    pub fn of_axis(code: u16) -> CodeText
        ensures axis { result ≡ record { kind = EV_ABS; code = code } }
    {
        CodeText { kind: EV_ABS, code }
    }

    /// The text of a key.
    pub fn of_key(code: u16) -> CodeText
        ensures key { result ≡ record { kind = EV_KEY; code = code } }
    {
        CodeText { kind: EV_KEY, code }
    }
}

impl fmt::Display for CodeText {
    ghost use Rattle.std.specs.Prelude.{Some};
    ghost use Rattle.inp_texts.specs.Texts.{code_text};

    ghost output = { λ shown. Some (code_text shown.kind shown.code) };

    #[tactic(auto, unfolding(crate::specs::Texts::code_text))]
    fn fmt<W: fmt::Write>(&self, f: &mut fmt::Formatter<W>) -> fmt::Result {
        let code = self.code;
        match name_of(self.kind, code) {
            Some(name) => f.write_str(name),
            None => write!(f, "{code}"),
        }
    }
}

/// Appends what [`CodeText`] writes of a code of a type, by one copy.
///
/// # Errors
///
/// `NoMemory` where there is none for the text.
#[tactic(auto, unfolding(crate::specs::Texts::code_text))]
pub fn push_code(text: &mut Page, kind: u16, code: u16) -> Result<(), NoMemory>
    ensures pushed { OnOk result
        (text.new ≡ text.old ++ code_text kind code) }
{
    match name_of(kind, code) {
        Some(name) => Ok(text.push_str(name)?),
        None => push_number(text, u64::from(code)),
    }
}
