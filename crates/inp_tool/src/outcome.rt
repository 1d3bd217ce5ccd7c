//! What a call of the program found, before anything is written.
ghost use Rattle.std.specs.Prelude.{◌≡◌, IfOk, string_bytes};
ghost use Rattle.inp_tool.specs.Outcome.{text_of, refused_text};
ghost use Rattle.inp_tool.specs.Promise.{IsOutcomeOf};

use crate::no_record::NoRecord;
use crate::texts::{no_memory, too_long, unread};
use inp_args::usage;
use inp_model::NoMemory;
use inp_record::Refused;
use inp_script::Played;
use std::alloc::Global;

/// What a call of the program found, with the text that it is to write.
#[derive(Drop)]
pub enum Outcome {
    /// The words are not accepted.
    Usage,
    /// A file was not read.
    Unread,
    /// A file is too long.
    TooLong,
    /// The record has no meaning.
    Refused { refused: Refused, text: String },
    /// Memory ran out.
    NoMemory,
    /// A record was played.
    Played { played: Played, text: Vec<u8> },
    /// A record was upgraded.
    Migrated { text: Vec<u8> },
}

impl Outcome {
    /// The text that it writes.
    pub fn text(&self) -> &[u8]
        ensures text { result.now ≡ text_of self.now }
    {
        match self {
            Outcome::Usage => usage().as_bytes(),
            Outcome::Unread => unread().as_bytes(),
            Outcome::TooLong => too_long().as_bytes(),
            Outcome::NoMemory => no_memory().as_bytes(),
            Outcome::Refused { text, .. } => text.as_bytes(),
            Outcome::Played { text, .. } => text.as_slice(),
            Outcome::Migrated { text } => text.as_slice(),
        }
    }
}

/// What is found where there is no record.
pub(crate) fn without_record(alloc: Global, why: NoRecord) -> Outcome
    ensures cause { IsOutcomeOf why result }
{
    match why {
        NoRecord::Unread => Outcome::Unread,
        NoRecord::TooLong => Outcome::TooLong,
        NoRecord::NoMemory => Outcome::NoMemory,
        NoRecord::Refused(refused) => match refused_text(alloc, refused) {
            Ok(text) => Outcome::Refused { refused, text },
            Err(NoMemory) => Outcome::NoMemory,
        },
    }
}

/// The text that tells which line is refused, and why.
fn refused_text(alloc: Global, refused: Refused) -> Result<String, NoMemory>
    ensures text { IfOk result (λ text. string_bytes text ≡ refused_text refused) }
{
    let line = refused.line;
    let cause = refused.cause.text();
    Ok(format!(in alloc; "inputplay: line {line}: {cause}\n")?)
}
