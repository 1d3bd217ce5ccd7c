//! The texts that are made of a record, for C: its report, and the record in the newest version of its text.
ghost use Rattle.std.specs.Prelude.{◌≡◌, ◌≢◌, IfOk, Some};
ghost use Rattle.inp_record.specs.canon.Text.{record_text};
ghost use Rattle.inp_c.specs.declared.made.Made.TheVariants.{Report, Newest};
ghost use Rattle.inp_c.specs.Contents.{contents};
ghost use Rattle.inp_c.specs.MadeText.{has_history, in_newest, IsMadeStatus, IsReport, IsTextOf, IsToldMade};

use crate::handle::Handle;
use crate::kept::Kept;
use crate::made::Made;
use crate::status::{BAD_HANDLE, NO_MEMORY, OK};
use inp_actors::VERSION_MAX;
use inp_model::NoMemory;
use inp_play::play;
use inp_record::{Record, print};
use inp_report::whole_report;
use std::alloc::Global;

/// Plays a record on one thread, and keeps its report as its text: with the devices' histories, unless `history` is 0. The
/// record stays.
#[unsafe(no_mangle)]
pub extern "C" fn inputplay_record_play(
    alloc: Global,
    handle: &mut Handle,
    history: u32,
    len: &mut usize,
) -> u32
    ensures status { IsMadeStatus (contents handle.old) result }
    ensures made { result ≡ OK
        → IsToldMade (Report (has_history history)) (contents handle.old) (contents handle.new) len.new }
    ensures not_made { result ≢ OK → contents handle.new ≡ contents handle.old }
    ensures not_told { result ≢ OK → len.new ≡ len.old }
{
    let history = history != 0;
    keep_text(alloc, handle, Made::Report { history }, len)
}

/// Keeps the text of a record in the newest version as its text. The record stays.
#[unsafe(no_mangle)]
pub extern "C" fn inputplay_record_migrate(
    alloc: Global,
    handle: &mut Handle,
    len: &mut usize,
) -> u32
    ensures status { IsMadeStatus (contents handle.old) result }
    ensures made { result ≡ OK
        → IsToldMade Newest (contents handle.old) (contents handle.new) len.new }
    ensures not_made { result ≢ OK → contents handle.new ≡ contents handle.old }
    ensures not_told { result ≢ OK → len.new ≡ len.old }
{
    keep_text(alloc, handle, Made::Newest, len)
}

/// Makes a text of the record that a handle keeps, and keeps it as its text.
fn keep_text(alloc: Global, handle: &mut Handle, made: Made, len: &mut usize) -> u32
    ensures status { IsMadeStatus (contents handle.old) result }
    ensures made { result ≡ OK
        → IsToldMade made (contents handle.old) (contents handle.new) len.new }
    ensures not_made { result ≢ OK → contents handle.new ≡ contents handle.old }
    ensures not_told { result ≢ OK → len.new ≡ len.old }
{
    if handle.is_none() {
        return BAD_HANDLE;
    }
    let mut kept = handle.take(alloc);
    let status = keep_in(alloc, &mut kept, made, len);
    *handle = Handle::of(kept);
    status
}

/// Makes a text of what is kept, if it is a record, and keeps it as its text.
fn keep_in(alloc: Global, kept: &mut Kept, made: Made, len: &mut usize) -> u32
    ensures status { IsMadeStatus (Some kept.old) result }
    ensures made { result ≡ OK → IsToldMade made (Some kept.old) (Some kept.new) len.new }
    ensures not_made { result ≢ OK → kept.new ≡ kept.old }
    ensures not_told { result ≢ OK → len.new ≡ len.old }
{
    let Kept::Record(record) = kept else {
        return BAD_HANDLE;
    };
    match text_of(alloc, &mut record.recorded, made) {
        Ok(text) => {
            *len = text.len();
            record.text = text;
            OK
        }
        Err(NoMemory) => NO_MEMORY,
    }
}

/// A text that is made of a record. The record stays.
fn text_of(alloc: Global, recorded: &mut Record, made: Made) -> Result<Vec<u8>, NoMemory>
    ensures text { IfOk result (λ text. IsTextOf made recorded.old text.items) }
    ensures stays { recorded.new ≡ recorded.old }
{
    match made {
        Made::Report { history } => report_of(alloc, recorded, history),
        Made::Newest => migrated_text(alloc, recorded),
    }
}

/// The report of what comes of a record, which is played for it.
fn report_of(alloc: Global, recorded: &Record, history: bool) -> Result<Vec<u8>, NoMemory>
    ensures { IfOk result (λ text. IsReport recorded.now history text.items) }
{
    let played = play(alloc, recorded)?;
    whole_report(alloc, recorded, &played, history)
}

/// The text of a record in the newest version. The record stays.
fn migrated_text(alloc: Global, recorded: &mut Record) -> Result<Vec<u8>, NoMemory>
    ensures text { IfOk result (λ text. text.items ≡ record_text (in_newest recorded.old)) }
    ensures stays { recorded.new ≡ recorded.old }
{
    let version = recorded.version();
    recorded.set_version(VERSION_MAX);
    let text = print(alloc, recorded);
    recorded.set_version(version);
    text
}
