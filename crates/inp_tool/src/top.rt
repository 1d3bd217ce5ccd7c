//! The program's one call.
ghost use Rattle.std.specs.Prelude.{◌≡◌, ◌≤◌, ◌⊎◌, map, is_some, string_bytes, IfSome, Some};
ghost use Rattle.inp_args.specs.Request.{Arguments, requested};
ghost use Rattle.inp_tool.specs.Edge.{Reads, reads_of, writes_of};
ghost use Rattle.inp_tool.specs.Outcome.{played_status, end_of};
ghost use Rattle.inp_tool.specs.Promise.{HasCause, IsWrittenWhole, IsWrittenInPart, Promise, HidesNoFault};
ghost use Rattle.inp_tool.specs.Complete.{IsComplete};

use crate::End;
use crate::migration::migrated_text;
use crate::outcome::{Outcome, without_record};
use crate::plays::{has_full, make_and_play, play_and_report};
use crate::record_file::read_record;
use inp_args::{Request, WordsFault, read_words};
use inp_edge::{Failed, Gate, Input, Sink, write_all};
use inp_model::NoMemory;
use inp_script::{JoyRuns, OwnerRuns, Played, Runs};
use std::alloc::Global;
use std::sync::Wait;
use std::thread::Threads;

/// The status where the text could not be written whole.
const WRITE_FAULT: u8 = 4;

/// Reads the record that the words name, with the streams that it names, or makes the one that they ask for. Then it
/// plays it, and writes the report or the summary of what its actors saw and what they believe. A record is played on
/// one thread, its lines in file order. Where `--threads` is among the words, each source, client, tap, joystick and
/// owner is on a thread of its own. Where `--migrate` is among them nothing is played: what is written is the record's
/// canonical text in version 2.
///
/// On each device, however the threads interleave, every reply is the one-thread device's at its place in one kept
/// history. SYN_DROPPED is queued only at a full ring or a clock change. Let a SYN_REPORT be queued after a client's
/// last synchronisation, with nothing since lost, masked, filtered, grabbed away or described anew. Then the client's
/// reconstructed keys, switches, LEDs, axes and slots equal the device's at that frame's end.
///
/// The words are those after the program's name, as `inp_args` reads them. The gate is called on threads alone, before
/// each call that a job makes on its device. The statuses of `End` are tried in this order. First comes 2, where the
/// words are not accepted; then 3 or 7 for FILE, and 1 for its lines. Then, stream by stream, in line order, come 3 or
/// 7 for its file, and 1 for its bytes; and last 4, 6 and 0. The status 5 may come at any point before the text is
/// complete. Each outcome but these last writes a line of its own, and 4 comes where that cannot be written whole.
pub fn inputplay<R: Threads + Wait + Sync, I: Input, O: Sink, G: Gate>(
    rt: &R,
    alloc: Global,
    words: &[String],
    input: &mut I,
    out: &mut O,
    gate: &G,
) -> End
    // The status, its cause, what was written, and the result of the record.
    ensures promise { Promise (map string_bytes words.now)
        (reads_of I.files I.given I.left I.faults input.old input.new)
        (writes_of O.written O.faults out.old out.new)
        result }
    // Where a call was at fault the status says so.
    ensures no_fault_hidden { HidesNoFault (map string_bytes words.now)
        (reads_of I.files I.given I.left I.faults input.old input.new)
        (writes_of O.written O.faults out.old out.new)
        result }
    // Where nothing is at fault, the report, the summary or the migrated text is written, or memory ran out.
    ensures complete { IsComplete (map string_bytes words.now)
        (reads_of I.files I.given I.left I.faults input.old input.new)
        (writes_of O.written O.faults out.old out.new)
        result }
    // The objects that were handed in tell what they told before.
    ensures files_stay { I.files input.new ≡ I.files input.old }
    ensures input_stays_told { is_some (I.left input.new) ≡ is_some (I.left input.old) }
    ensures input_faults { I.faults input.old ≤ I.faults input.new }
    ensures out_faults { O.faults out.old ≤ O.faults out.new }
{
    let found = outcome_of(rt, alloc, words, input, gate);
    write_outcome(alloc, found, out)
}

/// What the words and the input lead to, before anything is written.
fn outcome_of<R: Threads + Wait + Sync, I: Input, G: Gate>(
    rt: &R,
    alloc: Global,
    words: &[String],
    input: &mut I,
    gate: &G,
) -> Outcome
    ensures cause { HasCause (map string_bytes words.now)
        (reads_of I.files I.given I.left I.faults input.old input.new) result }
    ensures files_stay { I.files input.new ≡ I.files input.old }
    ensures stays_told { is_some (I.left input.new) ≡ is_some (I.left input.old) }
    ensures never_falls { I.faults input.old ≤ I.faults input.new }
{
    match read_words(alloc, words) {
        Ok(
            Request::Play {
                file,
                history,
                idle,
            },
        ) => play_file(rt, alloc, input, file.text(), history, idle, gate),
        Ok(Request::Migrate { file }) => migrate_file(alloc, input, file.text()),
        Ok(Request::Make { number, count }) => play_made(alloc, number, count),
        Err(WordsFault::Usage) => Outcome::Usage,
        Err(WordsFault::NoMemory) => Outcome::NoMemory,
    }
}

/// What a file leads to.
fn play_file<R: Threads + Wait + Sync, I: Input, G: Gate>(
    rt: &R,
    alloc: Global,
    input: &mut I,
    file: &str,
    history: bool,
    idle: Option<u32>,
    gate: &G,
) -> Outcome
    requires bound { IfSome idle (λ most. 1 ≤ most) }
    ensures cause { (words : Arguments) → requested words ≡ Some (Request.Play file.now history idle)
        → HasCause words (reads_of I.files I.given I.left I.faults input.old input.new) result }
    ensures files_stay { I.files input.new ≡ I.files input.old }
    ensures stays_told { is_some (I.left input.new) ≡ is_some (I.left input.old) }
    ensures never_falls { I.faults input.old ≤ I.faults input.new }
{
    match read_record(alloc, input, file) {
        Ok(recorded) => match play_and_report(rt, alloc, &recorded, history, idle, gate) {
            Ok((played, text)) => Outcome::Played { played, text },
            Err(NoMemory) => Outcome::NoMemory,
        },
        Err(why) => without_record(alloc, why),
    }
}

/// What a file that is to be migrated leads to. Nothing is played.
fn migrate_file<I: Input>(alloc: Global, input: &mut I, file: &str) -> Outcome
    ensures cause { (words : Arguments) → requested words ≡ Some (Request.Migrate file.now)
        → HasCause words (reads_of I.files I.given I.left I.faults input.old input.new) result }
    ensures files_stay { I.files input.new ≡ I.files input.old }
    ensures stays_told { is_some (I.left input.new) ≡ is_some (I.left input.old) }
    ensures never_falls { I.faults input.old ≤ I.faults input.new }
{
    match read_record(alloc, input, file) {
        Ok(recorded) => match migrated_text(alloc, recorded) {
            Ok(text) => Outcome::Migrated { text },
            Err(NoMemory) => Outcome::NoMemory,
        },
        Err(why) => without_record(alloc, why),
    }
}

/// What two numbers lead to.
fn play_made(alloc: Global, number: u32, count: u32) -> Outcome
    requires few { count ≤ 10000 }
    ensures cause { (words : Arguments) (r : Reads) → requested words ≡ Some (Request.Make number count)
        → r.after ≡ r.before → HasCause words r result }
{
    match make_and_play(alloc, number, count) {
        Ok((played, text)) => Outcome::Played { played, text },
        Err(NoMemory) => Outcome::NoMemory,
    }
}

/// Writes the text of what was found, and tells its status, or 4 where the sink failed.
fn write_outcome<O: Sink>(alloc: Global, found: Outcome, out: &mut O) -> End
    ensures written { let w = writes_of O.written O.faults out.old out.new in
        IsWrittenWhole w found result ⊎ IsWrittenInPart w found result }
    ensures never_falls { O.faults out.old ≤ O.faults out.new }
{
    let written = write_all(out, found.text());
    let end = end_of(alloc, found);
    match written {
        Ok(()) => end,
        Err(Failed) => End {
            status: WRITE_FAULT,
            refused: None,
            runs: end.runs,
            joys: end.joys,
            owners: end.owners,
        },
    }
}

/// The status of what was found, with what goes with it.
fn end_of(alloc: Global, found: Outcome) -> End
    ensures end { result ≡ end_of found }
{
    let nothing = Played {
        runs: Runs::new(alloc),
        joys: JoyRuns::new(alloc),
        owners: OwnerRuns::new(alloc),
    };
    let (status, refused, played) = match found {
        Outcome::Played { played, .. } => (played_status(&played), None, played),
        Outcome::Migrated { .. } => (0, None, nothing),
        Outcome::Refused { refused, .. } => (1, Some(refused), nothing),
        Outcome::Usage => (2, None, nothing),
        Outcome::Unread => (3, None, nothing),
        Outcome::NoMemory => (5, None, nothing),
        Outcome::TooLong => (7, None, nothing),
    };
    End {
        status,
        refused,
        runs: played.runs,
        joys: played.joys,
        owners: played.owners,
    }
}

/// The status of the result of a record.
fn played_status(played: &Played) -> u8
    ensures { result ≡ played_status played.now }
{
    if has_full(played) { 6 } else { 0 }
}
