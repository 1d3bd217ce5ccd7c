//! The program's one call: from words and files to the report of a record's result.
//!
//! This crate is for the program and for tests: [`inputplay`] is the program's one call. It depends on `inp_edge`
//! (input, sink and gate), `inp_args` (words), `inp_record` (a record's text and its streams), and `inp_make` (records
//! that are made from numbers). It also depends on `inp_play` (playing on one thread), `inp_threads` (playing on
//! threads), and `inp_report` (the report, that of joysticks and the summary). [`make`] and [`play`] are handed on.
//! [`upgrade::upgrade`] gives a record the newest version of its text.
//!
//! How a call goes: `read_words` says what the words ask for. For a file, `read_record` reads it, and then the files of
//! its stream lines, in line order (`record_file.rt`); for numbers, the record is made. The record is played and its
//! report written to memory (`plays.rt`). Where it is to be migrated it is upgraded instead (`upgrade.rt`), its own
//! text is written to memory (`migration.rt`), and nothing is played. What was found so far is an `Outcome`
//! (`outcome.rt`), which `write_outcome` tells to the sink.
//!
//! What the call promises stands in `specs`, as clauses of [`inputplay`] itself:
//!
//! - `Promise` (`specs/Promise.antt`): each outcome has its cause (`HasCause`), and its text was written, or a front
//!   part of it with status 4. Words that are not accepted leave the input untouched. With status 0 or 6 a file was
//!   read with its streams, each whole where the input tells its bytes, and is this record (`HasRecord` of
//!   `specs/RecordFile.antt`). Or the words ask for a record that is made, and nothing was read. Each device has one
//!   history, on which each job's replies are the one-thread device's. Each sight follows its lines, a joystick's too,
//!   on one thread and on threads (`ArePromised` of `inp_runs`). On one thread the result is that of the lines done in
//!   file order (`IsPlay`). The text is the report of the devices with that of the joysticks after it, or the summary.
//!   Of these two statuses 6 comes exactly where a job stopped since a history was full. Where the words ask for the
//!   record to be migrated, it was read so too. The text is then its canonical text in version 2, which means the same
//!   record, and there are no runs (`IsAnswerTo`). With status 1 the line and the cause are the first that the text
//!   alone decides, else those of the first stream that is at fault.
//! - `HidesNoFault`: a fault of the input ends in status 3, or in 4 where that text is cut off, one of the sink in 4,
//!   and neither in another. A file that is not there, and one that is too long, are told by the status too.
//! - `IsComplete` (`specs/Complete.antt`): where no fault comes and memory does not run out, a file that is there with
//!   its streams and is a record leads to the whole report. Numbers to make a record of lead to the whole summary. The
//!   status of a whole text is 6 exactly where a job stopped since a history was full, and else 0. A record that is
//!   made never fills a history: it ends with status 0. A record that is to be migrated leads to its text in version 2
//!   with status 0, or to want of memory.
//!
//! [`examples::examples_of_views`] is about a record that was worked out by hand (`specs/Views.antt`). It shows at
//! which of its reports the promise on views speaks, and what its clients' views and the device show there.
//!
//! Not said is whether the gate is called where no thread is asked for. It is not; a test looks on one thread. Nor is
//! it said that jobs on threads run side by side; another test looks. With threads the call may wait, and then nothing
//! says that it returns.
#![tactic(auto)]

mod end;
pub mod examples;
mod migration;
mod no_record;
mod outcome;
mod plays;
mod record_file;
mod texts;
mod top;
pub mod upgrade;

pub use end::End;
pub use inp_make::make;
pub use inp_play::play;
pub use top::inputplay;
