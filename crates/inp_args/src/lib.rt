//! The words on the program's command line.
//!
//! This crate is for the program's one call, which is handed its words. [`read_words`] reads them and gives a
//! [`Request`]: a file to play or to migrate, or a record to make from numbers. It depends on the toolchain's `clap`,
//! which says which words a command takes, and on `inp_actors` for names of files.
//!
//! | Word | Is |
//! |---|---|
//! | `--threads` | a flag: each source, client, tap and joystick does its lines on a thread of its own |
//! | `--history` | a flag: the history is wanted too |
//! | `--idle N` | on threads a `follow` ends after so many reads in a row that found nothing, 1 to 1,000,000,000, and 1,000,000 where it is not given |
//! | `--migrate` | a flag: the record in FILE is written in the newest version of its text, and not played |
//! | `--make NUMBER` | a record is made from this number, 0 to 4,294,967,295, and played |
//! | `--count COUNT` | of so many frames, 1 to 10,000, and 100 where it is not given |
//! | `FILE` | the record in this file is played |
//!
//! There is FILE, without `--make`, `--count` and `--migrate`; or `--migrate` and FILE, and nothing else; or `--make`,
//! without FILE, `--threads`, `--history` and `--migrate`. Numbers are as Rust reads a `u32`, and one that is not in
//! its range is refused also where it is not used. None of the words has a short form, and there is no `--help`.
//!
//! Its contract: `specs/Command.antt` is the command in `clap`'s own definitions, and `requested` of
//! `specs/Request.antt` says what words ask for. A request comes exactly where `requested` gives it, and `Usage`
//! exactly where it gives none, unless memory runs out. [`examples`] shows what some words ask for, among them doubled
//! flags, `--`, `-`, `--count=5` and numbers at their bounds.
#![tactic(auto)]

mod command;
pub mod examples;
mod number;
mod request;
mod usage_line;
mod words_fault;
mod words_parser;

pub use request::Request;
pub use usage_line::usage;
pub use words_fault::WordsFault;
pub use words_parser::read_words;
