//! The text of a recorded device: read, written, and given the events of its files.
//!
//! This crate is for whoever has a record as bytes and wants it as data, or the other way round. [`parse`] reads a
//! record, or names the first line that has no meaning and its [`Cause`]. [`print`] writes one, and [`load`] gives it
//! the events of a file. The record itself is plain data of `inp_actors`, handed on here. `docs/FORMATS.md` has the whole
//! form, with an example of each line.
//!
//! How a line is read: [`parse`] cuts the text into lines and lends each to `read_line`, with the `Context` that the
//! lines before it left. That is where the line stands, what the latest device gave, and which actors there are. Most
//! lines are events of sources, which `read_event` takes in at once. Of any other line `item_of_words` says what its
//! words are, an `Item`. Then the context says whether that was said before, is one too many, or is refused by the
//! description, and else takes it in.
//!
//! Its contract: `meaning` of `specs/Meaning.antt` says what bytes mean, and [`parse`] gives just that, unless memory
//! ran out (`IsParsing`). What came before a line is the list of the items before it, a past. What the line depends on
//! is a fold over that list, with what each kind of line changes (`specs/ItemsBefore.antt`). The causes stand in
//! `specs/Meaning.antt` as one chain in their order, and what the words of each line are in `specs/Line.antt` and
//! `specs/Action.antt`, a row for each. `specs/Spelling.antt` says what the lines of the canonical text mean. It also
//! says that the text of each record that some bytes are is read again as that record, which [`print`] promises
//! (`RoundTrips`). So [`parse`] gives the record of a printed text, or want of memory.
//!
//! [`load`] (`IsLoaded`): the stream of a line is the records of the bytes, of 24 bytes for `stream` and of 16 for
//! `stream16`. It is refused as no stream only where they are no whole records or the time of one is no time, and
//! loaded only where they are records. Memory may run out at both, and the record is unchanged after a refusal.
//! [`line_number`] is the number of an action line in its text.
//!
//! [`print`] gives exactly the bytes that `specs/canon/Text.antt` defines of the record, or want of memory. The
//! definitions are lists of lines, and lines are lists of words, so that a reader can be held against them. It takes time
//! in proportion to the text, and for each device that of a look at each type and code; no clause says so.
//! [`text_examples`](examples::text_examples) shows what they say of a few records.
//!
//! [`examples`] shows what the definitions say of short records. It has each cause at each line that can have it, of
//! two causes that one line has the one that comes first, and what whole records mean.
#![tactic(auto)]

mod canon;
mod cause;
mod command_parser;
mod context;
pub mod examples;
mod item;
mod item_parser;
mod keyword;
mod line_fault;
mod line_numbers;
mod line_parser;
mod loader;
mod parser;
mod place;
mod refused;
mod verb;

pub use canon::print;
pub use cause::Cause;
pub use inp_actors::{
    ActorText, Actors, Command, DeviceText, Devices, FileName, Line, Lines, Name, Record, Role,
    Stamps, Streams,
};
pub use line_numbers::line_number;
pub use loader::load;
pub use parser::parse;
pub use refused::{LoadFault, ParseFault, Refused};
