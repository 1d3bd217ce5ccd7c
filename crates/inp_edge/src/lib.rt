//! The edge of the program: where its bytes come from, where they go, and a gate before a job's calls.
//!
//! What is above takes an [`Input`], a [`Sink`] and a [`Gate`], so that it can be proved of, and tested over, values in
//! memory, and run over real files. The crate depends on std alone. Its rules are this project's own.
//!
//! # Reading
//!
//! An [`Input`] has files, which it reads by name, one at a time: [`Input::begin`] goes to the start of one, and
//! [`Input::read`] takes the next bytes of it. [`read_all`] reads a whole file of at most [`INPUT_LIMIT`] bytes: it
//! gives all of it, answers `TooLong` exactly where more bytes were given, and answers no fault as anything else.
//!
//! - An input may tell contracts its files, and the bytes that are left. Where they are told, what is read is the
//!   file's bytes in order. No call changes the files, or what is told.
//! - How many bytes were given since the last `begin` is always told.
//! - A call answers [`Failed`] only where the input's count of faults rose, or where no file has the name that was
//!   asked for. Otherwise the count is as before, and the file is there.
//!
//! [`MemInput`] has its files in memory, and gives their bytes whole or in pieces. It tells all, fails exactly at the
//! calls that it was told to fail, and says exactly what each call reads. [`FileInput`] reads real files. Each of its
//! answers is the runtime's. The file begun is the one that the runtime opened, a read of it is one read by the
//! runtime, and each error is a fault (`begin_once`, `read_once`, `ReadsOnce`). No file is begun after an open that
//! failed, and the file stays begun after a read that failed.
//!
//! # Writing
//!
//! A [`Sink`] takes bytes. It may tell contracts what was written. [`write_all`] writes all of a text; where it fails,
//! what was written is a front part of it and not the whole. A call answers [`Failed`] only where the sink's count of
//! faults rose, and otherwise the count is as before. [`MemSink`] writes to memory, whole or in pieces, and tells all;
//! it says exactly which calls fail, and what each writes. [`OutSink`] writes to the standard output, by one call of
//! the runtime for each write, whose answer it hands on (`write_once`). An error is a fault, and so is a call that took
//! nothing.
//!
//! # The gate
//!
//! A job calls its [`Gate`] before each of its calls, so that a test can order jobs. After a call of [`Gate::before`]
//! what the gate means by `passed` holds of two numbers, the job's and the call's. Over a gate that is not known
//! nothing else shows it. [`OpenGate`] lets each through at once.
//!
//! # What is not said
//!
//! No clause of the runtime says that the file which it opens is the one of that name on the disk. Nor does one say
//! that its reads give the bytes of that file, or that what is written reaches the standard output. Tests over real
//! files and over a printer of their own show that `FileInput` and `OutSink` read and write at all.
#![tactic(auto)]

mod calls;
mod count;
mod fault;
mod file_input;
mod gate;
mod input;
mod items;
mod mem_file;
mod mem_input;
mod mem_sink;
mod out_sink;
mod sink;

pub use calls::Fails;
pub use fault::{Failed, NoMemory, ReadFault};
pub use file_input::FileInput;
pub use gate::{Gate, OpenGate};
pub use input::{INPUT_LIMIT, Input, read_all};
pub use items::Items;
pub use mem_file::{MemFile, MemFiles};
pub use mem_input::MemInput;
pub use mem_sink::MemSink;
pub use out_sink::OutSink;
pub use sink::{Sink, write_all};
