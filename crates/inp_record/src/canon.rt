//! The canonical text of a record.

mod commands;
mod devices;
mod info_text;
mod text;

pub use text::print;
