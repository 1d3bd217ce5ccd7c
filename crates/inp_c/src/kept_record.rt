//! A record, as a handle keeps it.
use inp_record::Record;

/// A record, of each of its streams whether its bytes were given, and its text.
#[derive(Drop)]
pub struct KeptRecord {
    /// The record.
    pub recorded: Record,
    /// Whether the bytes of each stream were given, in line order.
    pub loaded: Vec<bool>,
    /// The text that was made of it last: its report, or the record in the newest version. It is empty at first.
    pub text: Vec<u8>,
}
