// A file in memory.
ghost use Rattle.std.specs.Prelude.{◌≡◌, string_bytes};

use crate::items::Items;
use std::marker::Model;

/// A file in memory, which contracts see as its name and its bytes.
#[derive(Drop)]
pub struct MemFile {
    name: String,
    bytes: Vec<u8>,
}

/// Files in memory. Where two have one name, the first is meant.
pub type MemFiles = Items<MemFile>;

impl Model for MemFile {
    ghost use Rattle.std.specs.Prelude.{string_bytes};
    ghost use Rattle.inp_edge.specs.File.{File};

    ghost Value = { File };

    ghost view = { λ f. record { name = string_bytes f.name; bytes = f.bytes.items } };
}

impl MemFile {
    /// A file of this name, with these bytes. It takes no memory.
    pub fn new(name: String, bytes: Vec<u8>) -> MemFile
        ensures name { result.name ≡ string_bytes name }
        ensures bytes { result.bytes ≡ bytes.items }
    {
        MemFile { name, bytes }
    }

    /// The file's name.
    pub fn name(&self) -> &str
        ensures name { result.now ≡ self.now.name }
    {
        self.name.as_str()
    }

    /// The file's bytes.
    pub fn bytes(&self) -> &[u8]
        ensures bytes { result.now ≡ self.now.bytes }
    {
        self.bytes.as_slice()
    }
}
