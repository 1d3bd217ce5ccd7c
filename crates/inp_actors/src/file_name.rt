//! Names of files.
ghost use Rattle.std.specs.Prelude.{◌≡◌, string_bytes};

use std::marker::Model;

/// The name of a file, as a record writes it: any word. Contracts see it as its bytes.
#[derive(Debug, Drop)]
pub struct FileName {
    text: String,
}

impl Model for FileName {
    ghost use Rattle.std.specs.Prelude.{List, ℕ, string_bytes};

    ghost Value = { List ℕ };

    ghost view = { λ file. string_bytes file.text };
}

impl FileName {
    /// The file of this name. It takes no memory.
    pub fn new(text: String) -> FileName
        ensures bytes { result ≡ string_bytes text }
    {
        FileName { text }
    }

    /// The name as text.
    pub fn text(&self) -> &str
        ensures text { result.now ≡ self.now }
    {
        self.text.as_str()
    }
}
