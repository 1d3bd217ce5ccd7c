//! Names of devices and actors.
ghost use Rattle.std.specs.Prelude.{◌≡◌};
ghost use Rattle.inp_actors.specs.Name.{IsName, is_name};

use std::marker::Model;

/// The greatest length of a name (this project's choice).
pub const NAME_MAX: usize = 32;

const _: () = prove!(NAME_MAX == 4 * 8);

/// The name of a device or an actor: 1 to 32 characters of `a` to `z`, `0` to `9`, `_` and `-` (this project's choice).
/// Contracts see it as its bytes.
#[derive(Drop)]
pub struct Name {
    bytes: [u8; NAME_MAX],
    len: usize,
}

impl Model for Name {
    ghost use Rattle.std.specs.Prelude.{ℕ, ◌≤◌, List, take};
    ghost use Rattle.inp_actors.specs.Name.{IsName};

    ghost Value = { List ℕ };

    ghost view = { λ name. take name.len name.bytes };

    ghost invariant = { λ name. (name.len ≤ 32) × IsName (take name.len name.bytes) };
}

impl Name {
    /// The name of these bytes, which are a name. It takes no memory.
    pub fn new(text: &[u8]) -> Name
        requires name { IsName text.now }
        ensures bytes { result ≡ text.now }
    {
        let mut bytes = [0; NAME_MAX];
        bytes[..text.len()].copy_from_slice(text);
        Name {
            bytes,
            len: text.len(),
        }
    }

    /// The name as text.
    pub fn as_str(&self) -> &str
        ensures text { result.now ≡ self.now }
    {
        str::from_utf8(self.bytes()).unwrap()
    }

    /// The bytes of the name.
    pub fn bytes(&self) -> &[u8]
        ensures bytes { result.now ≡ self.now }
        ensures name { IsName self.now }
    {
        &self.bytes[..self.len]
    }
}

/// Whether a word is a name.
pub fn is_name(word: &[u8]) -> bool
    ensures name { result ≡ is_name word.now }
{
    (1..=NAME_MAX).contains(&word.len())
        && word.iter().all(|byte| matches!(*byte, b'a'..=b'z' | b'0'..=b'9' | b'_' | b'-'))
}
