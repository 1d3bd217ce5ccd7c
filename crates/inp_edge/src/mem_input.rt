// An input in memory.
ghost use Rattle.std.specs.Prelude.{◌≡◌, ◌+◌, ◌≤◌, ◌<◌, ◌↔◌, ◌⊎◌, [], Some, None, min, take, drop, length, IsTrue, IsErr, IfOk, OnOk, OnErr, IfSome, MatchOption};
ghost use Rattle.inp_edge.specs.Calls.{is_next_to_fail, calls_after, no_calls, in_piece};
ghost use Rattle.inp_edge.specs.Count.{LAST};
ghost use Rattle.inp_edge.specs.File.{bytes_of};
ghost use Rattle.inp_edge.specs.MemInput.{bytes_at};

use crate::calls::{Calls, Fails, in_piece};
use crate::fault::Failed;
use crate::input::Input;
use crate::mem_file::{MemFile, MemFiles};
use std::marker::Model;

/// An input in memory, some calls of which fail.
///
/// It tells contracts all: its files, the bytes left, and its calls.
#[derive(Drop)]
pub struct MemInput {
    files: MemFiles,
    calls: Calls,
    // The index of the file begun.
    begun: Option<usize>,
    // How many of its bytes are left.
    remaining: usize,
    given: u64,
    // How many bytes one read gives at most, where it gives pieces.
    piece: Option<u32>,
}

impl Model for MemInput {
    ghost use Rattle.std.specs.Prelude.{◌≤◌, length};
    ghost use Rattle.inp_edge.specs.Calls.{IsPiece};
    ghost use Rattle.inp_edge.specs.MemInput.{MemoryInput, bytes_at, last_of, IsPlaceIn};

    ghost Value = { MemoryInput };

    ghost view = { λ m. record {
      files = m.files;
      left = last_of (bytes_at m.files m.begun) m.remaining;
      given = m.given;
      calls = m.calls;
      piece = m.piece;
    } };

    ghost invariant = { λ m. IsPlaceIn m.files m.begun
        × (m.remaining ≤ length (bytes_at m.files m.begun))
        × IsPiece m.piece };
}

impl MemInput {
    /// An input of these files, at none of them yet. The calls of these numbers fail, counted from 0 over `begin` and
    /// `read`. It takes no memory.
    pub fn new(files: MemFiles, fails: Fails) -> MemInput
        ensures files { result.files ≡ files }
        ensures left { result.left ≡ [] }
        ensures given { result.given ≡ 0 }
        ensures calls { result.calls ≡ no_calls fails }
        ensures piece { result.piece ≡ None }
    {
        MemInput {
            files,
            calls: Calls::new(fails),
            begun: None,
            remaining: 0,
            given: 0,
            piece: None,
        }
    }

    /// The same, but that one read gives at most so many bytes.
    pub fn in_pieces(files: MemFiles, fails: Fails, piece: u32) -> MemInput
        requires some { 1 ≤ piece }
        ensures files { result.files ≡ files }
        ensures left { result.left ≡ [] }
        ensures given { result.given ≡ 0 }
        ensures calls { result.calls ≡ no_calls fails }
        ensures piece { result.piece ≡ Some piece }
    {
        let mut input = MemInput::new(files, fails);
        input.piece = Some(piece);
        input
    }

    /// How many calls were at fault: those that were to fail.
    pub fn faults(&self) -> u64
        ensures faults { result ≡ self.now.calls.faults }
    {
        self.calls.faults()
    }

    // The bytes left of the file begun.
    fn left(&self) -> &[u8]
        ensures { result.now ≡ self.now.left }
    {
        match self.begun {
            Some(i) => {
                let bytes = self.files.get(i).bytes();
                bytes.split_at(bytes.len() - self.remaining).1
            }
            None => &[],
        }
    }
}

impl Input for MemInput {
    ghost files = { λ m. Some m.files };

    ghost left = { λ m. Some m.left };

    ghost given = { λ m. m.given };

    ghost faults = { λ m. m.calls.faults };

    /// Fails exactly at a call that is to fail, and where no file has this name. The latter raises no count of faults.
    fn begin(&mut self, name: &str) -> Result<(), Failed>
        ensures same_files { self.new.files ≡ self.old.files }
        ensures same_piece { self.new.piece ≡ self.old.piece }
        ensures calls { self.new.calls
            ≡ calls_after self.old.calls (is_next_to_fail self.old.calls) }
        ensures never_falls { self.old.calls.faults ≤ self.new.calls.faults }
        ensures given { self.new.given ≡ 0 }
        ensures ok { OnOk result (bytes_of self.old.files name.now ≡ Some self.new.left) }
        ensures err { OnErr result (self.new.left ≡ []) }
        ensures fails { IsErr result
            ↔ (IsTrue (is_next_to_fail self.old.calls)
            ⊎ (bytes_of self.old.files name.now ≡ None)) }
    {
        let at_fault = self.calls.is_next_to_fail();
        self.calls.count(at_fault);
        self.given = 0;
        self.remaining = 0;
        self.begun = None;
        if at_fault {
            return Err(Failed);
        }
        let i = index_of(self.files.as_slice(), name).ok_or(Failed)?;
        self.begun = Some(i);
        self.remaining = self.files.get(i).bytes().len();
        Ok(())
    }

    /// Gives as many bytes as are left and go into `buf`, or a piece of them where it gives pieces. Fails exactly at a
    /// call that is to fail.
    fn read(&mut self, buf: &mut [u8]) -> Result<usize, Failed>
        requires room { 0 < length buf.old }
        ensures same_files { self.new.files ≡ self.old.files }
        ensures same_piece { self.new.piece ≡ self.old.piece }
        ensures calls { self.new.calls
            ≡ calls_after self.old.calls (is_next_to_fail self.old.calls) }
        ensures never_falls { self.old.calls.faults ≤ self.new.calls.faults }
        ensures count { IfOk result (λ n. n
            ≡ in_piece self.old.piece (min (length self.old.left) (length buf.old))) }
        ensures fits { IfOk result (λ n. n ≤ length buf.new) }
        ensures end { IfOk result (λ n. n ≡ 0 → self.new.left ≡ []) }
        ensures front { IfOk result (λ n. take n buf.new ≡ take n self.old.left) }
        ensures rest { IfOk result (λ n. self.new.left ≡ drop n self.old.left) }
        ensures given { IfOk result (λ n. self.new.given ≡ min (self.old.given + n) LAST) }
        ensures err_left { OnErr result (self.new.left ≡ self.old.left) }
        ensures err_given { OnErr result (self.new.given ≡ self.old.given) }
        ensures fails { IsErr result ↔ IsTrue (is_next_to_fail self.old.calls) }
    {
        let at_fault = self.calls.is_next_to_fail();
        self.calls.count(at_fault);
        if at_fault {
            return Err(Failed);
        }
        let count = copy_front(self.left(), buf, self.piece);
        self.remaining -= count;
        self.given = self.given.saturating_add(count as u64);
        Ok(count)
    }
}

// The index of the first file of this name.
fn index_of(files: &[MemFile], name: &str) -> Option<usize>
    ensures within { IfSome result (λ i. i < length files.now) }
    ensures file { MatchOption result (bytes_of files.now name.now ≡ None)
        (λ i. bytes_of files.now name.now ≡ Some (bytes_at files.now (Some i))) }
{
    for (i, file) in files.iter().enumerate() {
        if file.name() == name {
            return Some(i);
        }
    }
    None
}

// Copies bytes from the front of one slice to the front of another, as many as go or a piece of them, and answers how
// many.
fn copy_front(from: &[u8], to: &mut [u8], piece: Option<u32>) -> usize
    ensures count { result ≡ in_piece piece (min (length from.now) (length to.old)) }
    ensures copied { take result to.new ≡ take result from.now }
{
    let count = in_piece(piece, from.len().min(to.len()));
    to[..count].copy_from_slice(&from[..count]);
    count
}
