// A sink in memory.
ghost use Rattle.std.specs.Prelude.{◌≡◌, ◌+◌, ◌≤◌, ◌<◌, ◌↔◌, ◌⊎◌, ◌||◌, ◌==◌, [], ◌++◌, Some, None, min, take, length, IsTrue, IsErr, IfOk, OnErr};
ghost use Rattle.inp_edge.specs.Calls.{is_next_to_fail, calls_after, no_calls, in_piece};

use crate::calls::{Calls, Fails, in_piece};
use crate::fault::{Failed, NoMemory};
use crate::sink::Sink;
use std::alloc::Global;
use std::marker::Model;

/// A sink in memory, with room for so many bytes, some calls of which fail.
///
/// It tells contracts all: the bytes written, the room left, and its calls.
#[derive(Drop)]
pub struct MemSink {
    bytes: Vec<u8>,
    room: usize,
    calls: Calls,
    // How many bytes one write takes at most, where it takes pieces.
    piece: Option<u32>,
}

impl Model for MemSink {
    ghost use Rattle.std.specs.Prelude.{◌+◌, ◌≤◌, vec_len, vec_capacity};
    ghost use Rattle.inp_edge.specs.Calls.{IsPiece};
    ghost use Rattle.inp_edge.specs.MemSink.{MemorySink};

    ghost Value = { MemorySink };

    ghost view = { λ m. record {
      written = m.bytes.items;
      room = m.room;
      calls = m.calls;
      piece = m.piece;
    } };

    ghost invariant = { λ m. (vec_len m.bytes + m.room ≤ vec_capacity m.bytes)
        × IsPiece m.piece };
}

impl MemSink {
    /// An empty sink with room for so many bytes. The calls of these numbers fail, counted from 0.
    ///
    /// # Errors
    ///
    /// `NoMemory` where memory is short for the room.
    pub fn new(alloc: Global, room: usize, fails: Fails) -> Result<MemSink, NoMemory>
        ensures written { IfOk result (λ sink. sink.written ≡ []) }
        ensures room { IfOk result (λ sink. sink.room ≡ room) }
        ensures calls { IfOk result (λ sink. sink.calls ≡ no_calls fails) }
        ensures piece { IfOk result (λ sink. sink.piece ≡ None) }
    {
        let bytes = Vec::with_capacity(alloc, room)?;
        Ok(MemSink {
            bytes,
            room,
            calls: Calls::new(fails),
            piece: None,
        })
    }

    /// The same, but that one write takes at most so many bytes.
    ///
    /// # Errors
    ///
    /// `NoMemory` where memory is short for the room.
    pub fn in_pieces(
        alloc: Global,
        room: usize,
        fails: Fails,
        piece: u32,
    ) -> Result<MemSink, NoMemory>
        requires some { 1 ≤ piece }
        ensures written { IfOk result (λ sink. sink.written ≡ []) }
        ensures room { IfOk result (λ sink. sink.room ≡ room) }
        ensures calls { IfOk result (λ sink. sink.calls ≡ no_calls fails) }
        ensures piece { IfOk result (λ sink. sink.piece ≡ Some piece) }
    {
        let mut sink = MemSink::new(alloc, room, fails)?;
        sink.piece = Some(piece);
        Ok(sink)
    }

    /// The bytes that were written.
    pub fn bytes(&self) -> &[u8]
        ensures written { result.now ≡ self.now.written }
    {
        self.bytes.as_slice()
    }

    /// How many calls were at fault: those that were to fail, and those that found no room.
    pub fn faults(&self) -> u64
        ensures faults { result ≡ self.now.calls.faults }
    {
        self.calls.faults()
    }
}

impl Sink for MemSink {
    ghost written = { λ m. Some m.written };

    ghost faults = { λ m. m.calls.faults };

    /// Takes as many bytes as there are and as there is room for, or a piece of them where it takes pieces. Fails
    /// exactly at a call that is to fail, and where no room is left, both of which raise the count of faults.
    fn write(&mut self, buf: &[u8]) -> Result<usize, Failed>
        requires bytes { 0 < length buf.now }
        ensures calls { self.new.calls
            ≡ calls_after self.old.calls (is_next_to_fail self.old.calls || self.old.room == 0) }
        ensures never_falls { self.old.calls.faults ≤ self.new.calls.faults }
        ensures same_piece { self.new.piece ≡ self.old.piece }
        ensures count { IfOk result (λ n. n
            ≡ in_piece self.old.piece (min self.old.room (length buf.now))) }
        ensures some { IfOk result (λ n. 0 < n) }
        ensures fits { IfOk result (λ n. n ≤ length buf.now) }
        ensures written { IfOk result (λ n. self.new.written ≡ self.old.written ++ take n buf.now) }
        ensures room { IfOk result (λ n. self.new.room + n ≡ self.old.room) }
        ensures err_written { OnErr result (self.new.written ≡ self.old.written) }
        ensures err_room { OnErr result (self.new.room ≡ self.old.room) }
        ensures fails { IsErr result
            ↔ (IsTrue (is_next_to_fail self.old.calls) ⊎ (self.old.room ≡ 0)) }
    {
        let at_fault = self.calls.is_next_to_fail() || self.room == 0;
        self.calls.count(at_fault);
        if at_fault {
            return Err(Failed);
        }
        let count = in_piece(self.piece, self.room.min(buf.len()));
        self.bytes.extend_from_slice(&buf[..count]).unwrap();
        self.room -= count;
        Ok(count)
    }
}
