//! The calls that a reader made, as a list.
ghost use Rattle.std.specs.Prelude.{◌≡◌, ◌≤◌, ◌<◌, ◌+◌, [], ◌∷◌, ◌++◌, length, IfOk};

use crate::CallMade;
use inp_model::NoMemory;
use std::alloc::Global;
use std::marker::Model;

/// The calls that were made, in order, with room for `ROOM` of them, which stays. A contract sees the list.
#[derive(Drop)]
pub struct CallsMade<const ROOM: usize> {
    calls: Vec<CallMade>,
}

impl<const ROOM: usize> Model for CallsMade<ROOM> {
    ghost use Rattle.std.specs.Prelude.{List, ◌≤◌, vec_capacity};
    ghost use Rattle.inp_reader.specs.declared.call_made.CallMade.{CallMade};

    ghost Value = { List CallMade };

    ghost view = { λ made. made.calls.items };

    ghost invariant = { λ made. ROOM ≤ vec_capacity made.calls };
}

impl<const ROOM: usize> CallsMade<ROOM> {
    /// No call. It takes all memory that it will need. `NoMemory` comes where memory is short.
    pub fn new(alloc: Global) -> Result<CallsMade<ROOM>, NoMemory>
        ensures none { IfOk result (λ made. made ≡ []) }
    {
        let calls = Vec::with_capacity(alloc, ROOM)?;
        Ok(CallsMade { calls })
    }

    /// Forgets all calls.
    pub fn clear(&mut self)
        ensures none { self.new ≡ [] }
    {
        self.calls.clear();
    }

    /// Adds a call. There must be room for it.
    pub fn push(&mut self, call: CallMade)
        requires room { length self.old < ROOM }
        ensures pushed { self.new ≡ self.old ++ call ∷ [] }
    {
        self.calls.push(call).unwrap();
    }

    /// Adds calls, in order. There must be room for all.
    pub fn add_all(&mut self, calls: &[CallMade])
        requires room { length self.old + length calls.now ≤ ROOM }
        ensures added { self.new ≡ self.old ++ calls.now }
    {
        for call in calls {
            self.push(*call);
        }
    }

    /// How many calls there are.
    pub fn len(&self) -> usize
        ensures length { result ≡ length self.now }
    {
        self.calls.len()
    }

    /// The calls, in order.
    pub fn as_slice(&self) -> &[CallMade]
        ensures calls { result.now ≡ self.now }
    {
        &self.calls
    }
}
