// The calls of an input or a sink in memory, some of which are to fail.
ghost use Rattle.std.specs.Prelude.{◌≡◌, ◌≤◌};
ghost use Rattle.inp_edge.specs.Calls.{is_next_to_fail, calls_after, no_calls, in_piece};

use crate::count::count_fault;
use crate::items::Items;
use std::marker::Model;

/// The numbers of the calls that are to fail, counted from 0. The greatest `u64`, at which the count of calls stays, is
/// no call's number.
pub type Fails = Items<u64>;

// Which calls are to fail, and how many were made and were at fault.
#[derive(Drop)]
pub(crate) struct Calls {
    fails: Fails,
    made: u64,
    faults: u64,
}

impl Model for Calls {
    ghost use Rattle.inp_edge.specs.Calls.{Calls as CallsMade};

    ghost Value = { CallsMade };

    ghost view = { λ c. record { fails = c.fails; made = c.made; faults = c.faults } };
}

impl Calls {
    pub(crate) fn new(fails: Fails) -> Calls
        ensures { result ≡ no_calls fails }
    {
        Calls {
            fails,
            made: 0,
            faults: 0,
        }
    }

    pub(crate) fn is_next_to_fail(&self) -> bool
        ensures { result ≡ is_next_to_fail self.now }
    {
        self.made < u64::MAX && self.fails.as_slice().contains(&self.made)
    }

    pub(crate) fn count(&mut self, at_fault: bool)
        ensures after { self.new ≡ calls_after self.old at_fault }
        ensures never_falls { self.old.faults ≤ self.new.faults }
    {
        self.made = self.made.saturating_add(1);
        count_fault(&mut self.faults, at_fault);
    }

    pub(crate) fn faults(&self) -> u64
        ensures { result ≡ self.now.faults }
    {
        self.faults
    }
}

// How many bytes a call moves that could move so many, where it moves at most a piece.
pub(crate) fn in_piece(piece: Option<u32>, count: usize) -> usize
    ensures { result ≡ in_piece piece count }
{
    match piece {
        Some(piece) => (piece as usize).min(count),
        None => count,
    }
}
