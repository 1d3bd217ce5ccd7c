//! A value that several passes use in turns.
ghost use Rattle.std.specs.Prelude.{◌≡◌, ◌<◌, ◌+◌, ◌≤◌, IfOk, IfErr, IfSome, IfNone, true, false, Some, length};
ghost use mathlib.Core.List.{IsPrefix};
ghost use Rattle.inp_turn.specs.PassView.{whole_share, first_pass_view, view_after_split, split_off_view, view_after_take, view_after_give, view_after_join, AreApart, IsEachAddedOnce};

use crate::held::Held;
use crate::kept::Kept;
use crate::no_memory::NoMemory;
use crate::pass::Pass;
use crate::plays::{Meet, Part, Release, Try, Unite};
use crate::rule::{TurnSeat, TurnTable};
use atomic_table::{Refused, Table};
use std::alloc::Global;
use std::snapshot::Snapshot;
use std::sync::Wait;
use std::thread::yield_now;

/// How often a thread yields the processor between two tries for the turn, at most (this project's choice).
///
/// A thread that tries again and again takes the cache line of the turn from the thread that has it, and costs it more
/// than the wait gains. So a rest grows from one yield to this many.
const MOST_RESTS: u32 = 64;

/// A kept value that several passes use, one at a time. Threads share it by reference.
///
/// A contract sees the value as it came in (`start_of` in `specs/Shared.antt`), which passes are its own (`IsPassOf`),
/// and what tells it from other shared values (`shared_id`).
#[derive(Drop)]
pub struct Shared<S: Kept> {
    table: TurnTable<S>,
    ghost one_word: { table.shared.table_id.words ≡ 1 },
    ghost one_slot: { table.shared.table_id.slots ≡ 1 },
}

impl<S: Kept> Shared<S> {
    ghost use Rattle.inp_turn.specs.Pass.{view_of, has_turn, TakesTurn};
    ghost use Rattle.inp_turn.specs.Shared.{IsPassOf, start_of};
    ghost use Rattle.inp_turn.specs.Steps.{ClosesWith};

    /// Shares a value, and makes the first pass. It has the whole share, has seen all entries and owns none.
    ///
    /// It is refused for memory alone, and the value then comes back. This is the one call that takes memory.
    pub fn new(alloc: Global, state: S) -> Result<(Shared<S>, Pass<S>), (S, NoMemory)>
        ensures start { IfOk result (λ r. start_of r.0 ≡ state) }
        ensures pass { IfOk result (λ r. IsPassOf r.0 r.1 × (has_turn r.1 ≡ false)) }
        ensures view { IfOk result
            (λ r. view_of r.1 ≡ first_pass_view (S.base state) (S.entries state)) }
        ensures back { IfErr result (λ r. r.0 ≡ state) }
    {
        let Ok(mut slots) = Vec::with_capacity(alloc, 1) else {
            return Err((state, NoMemory));
        };
        let start = Snapshot::of(&state);
        slots.push_reserved(Some(state));
        match Table::new(alloc, &[0], slots, &start) {
            Ok((table, seat)) => Ok((Shared { table }, Pass { seat })),
            Err(Refused { mut slots }) => {
                let state = slots.pop().unwrap().unwrap();
                slots.destroy_empty();
                Err((state, NoMemory))
            }
        }
    }

    /// Splits a pass off another, for another thread. The new pass has seen the same and owns nothing; it gets one unit
    /// of the share, and its turns are 0. It costs one load of the word.
    ///
    /// The pass must be one of this value, without the turn, and have two units at least.
    pub fn split(&self, pass: &mut Pass<S>) -> Pass<S>
        requires own { IsPassOf self.now pass.old }
        requires free { has_turn pass.old ≡ false }
        requires share { 2 ≤ (view_of pass.old).share }
        ensures own { IsPassOf self.now pass.new × IsPassOf self.now result }
        ensures free { (has_turn pass.new ≡ false) × (has_turn result ≡ false) }
        ensures old { view_of pass.new ≡ view_after_split (view_of pass.old) }
        ensures new { view_of result ≡ split_off_view (view_of pass.old) }
    {
        let seat = self.table.shared.split_seat::<Part>(&mut pass.seat);
        Pass { seat }
    }

    /// Waits for the turn, and takes the value. It has the pass's base, and its entries begin with all that the pass
    /// had seen. The pass has then seen all of them, and its turns have risen by one.
    ///
    /// A try is one compare-exchange. After a try that finds the turn taken the thread rests, twice as long after each,
    /// up to [`MOST_RESTS`] yields of the processor. Then another try follows. Nothing says that one of them succeeds.
    /// The value moves out, and nothing is copied.
    ///
    /// The pass must be one of this value, and have no turn yet: it would wait for itself.
    pub fn take<R: Wait>(&self, rt: &R, pass: &mut Pass<S>) -> Held<S>
        requires own { IsPassOf self.now pass.old }
        requires free { has_turn pass.old ≡ false }
        ensures own { IsPassOf self.now pass.new }
        ensures turn { has_turn pass.new ≡ true }
        ensures base { (view_of pass.old).base ≡ Some (S.base result.state) }
        ensures begins { IsPrefix (view_of pass.old).seen (S.entries result.state) }
        ensures view { let found = S.entries result.state in
            view_of pass.new ≡ view_after_take (view_of pass.old) found }
    {
        let mut rests = 1;
        for _ in rt.forever() {
            if let Some(state) = self.try_take(pass) {
                return Held { state };
            }
            rests = rest(rests);
        }
        unreachable!()
    }

    // The value, where the turn was free.
    fn try_take(&self, pass: &mut Pass<S>) -> Option<S>
        requires own { IsPassOf self.now pass.old }
        requires free { has_turn pass.old ≡ false }
        ensures own { IsPassOf self.now pass.new }
        ensures taken { IfSome result (TakesTurn S.base S.entries pass.old pass.new) }
        ensures waits { IfNone result
            ((view_of pass.new ≡ view_of pass.old) × (has_turn pass.new ≡ false)) }
    {
        let shared = &self.table.shared;
        if shared.compare_exchange::<Try>(&mut pass.seat, 0, 0, 1) != 0 {
            return None;
        }
        Some(shared.exchange(&mut pass.seat, 0, None).unwrap())
    }

    /// Gives the value back, and with it the turn. The pass has then seen all entries of the value, and the places of
    /// those that were added are its own. The value moves in, and one store frees the turn.
    ///
    /// The pass must have the turn. The value must have the pass's base, and its entries must begin with those that it
    /// had when it was taken.
    pub fn give(&self, pass: &mut Pass<S>, held: Held<S>)
        requires own { IsPassOf self.now pass.old }
        requires turn { has_turn pass.old ≡ true }
        requires base { (view_of pass.old).base ≡ Some (S.base held.state) }
        requires grown { IsPrefix (view_of pass.old).seen (S.entries held.state) }
        ensures own { IsPassOf self.now pass.new }
        ensures free { has_turn pass.new ≡ false }
        ensures view { let given = S.entries held.state in
            view_of pass.new ≡ view_after_give (view_of pass.old) given }
    {
        let Held { state } = held;
        let shared = &self.table.shared;
        let empty = shared.exchange(&mut pass.seat, 0, Some(state));
        let None = empty else { unreachable!() };
        shared.store::<Release>(&mut pass.seat, 0, 0);
    }

    /// Makes one pass of two. What one of them has seen begins with what the other has, and the new pass has seen the
    /// longer list. It owns what both owned, and no place was own to both. Shares and turns are added. It costs two
    /// loads of the word.
    ///
    /// Both must be passes of this value, without the turn.
    pub fn join(&self, a: Pass<S>, b: Pass<S>) -> Pass<S>
        requires own { IsPassOf self.now a × IsPassOf self.now b }
        requires free { (has_turn a ≡ false) × (has_turn b ≡ false) }
        ensures own { IsPassOf self.now result }
        ensures free { has_turn result ≡ false }
        ensures view { view_of result ≡ view_after_join (view_of a) (view_of b) }
        ensures base { (view_of b).base ≡ (view_of a).base }
        ensures seen_by_a { IsPrefix (view_of a).seen (view_of result).seen }
        ensures seen_by_b { IsPrefix (view_of b).seen (view_of result).seen }
        ensures apart { AreApart (view_of a).own (view_of b).own }
    {
        let shared = &self.table.shared;
        let mut seat = a.into_seat();
        shared.join_seat::<Meet>(&mut seat, b.into_seat());
        shared.load::<Unite>(&mut seat, 0);
        Pass { seat }
    }

    /// Ends the sharing, and gives the value. It has the pass's base, and its entries are those that the pass has seen.
    /// The pass owns the place of each entry that was added since [`new`](Shared::new), once, and no other.
    ///
    /// The pass must be one of this value, without the turn, and have the whole share: all others were joined into it.
    /// The value moves out, and the memory of the sharing is given back.
    pub fn close(self, pass: Pass<S>) -> S
        requires own { IsPassOf self pass }
        requires free { has_turn pass ≡ false }
        requires whole { (view_of pass).share ≡ whole_share }
        ensures base { (view_of pass).base ≡ Some (S.base result) }
        ensures entries { S.entries result ≡ (view_of pass).seen }
        ensures begins { IsPrefix (S.entries (start_of self)) (S.entries result) }
        ensures own { let first = S.entries (start_of self) in
            IsEachAddedOnce first (S.entries result) (view_of pass).own }
    {
        let slot = self.into_slot(pass.into_seat());
        slot.unwrap()
    }

    // What lies in the slot at the end.
    fn into_slot(self, seat: TurnSeat<S>) -> Option<S>
        requires own { seat.table_id ≡ self.table.shared.table_id }
        ensures last { let start = start_of self in
            ClosesWith S.base S.entries start seat.id seat.me.0 result }
    {
        let Shared { table } = self;
        let mut closed = table.close_with(seat);
        let slot = closed.take(0);
        closed.free();
        slot
    }
}

// Yields the processor so often, and says how often the next rest does: twice as often, up to `MOST_RESTS`.
fn rest(rests: u32) -> u32 {
    for _ in 0..rests {
        yield_now();
    }
    if rests < MOST_RESTS { 2 * rests } else { rests }
}
