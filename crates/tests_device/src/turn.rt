//! A small kept value, used by passes in turns.
ghost use Rattle.std.specs.Prelude.{◌≡◌, ◌≤◌, ◌+◌, false, ◌∷◌, []};
ghost use mathlib.Core.List.{IsPrefix};
ghost use Rattle.inp_turn.specs.Pass.{view_of, has_turn};
ghost use Rattle.inp_turn.specs.PassView.{whole_share};
ghost use Rattle.inp_turn.specs.Shared.{IsPassOf};

use inp_turn::{Kept, NoMemory, Pass, Shared};
use std::alloc::Global;
use std::sync::Wait;
use std::test::Fail;
use std::thread;
use std::thread::Threads;

/// A number to begin with, and numbers that were added.
#[derive(Drop)]
struct Tally {
    start: u64,
    added: Vec<u64>,
}

impl Kept for Tally {
    type Base = u64;

    type Entry = u64;

    ghost base = { λ tally. tally.start };

    ghost entries = { λ tally. tally.added.items };
}

impl Tally {
    fn add(&mut self, number: u64)
        ensures base { self.new.start ≡ self.old.start }
        ensures grown { IsPrefix self.old.added.items self.new.added.items }
    {
        drop(self.added.push(number));
    }
}

// Adds one number under a turn.
fn add<R: Wait>(rt: &R, shared: &Shared<Tally>, pass: &mut Pass<Tally>, number: u64)
    requires own { IsPassOf shared.now pass.old }
    requires free { has_turn pass.old ≡ false }
    ensures own { IsPassOf shared.now pass.new }
    ensures free { has_turn pass.new ≡ false }
    ensures share { (view_of pass.new).share ≡ (view_of pass.old).share }
    ensures turns { (view_of pass.new).turns ≡ (view_of pass.old).turns + 1 }
{
    let mut held = shared.take(rt, pass);
    held.state.add(number);
    shared.give(pass, held);
}

// Adds a hundred numbers, each under a turn of its own.
fn add_all<R: Wait>(rt: &R, shared: &Shared<Tally>, mut pass: Pass<Tally>, from: u64) -> Pass<Tally>
    requires own { IsPassOf shared.now pass }
    requires free { has_turn pass ≡ false }
    requires small { from ≤ 1000 }
    ensures own { IsPassOf shared.now result }
    ensures free { has_turn result ≡ false }
    ensures share { (view_of result).share ≡ (view_of pass).share }
{
    for i in 0..100 {
        add(rt, shared, &mut pass, from + i);
    }
    pass
}

// Two threads add a hundred numbers each, and are joined.
fn add_by_two<R: Threads + Wait + Sync>(
    rt: &R,
    alloc: Global,
    tally: Tally,
) -> Result<Tally, (Tally, NoMemory)> {
    let (shared, mut one) = Shared::new(alloc, tally)?;
    let other = shared.split(&mut one);
    let lent = &shared;
    let (one, other) = thread::join(
        rt,
        move || -> Pass<Tally>
            requires { IsPassOf lent.now one × (has_turn one ≡ false)
                × ((view_of one).share ≡ 65535) }
            ensures { IsPassOf lent.entry.now result × (has_turn result ≡ false)
                × ((view_of result).share ≡ 65535) }
        { add_all(rt, lent, one, 0) },
        move || -> Pass<Tally>
            requires { IsPassOf lent.now other × (has_turn other ≡ false)
                × ((view_of other).share ≡ 1) }
            ensures { IsPassOf lent.entry.now result × (has_turn result ≡ false)
                × ((view_of result).share ≡ 1) }
        { add_all(rt, lent, other, 1000) },
    );
    let pass = shared.join(one, other);
    Ok(shared.close(pass))
}

#[test]
fn each_of_two_threads_adds_its_own_in_order(rt: HostRuntime) -> Result<(), Fail> {
    let added = Vec::with_capacity(rt.alloc(), 200)?;
    let Ok(tally) = add_by_two(&rt, rt.alloc(), Tally { start: 7, added }) else {
        panic!(rt; "memory ran out")
    };
    assert_eq!(rt; tally.start, 7);
    let mut low = 0;
    let mut high = 1000;
    for number in tally.added.iter() {
        if *number < 1000 {
            assert_eq!(rt; *number, low, "the first thread's numbers come in order");
            low = number.saturating_add(1);
        } else {
            assert_eq!(rt; *number, high, "the second thread's numbers come in order");
            high = number.saturating_add(1);
        }
    }
    assert_eq!(rt; low, 100);
    assert_eq!(rt; high, 1100);
    Ok(())
}
