//! How numbers leave a ring, and their cells the store.
ghost use Rattle.std.specs.Prelude.{◌≡◌, ℕ, ◌≤◌, ◌<◌, ◌+◌, not, if◌then◌else◌, get_or, [], ◌∷◌, ◌++◌, length, map, take, drop};
ghost use Rattle.circular_buffer.specs.Buffer.{buffer};
ghost use Rattle.inp_model.specs.declared.stamped.TheConstants.{MOMENT_MAX};
ghost use Rattle.inp_model.specs.Event.{is_report};
ghost use Rattle.inp_model.specs.Queue.{flush};
ghost use Rattle.inp_model.specs.Reply.{written};
ghost use Rattle.inp_model.specs.Step.{is_part_of};
ghost use Rattle.inp_ring.specs.Class.{query_of_class};
ghost use Rattle.inp_ring.specs.Store.{event_of_cell, cell_taken, HasCell};
ghost use Rattle.inp_ring.specs.Ring.{times, cell_at, queue_in, AreHeld, AreFit, AreHeldAlone, IsMoved, IsTakenOut};

use crate::cell::Cell;
use crate::class::Class;
use crate::store::Store;
use circular_buffer::HeapCircularBuffer;
use inp_model::{Event, MOMENT_MAX, Taken};

/// Releases the oldest number, and gives its cell as it was. There must be one.
pub fn release_first(numbers: &mut HeapCircularBuffer<u32>, store: &mut Store) -> Cell
    requires some { 0 < length numbers.old.items }
    requires held { AreHeld store.old numbers.old.items }
    ensures cell { result ≡ cell_at store.old (get_or numbers.old.items 0 0) }
    ensures rest { numbers.new ≡ buffer (drop 1 numbers.old.items) numbers.old.capacity }
    ensures moved { IsTakenOut store.old store.new numbers.old.items numbers.new.items }
{
    let number = numbers.pop_front().unwrap();
    store.let_go(number)
}

/// Releases so many of the oldest numbers.
pub fn release_front(numbers: &mut HeapCircularBuffer<u32>, store: &mut Store, count: usize)
    requires some { count ≤ length numbers.old.items }
    requires held { AreHeld store.old numbers.old.items }
    ensures rest { numbers.new ≡ buffer (drop count numbers.old.items) numbers.old.capacity }
    ensures moved { IsTakenOut store.old store.new numbers.old.items numbers.new.items }
{
    let (front, back) = numbers.as_slices();
    let in_front = count.min(front.len());
    let_go_each(store, &front[..in_front]);
    let_go_each(store, &back[..count - in_front]);
    numbers.truncate_front(numbers.len() - count);
}

/// Takes one holder from the cell under each of these numbers, one after the other.
fn let_go_each(store: &mut Store, numbers: &[u32])
    requires held { AreHeld store.old numbers.now }
    ensures moved { IsTakenOut store.old store.new numbers.now [] }
{
    for number in numbers {
        store.let_go(*number);
    }
}

/// Moves so many of the oldest events to the front of a buffer, read on a clock that is ahead by an offset.
pub fn read_front(
    numbers: &mut HeapCircularBuffer<u32>,
    store: &mut Store,
    count: usize,
    offset: u64,
    out: &mut [Taken],
)
    requires some { count ≤ length numbers.old.items }
    requires held { AreHeld store.old numbers.old.items }
    requires room { count ≤ length out.old }
    requires offset { offset ≤ MOMENT_MAX }
    requires moments { AreFit (queue_in store.old numbers.old.items) }
    ensures read { let cells = take count (queue_in store.old numbers.old.items) in
        out.new ≡ written (map (cell_taken offset) cells) out.old }
    ensures rest { numbers.new ≡ buffer (drop count numbers.old.items) numbers.old.capacity }
    ensures moved { IsTakenOut store.old store.new numbers.old.items numbers.new.items }
{
    let (front, back) = numbers.as_slices();
    let in_front = count.min(front.len());
    read_each(store, &front[..in_front], offset, out, 0);
    read_each(store, &back[..count - in_front], offset, out, in_front);
    numbers.truncate_front(numbers.len() - count);
}

/// Reads the cell under each of these numbers into a buffer, from an index on, and takes one holder from it.
fn read_each(store: &mut Store, numbers: &[u32], offset: u64, out: &mut [Taken], from: usize)
    requires held { AreHeld store.old numbers.now }
    requires room { from + length numbers.now ≤ length out.old }
    requires offset { offset ≤ MOMENT_MAX }
    requires moments { AreFit (queue_in store.old numbers.now) }
    ensures read { let events = map (cell_taken offset) (queue_in store.old numbers.now) in
        out.new ≡ take from out.old ++ written events (drop from out.old) }
    ensures moved { IsTakenOut store.old store.new numbers.now [] }
{
    for at in 0..numbers.len() {
        out[from + at] = store.let_go(numbers[at]).taken(offset);
    }
}

/// Releases all numbers and puts that of a new cell in their place. There must be room to spare.
pub fn replace_all(numbers: &mut HeapCircularBuffer<u32>, store: &mut Store, cell: Cell)
    requires room { 0 < store.old.spare }
    requires places { 64 ≤ numbers.old.capacity }
    requires held { AreHeld store.old numbers.old.items }
    ensures one { length numbers.new.items ≡ 1 }
    ensures alone { AreHeldAlone store.new numbers.new.items }
    ensures cells { queue_in store.new numbers.new.items ≡ cell ∷ [] }
    ensures capacity { numbers.new.capacity ≡ numbers.old.capacity }
    ensures moved { IsMoved store.old store.new numbers.old.items numbers.new.items }
    ensures fresh { (n : ℕ) → HasCell store.old n → times n numbers.old.items ≡ 0
        → times n numbers.new.items ≡ 0 }
{
    let count = numbers.len();
    release_front(numbers, store, count);
    let number = store.add_held(cell);
    numbers.push_back(number);
}

/// Releases the numbers of a class of events, and the reports that are left with no event before them. Each number is
/// taken from the front once and, where it stays, put after the others.
pub fn remove_class(numbers: &mut HeapCircularBuffer<u32>, store: &mut Store, class: Class)
    requires within { length numbers.old.items ≤ numbers.old.capacity }
    requires held { AreHeld store.old numbers.old.items }
    ensures rest { let drops = is_part_of (query_of_class class) in
        let rest = flush (λ n. event_of_cell (cell_at store.old n)) drops numbers.old.items in
        numbers.new ≡ buffer rest numbers.old.capacity }
    ensures moved { IsTakenOut store.old store.new numbers.old.items numbers.new.items }
{
    let mut report_stays = true;
    for _ in 0..numbers.len() {
        let event = first_event(numbers, store);
        if !stays(event, class, report_stays) {
            release_first(numbers, store);
            continue;
        }
        turn(numbers);
        report_stays = !event.is_report();
    }
}

/// The event of the oldest number. There must be one.
fn first_event(numbers: &HeapCircularBuffer<u32>, store: &Store) -> Event
    requires some { 0 < length numbers.now.items }
    requires held { AreHeld store.now numbers.now.items }
    ensures event { result ≡ event_of_cell (cell_at store.now (get_or numbers.now.items 0 0)) }
{
    let number = *numbers.front().unwrap();
    store.get(number).event
}

/// Puts the oldest number after the others. There must be one.
fn turn(numbers: &mut HeapCircularBuffer<u32>)
    requires some { 0 < length numbers.old.items }
    requires within { length numbers.old.items ≤ numbers.old.capacity }
    ensures turned { let first = get_or numbers.old.items 0 0 in
        numbers.new ≡ buffer (drop 1 numbers.old.items ++ first ∷ []) numbers.old.capacity }
{
    let number = numbers.pop_front().unwrap();
    numbers.push_back(number);
}

/// Whether an event stays without a class, where it is known whether a report would.
fn stays(event: Event, class: Class, report_stays: bool) -> bool
    ensures { let removed = is_part_of (query_of_class class) event in
        result ≡ (if is_report event then report_stays else not removed) }
{
    if event.is_report() {
        report_stays
    } else {
        !class.has(event)
    }
}
