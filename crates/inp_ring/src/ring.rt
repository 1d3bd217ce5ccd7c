//! The ring of a client: a queue that may lose its events.
ghost use Rattle.std.specs.Prelude.{◌≡◌, ◌≢◌, ◌≤◌, ◌<◌, ◌+◌, ◌||◌, ◌⊎◌, if◌then◌else◌, get_or, min, suc, nat_lt, false, [], ◌∷◌, ◌++◌, length, map, take, drop, Some, IfOk};
ghost use Rattle.std.specs.Bool.{OnFalse};
ghost use Rattle.std.specs.Option.{option_map};
ghost use Rattle.circular_buffer.specs.Buffer.{buffer};
ghost use Rattle.inp_model.specs.declared.event.TheConstants.{EV_SYN};
ghost use Rattle.inp_model.specs.declared.stamped.TheConstants.{MOMENT_MAX};
ghost use Rattle.inp_model.specs.Event.{is_report, syn_dropped};
ghost use Rattle.inp_model.specs.Queue.{is_empty, ends_in_report, put, visible, flush, clock_changed};
ghost use Rattle.inp_model.specs.Reply.{written};
ghost use Rattle.inp_model.specs.Step.{is_part_of, Codes, Slots};
ghost use Rattle.inp_ring.specs.Class.{query_of_class};
ghost use Rattle.inp_ring.specs.Store.{held_under, cell_in, event_of_cell, dropped_cell, cell_taken, holders, HasCell};
ghost use Rattle.inp_ring.specs.Ring.{times, cell_at, queue_in, IsRing, AreFit, AreHeld, AreDifferent, EntersAlone, HoldsAllButOne, IsLost, AreHeldAlone, IsMoved, IsTakenOut, IsPutAtEnd};

use crate::cell::Cell;
use crate::class::Class;
use crate::removal::{read_front, release_front, remove_class, replace_all};
use crate::store::Store;
use circular_buffer::HeapCircularBuffer;
use inp_model::{EV_SYN, Event, MOMENT_MAX, NoMemory, SYN_DROPPED, Taken};
use std::alloc::Global;
use std::marker::Model;

/// So many numbers enter a ring one after the other, and more of them by one copy (this project's choice: a copy costs
/// as much as four numbers).
const FEW: usize = 4;

/// What tells a client that it lost events.
const LOSS: Event = Event {
    kind: EV_SYN,
    code: SYN_DROPPED,
    value: 0,
};

/// The events that a client was offered and has not read, oldest first. A ring has the numbers of their cells, in 64 to
/// 4,096 places, and holds one number less than it has places.
///
/// With a [`Store`], which the ring shares with others, its queue is the list of the cells. Each call keeps that each
/// of its numbers has a cell with a holder, but for [`enter`](Ring::enter) and [`append_all`](Ring::append_all): their
/// caller adds the holders of the numbers that they put. The events up to the last SYN_REPORT are visible: they may be
/// read.
#[derive(Drop)]
pub struct Ring {
    numbers: HeapCircularBuffer<u32>,
}

impl Model for Ring {
    ghost use Rattle.inp_ring.specs.Ring.{RingView, ring_in, IsRing};

    ghost Value = { RingView };

    ghost view = { λ ring. ring_in ring.numbers };

    ghost invariant = { λ ring. IsRing (ring_in ring.numbers) };
}

impl Ring {
    /// An empty ring of 64 to 4,096 places, with all the memory that it will need. It is refused for memory alone.
    pub fn new(alloc: Global, places: u32) -> Result<Ring, NoMemory>
        requires range { (64 ≤ places) × (places ≤ 4096) }
        ensures empty { IfOk result (λ ring. ring ≡ record { places = places; numbers = [] }) }
    {
        Ok(Ring {
            numbers: HeapCircularBuffer::with_capacity(alloc, places as usize)?,
        })
    }

    /// How many places it has, 64 to 4,096.
    pub fn places(&self) -> u32
        ensures places { result ≡ self.now.places }
    {
        self.numbers.capacity() as u32
    }

    /// Says what holds of every ring, for a caller whose proof needs it. It does nothing.
    pub fn sound(&self)
        ensures sound { IsRing self.now }
    {
        let _ = &self.numbers;
    }

    /// Puts the number of a cell at the end, and adds a holder. A SYN_REPORT is left out where it would follow a
    /// SYN_REPORT, or nothing.
    ///
    /// Where all places but one are held, all events are lost (evdev's client buffer). SYN_DROPPED stands in their
    /// place, in a cell of its own with the moment and place of the event that did not fit. That event stands after it.
    /// There must be room to spare for that cell. It takes the same time at any length but for a loss, and no memory.
    ///
    /// The number must have a cell with fewer than 64 holders, and not be in this ring.
    pub fn put(&mut self, store: &mut Store, number: u32)
        requires there { HasCell store.old number }
        requires few { holders store.old number < 64 }
        requires absent { times number self.old.numbers ≡ 0 }
        requires room { HoldsAllButOne self.old → 0 < store.old.spare }
        requires held { AreHeld store.old self.old.numbers }
        ensures put { let queue = queue_in store.old self.old.numbers in
            queue_in store.new self.new.numbers
            ≡ put event_of_cell dropped_cell self.old.places queue (cell_at store.old number) }
        ensures places { self.new.places ≡ self.old.places }
        ensures moved { IsMoved store.old store.new self.old.numbers self.new.numbers }

        // SYN_DROPPED, where it is not the item itself, enters at a full ring alone, and in a cell of its own.
        ensures lost { EntersAlone number self.old.numbers self.new.numbers
            ⊎ IsLost (number ∷ []) store.new self.old self.new }
    {
        let event = store.get(number).event;
        if self.enter(store, number, event) {
            store.hold(number);
        }
    }

    /// Puts the number of a cell at the end as [`put`](Ring::put) does, but adds no holder, and says whether the number
    /// is in the ring now. So a caller that puts it in several rings can add all their holders at once.
    ///
    /// The number must have a cell with this event, and not be in this ring.
    pub fn enter(&mut self, store: &mut Store, number: u32, event: Event) -> bool
        requires event { option_map event_of_cell (cell_in store.old number) ≡ Some event }
        requires absent { times number self.old.numbers ≡ 0 }
        requires room { HoldsAllButOne self.old → 0 < store.old.spare }
        requires held { AreHeld store.old self.old.numbers }
        ensures put { let queue = queue_in store.old self.old.numbers in
            queue_in store.new self.new.numbers
            ≡ put event_of_cell dropped_cell self.old.places queue (cell_at store.old number) }
        ensures places { self.new.places ≡ self.old.places }
        ensures entered { IsPutAtEnd store.old store.new self.old.numbers self.new.numbers
            number result }

        // SYN_DROPPED, where it is not the item itself, enters at a full ring alone, and in a cell of its own.
        ensures lost { EntersAlone number self.old.numbers self.new.numbers
            ⊎ IsLost (number ∷ []) store.new self.old self.new }
    {
        if event.is_report() && self.is_all_visible(store) {
            return false;
        }
        self.make_room(store, number);
        self.append(number);
        true
    }

    /// Whether so many more numbers leave a place free.
    pub fn has_room_for(&self, count: usize) -> bool
        requires few { count ≤ 4096 }
        ensures room { result ≡ nat_lt (length self.now.numbers + count) self.now.places }
    {
        self.numbers.len() + count < self.numbers.capacity()
    }

    /// Puts the numbers of cells at the end, in order and in one run, and adds no holder. It takes no memory.
    ///
    /// They must leave a place free, and neither be in this ring nor be the same.
    pub fn append_all(&mut self, numbers: &[u32])
        requires room { length self.old.numbers + length numbers.now < self.old.places }
        requires different { AreDifferent (self.old.numbers ++ numbers.now) }
        ensures appended { self.new
            ≡ record self.old { numbers = self.old.numbers ++ numbers.now } }
    {
        if numbers.len() > FEW {
            self.numbers.fill_from_slice(numbers);
            return;
        }
        push_each(&mut self.numbers, numbers);
    }

    /// Removes the events of a type, as the answer to a query of its codes does. Each SYN_REPORT that is left with
    /// nothing between it and the one before it is removed too, but not the first one.
    ///
    /// It walks the queue once, and takes no memory. The type must not be EV_SYN.
    pub fn flush(&mut self, store: &mut Store, kind: u16)
        requires not_syn { kind ≢ EV_SYN }
        requires held { AreHeld store.old self.old.numbers }
        ensures flush { let queue = queue_in store.old self.old.numbers in
            queue_in store.new self.new.numbers
            ≡ flush event_of_cell (is_part_of (Codes kind)) queue }
        ensures stay { self.new.numbers ≡ flush (λ n. event_of_cell (cell_at store.old n))
            (is_part_of (Codes kind)) self.old.numbers }
        ensures places { self.new.places ≡ self.old.places }
        ensures moved { IsTakenOut store.old store.new self.old.numbers self.new.numbers }
    {
        self.remove(store, Class::Kind(kind));
    }

    /// Removes the events of multi-touch axes, ABS_MT_SLOT included, as [`flush`](Ring::flush) does those of a type.
    pub fn flush_slots(&mut self, store: &mut Store)
        requires held { AreHeld store.old self.old.numbers }
        ensures flush { let queue = queue_in store.old self.old.numbers in
            queue_in store.new self.new.numbers ≡ flush event_of_cell (is_part_of Slots) queue }
        ensures stay { self.new.numbers ≡ flush (λ n. event_of_cell (cell_at store.old n))
            (is_part_of Slots) self.old.numbers }
        ensures places { self.new.places ≡ self.old.places }
        ensures moved { IsTakenOut store.old store.new self.old.numbers self.new.numbers }
    {
        self.remove(store, Class::MultiTouch);
    }

    /// How many events may be read: those up to the last SYN_REPORT.
    ///
    /// It looks from the newest event back to the last SYN_REPORT, which between two frames is the newest one.
    pub fn visible(&self, store: &Store) -> u32
        requires held { AreHeld store.now self.now.numbers }
        ensures visible { result ≡ visible event_of_cell (queue_in store.now self.now.numbers) }
        ensures within { result ≤ length self.now.numbers }
    {
        let mut count = self.numbers.len();
        while count > 0 && !self.is_report_at(store, count - 1) {
            count -= 1;
        }
        count as u32
    }

    /// Moves the first `count` visible events, or as many as there are, to the front of a buffer, and says how many.
    /// Each is read on a clock that is `offset` microseconds ahead, and has one holder less.
    ///
    /// The rest of the buffer stays. The buffer must have room for `count`.
    pub fn take(&mut self, store: &mut Store, count: u32, offset: u64, out: &mut [Taken]) -> u32
        requires room { count ≤ length out.old }
        requires offset { offset ≤ MOMENT_MAX }
        requires moments { AreFit (queue_in store.old self.old.numbers) }
        requires held { AreHeld store.old self.old.numbers }
        ensures count { let queue = queue_in store.old self.old.numbers in
            result ≡ min count (visible event_of_cell queue) }
        ensures taken { let cells = take result (queue_in store.old self.old.numbers) in
            out.new ≡ written (map (cell_taken offset) cells) out.old }
        ensures rest { self.new ≡ record self.old { numbers = drop result self.old.numbers } }
        ensures left { let queue = queue_in store.old self.old.numbers in
            queue_in store.new self.new.numbers ≡ drop result queue }
        ensures moved { IsTakenOut store.old store.new self.old.numbers self.new.numbers }
    {
        let taken = count.min(self.visible(store));
        read_front(&mut self.numbers, store, taken as usize, offset, out);
        taken
    }

    /// Removes all visible events, unread, and says how many they were.
    pub fn discard(&mut self, store: &mut Store) -> u32
        requires held { AreHeld store.old self.old.numbers }
        ensures count { let queue = queue_in store.old self.old.numbers in
            result ≡ visible event_of_cell queue }
        ensures rest { self.new ≡ record self.old { numbers = drop result self.old.numbers } }
        ensures left { let queue = queue_in store.old self.old.numbers in
            queue_in store.new self.new.numbers ≡ drop result queue }
        ensures moved { IsTakenOut store.old store.new self.old.numbers self.new.numbers }
    {
        let removed = self.visible(store);
        release_front(&mut self.numbers, store, removed as usize);
        removed
    }

    /// Puts SYN_DROPPED in the place of all events, with a moment in microseconds and the place of the step that
    /// changed the client's clock (evdev's clock request). An empty ring stays empty. There must be room to spare for a
    /// cell.
    pub fn clock_changed(&mut self, store: &mut Store, now: u64, place: u32)
        requires room { 0 < store.old.spare }
        requires held { AreHeld store.old self.old.numbers }
        ensures changed { let queue = queue_in store.old self.old.numbers in
            queue_in store.new self.new.numbers
            ≡ clock_changed false (record { event = syn_dropped; now = now; place = place }) queue }
        ensures alone { AreHeldAlone store.new self.new.numbers }
        ensures places { self.new.places ≡ self.old.places }
        ensures moved { IsMoved store.old store.new self.old.numbers self.new.numbers }
    {
        if self.numbers.is_empty() {
            return;
        }
        let cell = Cell {
            event: LOSS,
            now,
            place,
        };
        replace_all(&mut self.numbers, store, cell);
    }

    /// Releases all events, and leaves the ring empty.
    pub fn clear(&mut self, store: &mut Store)
        requires held { AreHeld store.old self.old.numbers }
        ensures cleared { self.new ≡ record self.old { numbers = [] } }
        ensures moved { IsTakenOut store.old store.new self.old.numbers self.new.numbers }
    {
        let count = self.numbers.len();
        release_front(&mut self.numbers, store, count);
    }

    /// Whether there is no event, or the last one is a SYN_REPORT.
    fn is_all_visible(&self, store: &Store) -> bool
        requires held { AreHeld store.now self.now.numbers }
        ensures whole { let queue = queue_in store.now self.now.numbers in
            result ≡ (is_empty queue || ends_in_report event_of_cell queue) }
    {
        match self.numbers.back() {
            Some(number) => store.get(*number).event.is_report(),
            None => true,
        }
    }

    /// Whether the event at an index is a SYN_REPORT.
    fn is_report_at(&self, store: &Store, index: usize) -> bool
        requires within { index < length self.now.numbers }
        requires held { AreHeld store.now self.now.numbers }
        ensures report { result
            ≡ is_report (event_of_cell (cell_at store.now (get_or self.now.numbers index 0))) }
    {
        let number = *self.numbers.get(index).unwrap();
        store.get(number).event.is_report()
    }

    /// Whether one more number leaves a place free.
    fn has_room(&self) -> bool
        ensures room { result ≡ nat_lt (suc (length self.now.numbers)) self.now.places }
        ensures full { OnFalse result (HoldsAllButOne self.now) }
    {
        self.numbers.len() + 1 < self.numbers.capacity()
    }

    /// Leaves the ring as it is where one more number fits. Else SYN_DROPPED stands in the place of all, at the moment
    /// and place of the cell under a number.
    fn make_room(&mut self, store: &mut Store, number: u32)
        requires there { HasCell store.old number }
        requires absent { times number self.old.numbers ≡ 0 }
        requires room { HoldsAllButOne self.old → 0 < store.old.spare }
        requires held { AreHeld store.old self.old.numbers }
        ensures room { suc (length self.new.numbers) < self.new.places }
        ensures queue { let queue = queue_in store.old self.old.numbers in
            queue_in store.new self.new.numbers
            ≡ (if nat_lt (suc (length self.old.numbers)) self.old.places then queue
            else dropped_cell (cell_at store.old number) ∷ []) }
        ensures places { self.new.places ≡ self.old.places }
        ensures absent { times number self.new.numbers ≡ 0 }
        ensures same { held_under store.new number ≡ held_under store.old number }
        ensures moved { IsMoved store.old store.new self.old.numbers self.new.numbers }
        ensures lost { (self.new.numbers ≡ self.old.numbers) ⊎ IsLost [] store.new self.old self.new }
    {
        if self.has_room() {
            return;
        }
        let cell = store.get(number);
        replace_all(
            &mut self.numbers,
            store,
            Cell {
                event: LOSS,
                ..cell
            },
        );
    }

    /// Puts a number at the end, where it leaves a place free.
    fn append(&mut self, number: u32)
        requires room { suc (length self.old.numbers) < self.old.places }
        requires absent { times number self.old.numbers ≡ 0 }
        ensures appended { self.new
            ≡ record self.old { numbers = self.old.numbers ++ number ∷ [] } }
    {
        self.numbers.push_back(number);
    }

    /// Releases the events of a class, and the reports that are left with no event before them.
    fn remove(&mut self, store: &mut Store, class: Class)
        requires held { AreHeld store.old self.old.numbers }
        ensures removed { let queue = queue_in store.old self.old.numbers in
            queue_in store.new self.new.numbers
            ≡ flush event_of_cell (is_part_of (query_of_class class)) queue }
        ensures stay { self.new.numbers ≡ flush (λ n. event_of_cell (cell_at store.old n))
            (is_part_of (query_of_class class)) self.old.numbers }
        ensures places { self.new.places ≡ self.old.places }
        ensures moved { IsTakenOut store.old store.new self.old.numbers self.new.numbers }
    {
        remove_class(&mut self.numbers, store, class);
    }
}

// Puts numbers at the end of those that a ring holds, which has room for them, one after the other.
fn push_each(held: &mut HeapCircularBuffer<u32>, numbers: &[u32])
    requires room { length held.old.items + length numbers.now ≤ held.old.capacity }
    ensures pushed { held.new ≡ buffer (held.old.items ++ numbers.now) held.old.capacity }
{
    for number in numbers {
        held.try_push_back(*number).unwrap();
    }
}
