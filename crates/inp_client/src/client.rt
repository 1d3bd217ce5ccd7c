//! One open client.
ghost use Rattle.std.specs.Prelude.{◌≡◌, ◌≢◌, ◌≤◌, ◌<◌, ◌+◌, ◌&&◌, ◌⊎◌, ◌++◌, ℕ, if◌then◌else◌, nat_lt, [], true, length, min, map, take, drop, Some, IfOk};
ghost use Rattle.std.specs.Option.{option_map};
ghost use Rattle.inp_model.specs.declared.event.TheConstants.{EV_SYN};
ghost use Rattle.inp_model.specs.declared.stamped.TheConstants.{MOMENT_MAX};
ghost use Rattle.inp_model.specs.Description.{offset};
ghost use Rattle.inp_model.specs.Past.{has_mask, mask_words, is_other};
ghost use Rattle.inp_model.specs.Queue.{visible, flush, is_same_clock, put};
ghost use Rattle.inp_model.specs.Reply.{written};
ghost use Rattle.inp_model.specs.Step.{Codes, Slots, is_part_of};
ghost use Rattle.inp_ring.specs.Store.{event_of_cell, dropped_cell, cell_taken, cell_in};
ghost use Rattle.inp_ring.specs.Ring.{times, cell_at, AreFit, AreHeld, AreDifferent, IsPutAtEnd, IsRing};
ghost use Rattle.inp_bits.specs.Bits.{word_bits};
ghost use Rattle.inp_client.specs.Masks.{admits_of, full_masks, mask_of, word_of};
ghost use Rattle.inp_client.specs.Client.{new_client, with_events, is_offered_to, after_take, after_flush, after_mask, after_clock, after_revoke};
ghost use Rattle.inp_client.specs.Offered.{with_run};
ghost use Rattle.inp_client.specs.Member.{ring_of, client_in, after_event, IsMemberChanged};
ghost use Rattle.inp_client.specs.Numbers.{event_under, IsRingStored, IsRingOnClock};

use crate::masks::Masks;
use inp_caps::Caps;
use inp_model::{Clock, Event, MOMENT_MAX, NoMemory, Taken};
use inp_ring::{Ring, Store};
use std::alloc::Global;
use std::marker::Model;

/// A client: its ring, its masks, its clock, and whether it was revoked. The cells of its ring are in a store that it
/// shares with others.
#[derive(Drop)]
pub struct Client {
    number: u32,
    ring: Ring,
    masks: Masks,
    clock: Clock,
    revoked: bool,
}

impl Model for Client {
    ghost use Rattle.inp_client.specs.Member.{Member, queue_of};

    ghost Value = { Member };

    ghost view = { λ c. record {
      number = c.number;
      ring = queue_of c.ring;
      masks = c.masks;
      clock = c.clock;
      revoked = c.revoked;
    } };
}

impl Client {
    /// A client that was just opened, with a ring of 64 to 4,096 places.
    pub fn new(alloc: Global, number: u32, ring: u32) -> Result<Client, NoMemory>
        requires ring { (64 ≤ ring) × (ring ≤ 4096) }
        ensures new { IfOk result (λ client. client ≡ new_client number ring) }
    {
        Ok(Client {
            number,
            ring: Ring::new(alloc, ring)?,
            masks: Masks::new(),
            clock: Clock::Realtime,
            revoked: false,
        })
    }

    /// How many places its ring has.
    pub fn places(&self) -> u32
        ensures places { result ≡ self.now.ring.places }
    {
        self.ring.places()
    }

    /// Whether it was revoked.
    pub fn is_revoked(&self) -> bool
        ensures revoked { result ≡ self.now.revoked }
    {
        self.revoked
    }

    /// The clock by which its events are timed.
    pub fn clock(&self) -> Clock
        ensures clock { result ≡ self.now.clock }
    {
        self.clock
    }

    /// 64 bits of one of its masks, the first as the lowest bit.
    pub fn mask_word(&self, kind: u16, word: u16) -> u64
        requires kind { has_mask kind ≡ true }
        requires word { word < mask_words kind }
        ensures word { word_bits result ≡ word_of word (mask_of self.now.masks kind) }
    {
        self.masks.word(kind, word)
    }

    /// It loses the device for good. What is queued stays.
    pub fn revoke(&mut self)
        ensures revoked { self.new ≡ after_revoke self.old }
    {
        self.revoked = true;
    }

    /// Sets 64 bits of one of its masks.
    pub fn set_mask(&mut self, kind: u16, word: u16, bits: u64)
        requires kind { has_mask kind ≡ true }
        requires word { word < mask_words kind }
        ensures set { self.new ≡ after_mask kind word bits self.old }
    {
        self.masks.set_word(kind, word, bits);
    }

    /// Chooses its clock. There must be room to spare for a cell.
    pub fn set_clock(&mut self, store: &mut Store, clock: Clock, now: u64, place: u32)
        requires room { 0 < store.old.spare }
        requires held { AreHeld store.old self.old.ring.events }
        ensures set { IsMemberChanged store.old store.new self.old self.new
            (after_clock clock now place) }
        ensures stored { IsRingOnClock (is_same_clock self.old.clock clock) store.new
            self.old.ring.events self.new.ring.events }
    {
        if is_same_clock(self.clock, clock) {
            return;
        }
        self.clock = clock;
        self.ring.clock_changed(store, now, place);
        self.ring.sound();
    }

    /// How many events it may read.
    pub fn visible(&self, store: &Store) -> u32
        requires held { AreHeld store.now self.now.ring.events }
        ensures visible { result
            ≡ visible event_of_cell (map (cell_at store.now) self.now.ring.events) }
    {
        self.ring.visible(store)
    }

    /// Moves visible events to the front of a buffer, as they are read on its clock.
    pub fn take(&mut self, store: &mut Store, caps: &Caps, count: u32, out: &mut [Taken]) -> u32
        requires room { count ≤ length out.old }
        requires moments { AreFit (map (cell_at store.old) self.old.ring.events) }
        requires held { AreHeld store.old self.old.ring.events }
        ensures count { let queue = map (cell_at store.old) self.old.ring.events in
            result ≡ min count (visible event_of_cell queue) }
        ensures taken { let cells = take result (map (cell_at store.old) self.old.ring.events) in
            out.new ≡ written (map (cell_taken (offset caps.now self.old.clock)) cells) out.old }
        ensures rest { IsMemberChanged store.old store.new self.old self.new (after_take result) }
        ensures left { self.new.ring.events ≡ drop result self.old.ring.events }
    {
        let taken = self.ring.take(store, count, caps.offset(self.clock), out);
        self.ring.sound();
        taken
    }

    /// Removes all visible events, unread.
    pub fn discard(&mut self, store: &mut Store) -> u32
        requires held { AreHeld store.old self.old.ring.events }
        ensures count { let queue = map (cell_at store.old) self.old.ring.events in
            result ≡ visible event_of_cell queue }
        ensures rest { IsMemberChanged store.old store.new self.old self.new (after_take result) }
        ensures left { self.new.ring.events ≡ drop result self.old.ring.events }
    {
        let removed = self.ring.discard(store);
        self.ring.sound();
        removed
    }

    /// Removes the queued events of a type.
    pub fn flush(&mut self, store: &mut Store, kind: u16)
        requires not_syn { kind ≢ EV_SYN }
        requires held { AreHeld store.old self.old.ring.events }
        ensures flushed { IsMemberChanged store.old store.new self.old self.new
            (after_flush event_of_cell (Codes kind)) }
        ensures left { self.new.ring.events
            ≡ flush (event_under store.old) (is_part_of (Codes kind)) self.old.ring.events }
    {
        self.ring.flush(store, kind);
        self.ring.sound();
    }

    /// Removes the queued multi-touch events.
    pub fn flush_slots(&mut self, store: &mut Store)
        requires held { AreHeld store.old self.old.ring.events }
        ensures flushed { IsMemberChanged store.old store.new self.old self.new
            (after_flush event_of_cell Slots) }
        ensures left { self.new.ring.events
            ≡ flush (event_under store.old) (is_part_of Slots) self.old.ring.events }
    {
        self.ring.flush_slots(store);
        self.ring.sound();
    }

    /// Releases all that is queued.
    pub fn clear(&mut self, store: &mut Store)
        requires held { AreHeld store.old self.old.ring.events }
        ensures cleared { IsMemberChanged store.old store.new self.old self.new (with_events []) }
        ensures none { self.new.ring.events ≡ [] }
    {
        self.ring.clear(store);
        self.ring.sound();
    }

    /// Puts the number of a cell with an event of a frame, unless it was revoked, another client holds the grab, or its
    /// masks do not admit it. It adds no holder, and says whether its ring has the number now.
    pub fn enter(
        &mut self,
        store: &mut Store,
        number: u32,
        event: Event,
        holder: Option<u32>,
    ) -> bool
        requires event { option_map event_of_cell (cell_in store.old number) ≡ Some event }
        requires absent { times number self.old.ring.events ≡ 0 }
        requires room { 0 < store.old.spare }
        requires held { AreHeld store.old self.old.ring.events }
        ensures number { self.new.number ≡ self.old.number }
        ensures places { self.new.ring.places ≡ self.old.ring.places }
        ensures sound { IsRing (ring_of self.old) → IsRing (ring_of self.new) }
        ensures entered { IsPutAtEnd store.old store.new
            self.old.ring.events self.new.ring.events number result }
        ensures offered { client_in store.new self.new
            ≡ after_event (cell_at store.old number) holder (client_in store.old self.old) }
        ensures stored { IsRingStored number holder store.old store.new self.old self.new }
    {
        if !self.is_offered_to(holder) || !self.admits(event) {
            return false;
        }
        let is_in = self.ring.enter(store, number, event);
        self.ring.sound();
        is_in
    }

    /// Whether its ring has room for so many events of a frame, and its masks admit all of them.
    pub fn takes_all(&self, count: usize) -> bool
        requires few { count ≤ 4096 }
        ensures full { result ≡ true → self.now.masks ≡ full_masks }
        ensures room { result ≡ true → length self.now.ring.events + count < self.now.ring.places }
    {
        self.masks.is_full() && self.ring.has_room_for(count)
    }

    /// Puts the numbers of a frame's cells into its ring, unless the frame is not offered to it. It adds no holder.
    pub fn append_all(&mut self, numbers: &[u32], holder: Option<u32>)
        requires room { is_offered_to holder self.old ≡ true
            → length self.old.ring.events + length numbers.now < self.old.ring.places }
        requires different { AreDifferent (self.old.ring.events ++ numbers.now) }
        ensures appended { self.new ≡ with_run holder numbers.now self.old }
    {
        if self.is_offered_to(holder) {
            self.ring.append_all(numbers);
        }
    }

    /// Whether its masks admit an event. Where no mask was set, that is seen at once.
    fn admits(&self, event: Event) -> bool
        ensures admits { result ≡ admits_of self.now.masks event }
    {
        self.masks.is_full() || self.masks.admits(event)
    }

    /// Whether a frame is offered to it, given who holds the grab.
    pub fn is_offered_to(&self, holder: Option<u32>) -> bool
        ensures { result ≡ is_offered_to holder self.now }
    {
        !self.revoked && !is_other(holder, self.number)
    }
}

/// Whether another client holds the grab.
fn is_other(holder: Option<u32>, number: u32) -> bool
    ensures { result ≡ is_other holder number }
{
    match holder {
        Some(other) => other != number,
        None => false,
    }
}

/// Whether two clocks are the same one.
fn is_same_clock(a: Clock, b: Clock) -> bool
    ensures { result ≡ is_same_clock a b }
{
    a == b
}
