//! The open clients of a device.
ghost use Rattle.std.specs.Prelude.{◌≡◌, ◌≢◌, ℕ, ◌≤◌, ◌<◌, ◌+◌, ◌↔◌, [], true, false, length, min, map, take, drop, sum_by, count_by, All, Contains, Err, IfOk, OnOk, OnErr};
ghost use Rattle.slab.specs.Slab.{ContainsKey};
ghost use Rattle.inp_model.specs.declared.event.TheConstants.{EV_SYN};
ghost use Rattle.inp_model.specs.declared.limits.TheConstants.{CLIENTS_MAX};
ghost use Rattle.inp_model.specs.declared.stamped.TheConstants.{MOMENT_MAX};
ghost use Rattle.inp_model.specs.Past.{has_mask, mask_words};
ghost use Rattle.inp_model.specs.Queue.{visible};
ghost use Rattle.inp_model.specs.Reply.{written};
ghost use Rattle.inp_model.specs.Step.{Codes, Slots};
ghost use Rattle.inp_ring.specs.Store.{event_of_cell};
ghost use Rattle.inp_client.specs.Client.{new_client, after_offer, after_take, after_flush, after_mask, after_clock, after_revoke};
ghost use Rattle.inp_bits.specs.Bits.{word_bits};
ghost use Rattle.inp_client.specs.Masks.{mask_of, word_of};
ghost use Rattle.inp_client.specs.Clients.{has_client, has_revoked_client, clock_of_client, masks_of_client, events_of, readable_in, map_client, with_client, without_client};
ghost use Rattle.inp_client.specs.Read.{clients_on};
ghost use Rattle.inp_client.specs.Locations.{clients_in, AreLocated};
ghost use Rattle.inp_client.specs.Numbers.{held_numbers, stored_of, held_places, loses, is_lost_to_clock, IsStoredOnce, IsClockStored, IsRingChanged, IsRingFlushed, IsRingClosed};
ghost use Rattle.inp_client.specs.declared.open_refused.OpenRefused.TheVariants.{TooMany};

use crate::client::Client;
use crate::frame::{Frame, RUN_MAX, RUN_SHORT, offer_events, offer_run, takers_of_all};
use crate::location::{Location, index_of, place_for};
use crate::open_refused::OpenRefused;
use crate::readable::write_readable;
use inp_caps::Caps;
use inp_model::{CLIENTS_MAX, Clock, Event, MOMENT_MAX, NoMemory, Taken};
use inp_ring::Store;
use slab::Slab;
use std::alloc::Global;
use std::marker::Model;

/// The open clients of a device, at most 64, each under its number (evdev's clients).
///
/// They ascend by number, so that one is found by binary search. Each event of a frame that a client's queue holds is
/// kept once, as a cell that all of them share. A contract sees the list of the open clients, ascending by number, each
/// with its queue of cells, and the numbers of the cells.
#[derive(Drop)]
pub struct Clients {
    alloc: Global,
    slab: Slab<Client>,
    // Where each client lies in the slab, ascending by number.
    locations: Vec<Location>,
    store: Store,
    // How many cells the store has room for: for each ring one more than it has places.
    cells: u32,
}

impl Model for Clients {
    ghost use Rattle.inp_client.specs.Clients.{ClientsView};
    ghost use Rattle.inp_client.specs.Kept.{kept_view, AreKept};

    ghost Value = { ClientsView };

    ghost view = { kept_view };

    ghost invariant = { AreKept };
}

impl Clients {
    /// No client, with room for 64. It is refused for memory alone.
    pub fn new(alloc: Global) -> Result<Clients, NoMemory>
        ensures none { IfOk result (λ clients. clients ≡ record { list = []; rings = [] }) }
    {
        Ok(Clients {
            alloc,
            slab: Slab::with_capacity(alloc, CLIENTS_MAX as usize)?,
            locations: Vec::with_capacity(alloc, CLIENTS_MAX as usize)?,
            store: Store::new(alloc),
            cells: 0,
        })
    }

    /// Opens a client, with an empty ring of 64 to 4,096 places, all bits of its masks set, on the realtime clock.
    ///
    /// The store grows first, by one cell more than the ring has places, so that no other call takes memory. No open
    /// client may have the number. It is refused where 64 are open, and may be refused for want of memory; nothing
    /// changes then.
    pub fn open(&mut self, number: u32, ring: u32) -> Result<(), OpenRefused>
        requires ring { (64 ≤ ring) × (ring ≤ 4096) }
        requires unused { has_client number self.old.list ≡ false }
        ensures too_many { (result ≡ Err TooMany) ↔ (length self.old.list ≡ CLIENTS_MAX) }
        ensures ok { OnOk result
            (self.new.list ≡ with_client (new_client number ring) self.old.list) }
        ensures err { OnErr result (self.new ≡ self.old) }
        ensures numbers { held_numbers self.new ≡ held_numbers self.old }
    {
        if self.locations.len() == CLIENTS_MAX as usize {
            return Err(OpenRefused::TooMany);
        }
        let cells = self.cells + ring + 1;
        self.store.grow(cells)?;
        let client = Client::new(self.alloc, number, ring)?;
        let key = self.slab.insert_reserved(client);
        let place = place_for(&self.locations, number);
        self.locations
            .insert(place, Location { number, key })
            .unwrap();
        self.cells = cells;
        Ok(())
    }

    /// Closes an open client. What is queued for it is lost.
    pub fn close(&mut self, number: u32)
        requires open { has_client number self.old.list ≡ true }
        ensures closed { self.new.list ≡ without_client number self.old.list }
        ensures rings { IsRingClosed number self.old self.new }
    {
        let index = index_of(&self.locations, number).unwrap();
        let location = self.locations.remove(index);
        let mut client = self.slab.remove(location.key);
        client.clear(&mut self.store);
        self.cells -= client.places() + 1;
    }

    /// An open client loses the device for good: no frame is offered to it any more. It stays open, and what is queued
    /// for it stays.
    pub fn revoke(&mut self, number: u32)
        requires open { has_client number self.old.list ≡ true }
        ensures revoked { self.new.list ≡ map_client number after_revoke self.old.list }
        ensures numbers { self.new.rings ≡ self.old.rings }
    {
        let key = key_of(&self.locations, &self.slab, number);
        self.slab[key].revoke();
    }

    /// Whether a client with this number is open.
    pub fn is_open(&self, number: u32) -> bool
        ensures open { result ≡ has_client number self.now.list }
    {
        index_of(&self.locations, number).is_some()
    }

    /// Whether an open client was revoked.
    pub fn is_revoked(&self, number: u32) -> bool
        requires open { has_client number self.now.list ≡ true }
        ensures revoked { result ≡ has_revoked_client number self.now.list }
    {
        let key = key_of(&self.locations, &self.slab, number);
        self.slab[key].is_revoked()
    }

    /// The clock by which an open client reads its events.
    pub fn clock(&self, number: u32) -> Clock
        requires open { has_client number self.now.list ≡ true }
        ensures clock { result ≡ clock_of_client number self.now.list }
    {
        let key = key_of(&self.locations, &self.slab, number);
        self.slab[key].clock()
    }

    /// 64 bits of one of an open client's masks, from `64 * word` on, the first as the lowest bit. The mask of types goes
    /// by `EV_SYN`.
    pub fn mask_word(&self, number: u32, kind: u16, word: u16) -> u64
        requires open { has_client number self.now.list ≡ true }
        requires kind { has_mask kind ≡ true }
        requires word { word < mask_words kind }
        ensures word { word_bits result
            ≡ word_of word (mask_of (masks_of_client number self.now.list) kind) }
    {
        let key = key_of(&self.locations, &self.slab, number);
        self.slab[key].mask_word(kind, word)
    }

    /// How many clients are open, at most 64. A client that was revoked is open until it is closed.
    pub fn count(&self) -> u32
        ensures count { result ≡ length self.now.list }
        ensures few { result ≤ CLIENTS_MAX }
    {
        self.locations.len() as u32
    }

    /// How many events are kept: each event of a frame that at least one queue holds, once, and each SYN_DROPPED.
    ///
    /// It is as many as there are different numbers in the rings. So it is at least the length of the longest queue,
    /// and at least how many steps the queued events came from. It is at most the length of all queues together.
    pub fn stored(&self) -> u32
        ensures stored { result ≡ stored_of self.now }
        ensures places { length (held_places self.now.list) ≤ result }
        ensures least { All (λ c. length c.ring.events ≤ result) self.now.list }
        ensures most { result ≤ sum_by (λ c. length c.ring.events) self.now.list }
    {
        self.store.count()
    }

    /// Sets 64 bits of one of an open client's masks, from `64 * word` on, the lowest bit of `bits` first. The mask of
    /// types goes by `EV_SYN`. What is queued stays.
    ///
    /// Bits past a mask's end, and the bit of `EV_SYN`, may be cleared, and that changes nothing.
    pub fn set_mask(&mut self, number: u32, kind: u16, word: u16, bits: u64)
        requires open { has_client number self.old.list ≡ true }
        requires kind { has_mask kind ≡ true }
        requires word { word < mask_words kind }
        ensures set { self.new.list ≡ map_client number (after_mask kind word bits) self.old.list }
        ensures numbers { self.new.rings ≡ self.old.rings }
    {
        let key = key_of(&self.locations, &self.slab, number);
        self.slab[key].set_mask(kind, word, bits);
    }

    /// Chooses the clock by which an open client reads its events, at a moment in microseconds and at the place of the
    /// step in the history. A client's offset is added when it reads.
    ///
    /// Where the clock is another one than before and the queue is not empty, all of it is lost: SYN_DROPPED stands in
    /// its place. So all of a queue is on the present clock.
    pub fn set_clock(&mut self, number: u32, clock: Clock, now: u64, place: u32)
        requires open { has_client number self.old.list ≡ true }
        requires moment { now ≤ MOMENT_MAX }
        ensures set { self.new.list
            ≡ map_client number (after_clock clock now place) self.old.list }

        // The other rings stay, and a client that loses its queue has one SYN_DROPPED.
        ensures once { IsClockStored number clock self.old self.new }
        ensures stored { stored_of self.new ≤ stored_of self.old
            + count_by (is_lost_to_clock number clock) self.old.list }
    {
        let key = key_of(&self.locations, &self.slab, number);
        self.slab[key].set_clock(&mut self.store, clock, now, place);
    }

    /// How many events an open client may read: those up to the last SYN_REPORT.
    pub fn visible(&self, number: u32) -> u32
        requires open { has_client number self.now.list ≡ true }
        ensures visible { result ≡ visible event_of_cell (events_of number self.now.list) }
    {
        let key = key_of(&self.locations, &self.slab, number);
        self.slab[key].visible(&self.store)
    }

    /// Writes the numbers of the open clients that could read something now, ascending, to the front of a buffer, as many
    /// as fit, and says how many there are in all. The rest of the buffer stays.
    pub fn readable(&self, numbers: &mut [u32]) -> u32
        ensures count { result ≡ length (readable_in event_of_cell self.now.list) }
        ensures few { result ≤ CLIENTS_MAX }
        ensures written { let readable = readable_in event_of_cell self.now.list in
            numbers.new ≡ written (take (length numbers.old) readable) numbers.old }
    {
        write_readable(&self.locations, &self.slab, &self.store, numbers)
    }

    /// Moves the first `count` visible events of an open client, or as many as there are, to the front of a buffer, and
    /// says how many. Each is read on the client's clock. The rest of the buffer stays. The buffer must have room for
    /// `count`.
    pub fn take(&mut self, caps: &Caps, number: u32, count: u32, out: &mut [Taken]) -> u32
        requires open { has_client number self.old.list ≡ true }
        requires room { count ≤ length out.old }
        ensures count { result
            ≡ min count (visible event_of_cell (events_of number self.old.list)) }
        ensures taken { let queue = events_of number (clients_on caps.now self.old.list) in
            out.new ≡ written (take result queue) out.old }
        ensures rest { self.new.list ≡ map_client number (after_take result) self.old.list }
        ensures rings { IsRingChanged number (drop result) self.old self.new }
    {
        let key = key_of(&self.locations, &self.slab, number);
        self.slab[key].take(&mut self.store, caps, count, out)
    }

    /// Removes all visible events of an open client, unread, and says how many they were.
    pub fn discard(&mut self, number: u32) -> u32
        requires open { has_client number self.old.list ≡ true }
        ensures count { result ≡ visible event_of_cell (events_of number self.old.list) }
        ensures rest { self.new.list ≡ map_client number (after_take result) self.old.list }
        ensures rings { IsRingChanged number (drop result) self.old self.new }
    {
        let key = key_of(&self.locations, &self.slab, number);
        self.slab[key].discard(&mut self.store)
    }

    /// Removes an open client's queued events of a type, as the answer to a query of its codes does. The type must not
    /// be `EV_SYN`.
    pub fn flush(&mut self, number: u32, kind: u16)
        requires open { has_client number self.old.list ≡ true }
        requires not_syn { kind ≢ EV_SYN }
        ensures flushed { self.new.list
            ≡ map_client number (after_flush event_of_cell (Codes kind)) self.old.list }
        ensures rings { IsRingFlushed number (Codes kind) self.old self.new }
    {
        let key = key_of(&self.locations, &self.slab, number);
        self.slab[key].flush(&mut self.store, kind);
    }

    /// Removes an open client's queued multi-touch events, as the answer to a query of all slots does.
    pub fn flush_slots(&mut self, number: u32)
        requires open { has_client number self.old.list ≡ true }
        ensures flushed { self.new.list
            ≡ map_client number (after_flush event_of_cell Slots) self.old.list }
        ensures rings { IsRingFlushed number Slots self.old self.new }
    {
        let key = key_of(&self.locations, &self.slab, number);
        self.slab[key].flush_slots(&mut self.store);
    }

    /// Offers a frame to each open client, or to the holder of the grab alone, where there is one. A client that was
    /// revoked is offered none. Each client gets the events that its masks admit; each of them is kept once, whoever
    /// gets it. A client's offset is added when it reads.
    ///
    /// The frame ended at a moment in microseconds, and at the place of its step in the history. It takes no memory.
    pub fn offer(&mut self, frame: &[Event], now: u64, place: u32, holder: Option<u32>)
        requires moment { now ≤ MOMENT_MAX }
        ensures offered { self.new.list
            ≡ map (after_offer frame.now now place holder) self.old.list }

        // Each event is kept once, and each client that loses its queue has one SYN_DROPPED more.
        ensures once { IsStoredOnce frame.now now place holder self.old self.new }
        ensures stored { stored_of self.new ≤ stored_of self.old + length frame.now
            + count_by (loses frame.now now place holder) self.old.list }
    {
        if self.locations.is_empty() {
            return;
        }
        let frame = Frame {
            events: frame,
            moment: now,
            place,
            holder,
        };
        let locations = self.locations.as_slice();
        match takers_of_all(locations, &self.slab, &self.store, &frame) {
            Some(takers) if frame.events.len() <= RUN_SHORT => {
                offer_run::<RUN_SHORT>(locations, &mut self.slab, &mut self.store, &frame, takers);
            }
            Some(takers) => {
                offer_run::<RUN_MAX>(locations, &mut self.slab, &mut self.store, &frame, takers);
            }
            None => offer_events(locations, &mut self.slab, &mut self.store, &frame),
        }
    }
}

// The key of an open client.
fn key_of(locations: &[Location], slab: &Slab<Client>, number: u32) -> usize
    requires located { AreLocated locations.now slab.now }
    requires open { has_client number (clients_in locations.now slab.now) ≡ true }
    ensures location { Contains locations.now (record { number = number; key = result }) }
    ensures there { ContainsKey slab.now result }
{
    locations[index_of(locations, number).unwrap()].key
}
