//! A frame, and how it comes into the rings of clients.
ghost use Rattle.std.specs.Prelude.{◌≡◌, ℕ, ◌≤◌, ◌<◌, ◌++◌, true, length, map, All, IfSome};
ghost use Rattle.inp_model.specs.declared.limits.TheConstants.{CLIENTS_MAX};
ghost use Rattle.inp_model.specs.declared.stamped.TheConstants.{MOMENT_MAX};
ghost use Rattle.inp_ring.specs.Ring.{AreDifferent};
ghost use Rattle.inp_ring.specs.Store.{held_under, held_by, IsIdle};
ghost use Rattle.inp_client.specs.Locations.{clients_in, AreLocated};
ghost use Rattle.inp_client.specs.Member.{AreStored};
ghost use Rattle.inp_client.specs.Offered.{AreShared, IsOffered, IsEventOffered, IsEnteredTo, FitsInOneRun, TakesFrame, takers_in, with_run, are_reports_apart};

use crate::client::Client;
use crate::location::Location;
use inp_model::{CLIENTS_MAX, Event, MOMENT_MAX};
use inp_ring::{Cell, Store};
use slab::Slab;

/// A frame, as it is offered.
#[derive(Clone, Copy)]
pub struct Frame<'a> {
    pub events: &'a [Event],
    /// When it ended, in microseconds.
    pub moment: u64,
    /// The place of its step in the history.
    pub place: u32,
    /// The client that holds the grab.
    pub holder: Option<u32>,
}

/// A frame of at most so many events is put into the rings in one run.
pub const RUN_MAX: usize = 64;

/// Most frames have at most so many events (this project's choice). Less is set aside for their numbers.
pub const RUN_SHORT: usize = 4;

/// How many clients take a frame, where each that is offered it takes all of it. None tells nothing.
pub fn takers_of_all(
    locations: &[Location],
    slab: &Slab<Client>,
    store: &Store,
    frame: &Frame<'_>,
) -> Option<u32>
    requires located { AreLocated locations.now slab.now }
    requires few { length locations.now ≤ CLIENTS_MAX }
    ensures all { IfSome result (FitsInOneRun locations.now slab.now store.now frame.now) }
{
    let count = frame.events.len();
    if count > RUN_MAX || count > store.spare() as usize || !are_reports_apart(frame.events) {
        return None;
    }
    let takers = takers_of(locations, slab, count, frame.holder)?;
    if takers == 0 {
        return None;
    }
    Some(takers)
}

/// Whether no SYN_REPORT of a frame stands first or after another one.
fn are_reports_apart(frame: &[Event]) -> bool
    ensures apart { result ≡ are_reports_apart true frame.now }
{
    let mut behind = true;
    for event in frame {
        let is_report = event.is_report();
        if is_report && behind {
            return false;
        }
        behind = is_report;
    }
    true
}

/// How many clients are offered a frame of so many events, where each of them takes all. None tells nothing.
fn takers_of(
    locations: &[Location],
    slab: &Slab<Client>,
    count: usize,
    holder: Option<u32>,
) -> Option<u32>
    requires located { AreLocated locations.now slab.now }
    requires few { length locations.now ≤ CLIENTS_MAX }
    requires short { count ≤ 4096 }
    ensures takers { IfSome result (λ takers.
        takers ≡ takers_in holder (clients_in locations.now slab.now)) }
    ensures all { IfSome result (λ takers.
        All (TakesFrame holder count) (clients_in locations.now slab.now)) }
{
    let mut takers = 0;
    for location in locations {
        let client = &slab[location.key];
        if !client.is_offered_to(holder) {
            continue;
        }
        if !client.takes_all(count) {
            return None;
        }
        takers += 1;
    }
    Some(takers)
}

/// Puts a frame of at most `N` events in one run into the ring of each client that is offered it: so many, which all take
/// all of it. First comes a cell for each event, and then all their numbers enter each ring.
pub fn offer_run<const N: usize>(
    locations: &[Location],
    slab: &mut Slab<Client>,
    store: &mut Store,
    frame: &Frame<'_>,
    takers: u32,
)
    requires before { AreShared locations.now slab.old store.old }
    requires run { FitsInOneRun locations.now slab.old store.old frame.now takers }
    requires short { length frame.now.events.now ≤ N }
    requires few { N ≤ RUN_MAX }
    requires moment { frame.now.moment ≤ MOMENT_MAX }
    ensures { IsOffered frame.now locations.now slab.old slab.new store.old store.new }
{
    let mut numbers = [0; N];
    for at in 0..frame.events.len() {
        let cell = Cell {
            event: frame.events[at],
            now: frame.moment,
            place: frame.place,
        };
        numbers[at] = store.add_held_by(cell, takers);
    }
    append_each(
        locations,
        slab,
        &numbers[..frame.events.len()],
        frame.holder,
    );
}

/// Puts the numbers of a frame's cells into the ring of each client that the frame is offered to.
fn append_each(
    locations: &[Location],
    slab: &mut Slab<Client>,
    numbers: &[u32],
    holder: Option<u32>,
)
    requires located { AreLocated locations.now slab.old }
    requires room { All (TakesFrame holder (length numbers.now))
        (clients_in locations.now slab.old) }
    requires different { All (λ m. AreDifferent (m.ring.events ++ numbers.now))
        (clients_in locations.now slab.old) }
    ensures located { AreLocated locations.now slab.new }
    ensures members { clients_in locations.now slab.new
        ≡ map (with_run holder numbers.now) (clients_in locations.now slab.old) }
    ensures capacity { slab.new.capacity ≡ slab.old.capacity }
{
    for location in locations {
        slab[location.key].append_all(numbers, holder);
    }
}

/// Offers the events of a frame to the client in each location, one by one. There must be a client.
pub fn offer_events(
    locations: &[Location],
    slab: &mut Slab<Client>,
    store: &mut Store,
    frame: &Frame<'_>,
)
    requires before { AreShared locations.now slab.old store.old }
    requires some { 0 < length locations.now }
    requires few { length locations.now ≤ CLIENTS_MAX }
    requires moment { frame.now.moment ≤ MOMENT_MAX }
    ensures { IsOffered frame.now locations.now slab.old slab.new store.old store.new }
{
    for event in frame.events {
        let cell = Cell {
            event: *event,
            now: frame.moment,
            place: frame.place,
        };
        offer_cell(locations, slab, store, cell, frame.holder);
    }
}

/// Offers one event of a frame to the client in each location. Its cell stays where somebody takes it.
fn offer_cell(
    locations: &[Location],
    slab: &mut Slab<Client>,
    store: &mut Store,
    cell: Cell,
    holder: Option<u32>,
)
    requires before { AreShared locations.now slab.old store.old }
    requires some { 0 < length locations.now }
    requires few { length locations.now ≤ CLIENTS_MAX }
    requires moment { cell.now ≤ MOMENT_MAX }
    ensures { IsEventOffered cell holder locations.now slab.old slab.new store.old store.new }
{
    let number = store.add(cell);
    let taken = enter_each(locations, slab, store, number, cell, holder);
    if taken == 0 {
        store.free(number);
        return;
    }
    store.hold_many(number, taken);
}

/// Puts the number of a cell that nobody holds into the ring of each client that takes it, and says how many do.
fn enter_each(
    locations: &[Location],
    slab: &mut Slab<Client>,
    store: &mut Store,
    number: u32,
    cell: Cell,
    holder: Option<u32>,
) -> u32
    requires located { AreLocated locations.now slab.old }
    requires stored { AreStored store.old (clients_in locations.now slab.old) (λ n. 0) }
    requires only { (n : ℕ) → IsIdle store.old n → n ≡ number }
    requires cell { held_under store.old number ≡ held_by 0 cell }
    requires few { length locations.now ≤ CLIENTS_MAX }
    requires moment { cell.now ≤ MOMENT_MAX }
    ensures entered { IsEnteredTo (length locations.now) cell holder number locations.now
        slab.old slab.new store.old store.new result }
{
    let mut taken = 0;
    for location in locations {
        taken += u32::from(slab[location.key].enter(store, number, cell.event, holder));
    }
    taken
}
