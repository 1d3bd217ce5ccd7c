//! Which clients could read something now.
ghost use Rattle.std.specs.Prelude.{◌≡◌, ◌≤◌, length, take, slice_set};
ghost use Rattle.inp_model.specs.declared.limits.TheConstants.{CLIENTS_MAX};
ghost use Rattle.inp_model.specs.Reply.{written};
ghost use Rattle.inp_ring.specs.Store.{event_of_cell};
ghost use Rattle.inp_client.specs.Clients.{readable_in};
ghost use Rattle.inp_client.specs.Locations.{clients_in, AreLocated};
ghost use Rattle.inp_client.specs.Member.{cells_in, AreStored};

use crate::client::Client;
use crate::location::Location;
use inp_ring::Store;
use slab::Slab;

/// Writes the numbers of the clients that could read something now to the front of a buffer, in the order of their
/// locations, as many as fit, and says how many there are in all. The rest of the buffer stays.
pub fn write_readable(
    locations: &[Location],
    slab: &Slab<Client>,
    store: &Store,
    numbers: &mut [u32],
) -> u32
    requires located { AreLocated locations.now slab.now }
    requires few { length locations.now ≤ CLIENTS_MAX }
    requires stored { AreStored store.now (clients_in locations.now slab.now) (λ n. 0) }
    ensures count { let clients = cells_in store.now (clients_in locations.now slab.now) in
        result ≡ length (readable_in event_of_cell clients) }
    ensures few { result ≤ CLIENTS_MAX }
    ensures written { let clients = cells_in store.now (clients_in locations.now slab.now) in
        numbers.new
        ≡ written (take (length numbers.old) (readable_in event_of_cell clients)) numbers.old }
{
    let mut count = 0;
    for location in locations {
        let client = &slab[location.key];
        if client.visible(store) == 0 {
            continue;
        }
        put_at(numbers, count, location.number);
        count += 1;
    }
    count
}

// Puts a number at a place of a buffer, where it has that place.
fn put_at(numbers: &mut [u32], place: u32, number: u32)
    ensures put { numbers.new ≡ slice_set numbers.old place number }
{
    if (place as usize) < numbers.len() {
        numbers[place as usize] = number;
    }
}
