//! Where a client is kept.
ghost use Rattle.std.specs.Prelude.{◌≡◌, false, IfSome, IfNone};
ghost use Rattle.inp_client.specs.Locations.{has_location, AreAscending, IsIndexOf, IsPlaceFor};

/// The number of a client, with its key in the slab.
#[derive(Clone, Copy)]
pub struct Location {
    pub number: u32,
    pub key: usize,
}

/// The index of the location with a number, among locations that ascend by number.
pub fn index_of(locations: &[Location], number: u32) -> Option<usize>
    requires ascending { AreAscending locations.now }
    ensures found { IfSome result (IsIndexOf locations.now number) }
    ensures none { IfNone result (has_location number locations.now ≡ false) }
{
    locations
        .binary_search_by_key(&number, |location| location.number)
        .ok()
}

/// The index at which a location with a number has its place, among locations that ascend by number.
pub fn place_for(locations: &[Location], number: u32) -> usize
    requires ascending { AreAscending locations.now }
    ensures place { IsPlaceFor locations.now number result }
{
    locations.partition_point(|location| location.number < number)
}
