//! What a flush removes.
ghost use Rattle.std.specs.Prelude.{◌≡◌};
ghost use Rattle.inp_model.specs.Step.{is_part_of};
ghost use Rattle.inp_ring.specs.Class.{query_of_class};

use inp_model::Event;

/// A class of events that the answer to a query tells whole, so that a flush removes them.
#[derive(Clone, Copy, Debug, PartialEq, Eq)]
pub enum Class {
    /// The codes of a type, as all keys.
    Kind(u16),
    /// All values of all slots.
    MultiTouch,
}

impl Class {
    /// Whether an event is of the class.
    pub fn has(self, event: Event) -> bool
        ensures part { result ≡ is_part_of (query_of_class self) event }
    {
        match self {
            Class::Kind(kind) => event.kind == kind,
            Class::MultiTouch => event.is_multi_touch(),
        }
    }
}
