//! What holds of the synthesised events, and of the views that a reader keeps. Each function is a law: it does nothing,
//! and its contract is proved of the definitions that the contracts of [`Reader`](crate::Reader) name.
ghost use Rattle.inp_reader.specs.Laws.{LeadsToTheNewView, HasNoIdleEvent, HasFewEvents};
ghost use Rattle.inp_reader.specs.KeptViews.{NewViewIsKept, KeptViewsAreOfOneDevice, StartKeepsTheView, NextKeepsTheView, SynchronisesItsView, HandsOutTheRest};

/// The laws of the events that a reader synthesises to lead from an old view of its device to a new one.
///
/// The old view that takes them over, in order, is the new one. Each of them but a report changes the view that takes
/// it over. There are at most 948, and 17 a slot. They are 768 keys, 64 LEDs, 64 switches, 49 axes and 14 values of
/// each slot, each once at most. Each slot may add an end of a contact and two ABS_MT_SLOT. Last come one ABS_MT_SLOT,
/// and two reports.
///
/// Both views are sized for the same device and agree on the axes 0x2f to 0x3d, as any two views of a reader do
/// ([`views`]). The current slots may be ones that the device has not, and the tracking ids any numbers.
pub fn synthesis()
    ensures new_view { LeadsToTheNewView }
    ensures no_idle_event { HasNoIdleEvent }
    ensures few { HasFewEvents }
{}

/// The laws of the views that a reader keeps, over any evdev of its description.
///
/// A new view is sized for the device's slots and has the axes 0x2f to 0x3d at 0. A reader that has such a view before
/// a [`start`](crate::Reader::start) or a [`next`](crate::Reader::next) has one afterwards, so the laws of
/// [`synthesis`] hold of any two of its views.
///
/// Where a `next` in [`Sync`](crate::Mode::Sync) mode synchronises, it and the later ones hand out synthesised events.
/// These lead from the view that the reader had to the one that it has. Once `Synced` is answered no such event is
/// left.
pub fn views()
    ensures new_view { NewViewIsKept }
    ensures one_device { KeptViewsAreOfOneDevice }
    ensures start { StartKeepsTheView }
    ensures next { NextKeepsTheView }
    ensures synchronises { SynchronisesItsView }
    ensures hands_out { HandsOutTheRest }
{}
