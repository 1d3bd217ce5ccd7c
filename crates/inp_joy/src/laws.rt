//! What holds of startups and pictures. The function is a law: it does nothing, and its contract is proved of the
//! definitions that the contracts of [`Joy`](crate::Joy) name.
ghost use Rattle.inp_joy.specs.Laws.{StartupIsWhole, StartupIsShort, StartupLeadsToItsView, EventLeadsToItsView, ViewHasTheDevicesPicture, BytesTellTheRecord};

/// The laws of what a joystick client's records tell.
///
/// A startup has a record of each button and axis, at most 113. It leads a blank picture to the buttons and cut axes of
/// the view that it is made from. From there on the record of each event, where it gives one, leads the picture to
/// those of the view after the event. Where it gives no record they are the same. Where a view is the device's state,
/// its buttons and cut axes are the device's. The bytes of a record tell it.
pub fn pictures()
    ensures whole { StartupIsWhole }
    ensures short { StartupIsShort }
    ensures startup { StartupLeadsToItsView }
    ensures event { EventLeadsToItsView }
    ensures device { ViewHasTheDevicesPicture }
    ensures bytes { BytesTellTheRecord }
{}
