//! What follows from the definitions alone.
ghost use Rattle.inp_alike.specs.Alike.{AreAnsweredAlike};

/// What a later step can tell of a past (`AreAlike`): the core's state and its batch, the timer, the holder of the grab, the
/// inhibition, the open clients with the events in their queues, their clocks, masks and revocations, what the filters decide,
/// and how many sources are done. It does nothing: its contract is the point.
///
/// Of two pasts that are alike in these each step is answered alike, but for places and times, and they stay alike. So a tool
/// that asks what may come of a device has to keep no more of it. Both histories have room for the step, or neither has: how
/// long a history is decides nothing else.
pub fn alike_pasts()
    ensures answers { AreAnsweredAlike }
{}
