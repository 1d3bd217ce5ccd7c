//! What holds of all kept lists.
ghost use Rattle.inp_feedback.specs.Laws.{WaitsOfAllSent};

/// Where no feedback call was made, the last 15 events at most of all that was sent in the history wait. It does
/// nothing: its contract is the point.
pub fn waiting()
    ensures all { WaitsOfAllSent }
{}
