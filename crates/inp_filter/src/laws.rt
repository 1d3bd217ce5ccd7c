//! What holds of all filters. Each function is a law: it does nothing, and its contract is proved of the definitions
//! that the contract of [`Filters::pass`](crate::Filters::pass) names.
ghost use Rattle.inp_filter.specs.Laws.{LeavesSyn, LeavesAllOfNone, LeavesOneAfterAnother, EatWholeHolds};

/// The laws of what filters in a row leave of a frame. They leave all events of `EV_SYN`, in order, and all of the
/// frame where there is no filter. They leave what the other filters leave of what the first one leaves.
pub fn rows()
    ensures syn { LeavesSyn }
    ensures none { LeavesAllOfNone }
    ensures one_after_another { LeavesOneAfterAnother }
{}

/// The law of holds, for the key whose holds a filter eats. An autorepeat or a release of it is eaten exactly where the
/// press before it was, if there is one and no release stands between. So a hold is eaten whole or left whole.
pub fn holds()
    ensures whole { EatWholeHolds }
{}
