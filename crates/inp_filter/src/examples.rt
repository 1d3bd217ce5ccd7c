//! What the definitions compute on short frames.
ghost use Rattle.inp_filter.specs.Examples.{LeavesAll, EatsACode, EatsNoReport, EatsRepeats, EatsTheSecondKey, DecidesAtThePress, DecidesAnew, NeedsAPress, EatsABounce, EatsInTime, BouncesAnew, EatsWithinAFrame, GivesWhatIsLeft, GivesInOrder, ChordsBehindABounce};

/// What the definitions of this crate compute on short frames that were worked out by hand. It does nothing: its
/// contract is the point.
#[tactic(auto, unfolding(crate::proofs::Computation::computing))]
pub fn examples()
    ensures none { LeavesAll }
    ensures code { EatsACode }
    ensures report { EatsNoReport }
    ensures repeats { EatsRepeats }
    ensures chord { EatsTheSecondKey }
    ensures press { DecidesAtThePress }
    ensures down { DecidesAnew }
    ensures no_press { NeedsAPress }
    ensures bounce { EatsABounce }
    ensures time { EatsInTime }
    ensures bounce_down { BouncesAnew }
    ensures frame { EatsWithinAFrame }
    ensures row { GivesWhatIsLeft }
    ensures order { GivesInOrder }
    ensures two_kinds { ChordsBehindABounce }
{}
