//! What the definitions say of a few records.
ghost use Rattle.inp_report.specs.Examples.{ShowsAPress, ShowsItsHistory, ShowsAFullHistory, CountsNoEnd, ShowsAClient, ShowsALoss, ShowsEachClass, ShowsIdle, ShowsContacts, ShowsAJoystick, ShowsAnAxisBelowNought, ShowsAnOwner, ShowsNoRefusedFeedback, SumsUp};

/// What the definitions of this crate make of a few records and of their results, worked out by hand. It does nothing:
/// its contract is the point.
#[tactic(auto, unfolding(crate::proofs::Computation::computing))]
pub fn examples()
    ensures press { ShowsAPress }
    ensures history { ShowsItsHistory }
    ensures full { ShowsAFullHistory }
    ensures end { CountsNoEnd }
    ensures client { ShowsAClient }
    ensures loss { ShowsALoss }
    ensures classes { ShowsEachClass }
    ensures idle { ShowsIdle }
    ensures contacts { ShowsContacts }
    ensures joystick { ShowsAJoystick }
    ensures below_nought { ShowsAnAxisBelowNought }
    ensures owner { ShowsAnOwner }
    ensures refused { ShowsNoRefusedFeedback }
    ensures summary { SumsUp }
{}
