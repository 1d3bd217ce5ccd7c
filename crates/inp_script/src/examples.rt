//! What the definitions compute on short records.
ghost use Rattle.inp_script.specs.Examples.{ReadsByHand, FollowsToTheEnd, HandsOutWhatIsMade, SkipsWhatIsMade, StopsAtTheLimit, GoesOnAfterRefusals, StopsWhereNothingComes, JoystickTells, JoystickBeginsAnew, RefusedQueryKeepsThePicture, RevokedKeepsThePicture, OwnerTakesWhatWasSent, OwnerStopsAtTheLimit};

/// What the definitions of this crate compute on short records that were worked out by hand. It does nothing: its
/// contract is the point.
#[tactic(auto, unfolding(inp_model::proofs::Computation::computing, inp_reader::proofs::Computation::computing_reader, crate::proofs::Computation::computing_jobs, crate::proofs::Computation::computing_joysticks))]
pub fn examples_of_jobs()
    ensures tap { ReadsByHand }
    ensures follow { FollowsToTheEnd }
    ensures made { HandsOutWhatIsMade }
    ensures skip { SkipsWhatIsMade }
    ensures full { StopsAtTheLimit }
    ensures refused { GoesOnAfterRefusals }
    ensures idle { StopsWhereNothingComes }
    ensures joystick { JoystickTells }
    ensures anew { JoystickBeginsAnew }
    ensures picture { RefusedQueryKeepsThePicture }
    ensures revoked { RevokedKeepsThePicture }
    ensures owner { OwnerTakesWhatWasSent }
    ensures refused_owner { OwnerStopsAtTheLimit }
{}
