//! What the definitions compute on short histories.
ghost use Rattle.inp_reader.specs.Examples.{SynchronisesAfterALoss, EndsAContactFirst, StartsInPart, SyncsWithoutACall, StopsForGood};
ghost use Rattle.inp_reader.specs.StandingExamples.{FollowsItsClient, StandsAfterAFrame, SeesWhoUsesItsClient, BeginsAnewAfterALoss};

/// What the definitions of this crate compute on short histories that were worked out by hand. It does nothing: its
/// contract is the point.
#[tactic(auto, unfolding(inp_model::proofs::Computation::computing, crate::proofs::Computation::computing_reader))]
pub fn examples()
    ensures loss { SynchronisesAfterALoss }
    ensures contact { EndsAContactFirst }
    ensures part { StartsInPart }
    ensures plain { SyncsWithoutACall }
    ensures stops { StopsForGood }
    ensures follows { FollowsItsClient }
    ensures stands { StandsAfterAFrame }
    ensures uses { SeesWhoUsesItsClient }
    ensures anew { BeginsAnewAfterALoss }
{}
