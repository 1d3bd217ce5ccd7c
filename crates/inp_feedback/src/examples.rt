//! What the definitions compute on short kept lists.
ghost use Rattle.inp_feedback.specs.Examples.{SendsAChangeOnce, KeepsFifteen, SendsInAnOpenBatch, SendsConfig, SendsASetting, SendsNoRepeat, SendsNothingWhileInhibited, FeedsInParts, KeepsCallsToItsLimit, SendsInOrder};

/// What the definitions of this crate compute on short kept lists that were worked out by hand. It does nothing: its
/// contract is the point.
#[tactic(auto, unfolding(crate::proofs::Computation::computing))]
pub fn examples()
    ensures once { SendsAChangeOnce }
    ensures fifteen { KeepsFifteen }
    ensures batch { SendsInAnOpenBatch }
    ensures config { SendsConfig }
    ensures setting { SendsASetting }
    ensures repeats { SendsNoRepeat }
    ensures inhibited { SendsNothingWhileInhibited }
    ensures parts { FeedsInParts }
    ensures limit { KeepsCallsToItsLimit }
    ensures order { SendsInOrder }
{}
