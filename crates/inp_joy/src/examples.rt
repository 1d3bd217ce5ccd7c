//! What the definitions compute on short histories.
ghost use Rattle.inp_joy.specs.Examples.{TellsAPressAndAMove, BeginsAnewAfterALoss};

/// What the definitions of this crate compute on short histories that were worked out by hand. It does nothing: its
/// contract is the point.
#[tactic(auto, unfolding(inp_model::proofs::Computation::computing, inp_reader::proofs::Computation::computing_reader, crate::specs::Codes::codes_among, crate::specs::Codes::buttons, crate::specs::Joy::startup, crate::specs::Joy::joy_start, crate::specs::Joy::sync_turn, crate::specs::Joy::event_turn, crate::specs::Joy::turns, crate::specs::Picture::picture_after))]
pub fn examples()
    ensures press { TellsAPressAndAMove }
    ensures loss { BeginsAnewAfterALoss }
{}
