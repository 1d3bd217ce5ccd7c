//! What the definitions compute of a few events and answers.
ghost use Rattle.inp_recon.specs.FaithfulExamples.{FollowsTheDevice, MeetsTheLaw, FollowsSlots, NeedsALaterFrame, IsRightFromTheNextFrameOn, NeedsAllQueries, NeedsNoLoss, NeedsNoGrab, NeedsNoGrabOfKeys, NeedsNoMask, NeedsNoFilter, FollowsBehindAFilter, NeedsNoDescriptionInTheBatch, NeedsNoDescriptionSince, FollowsUpToADescription, FollowsFromADescriptionOn, PromisesNothingWithoutAFrame, FindsTheRead, ViewsEachEntry};
ghost use Rattle.inp_recon.specs.Examples.{BeginsWithoutContacts, TakesNoRepeat, TakesSwitchesAndLeds, TakesAnAxis, TakesNoOther, TakesNoOtherSlot, GoesOnInTheSlotTold, TellsKeys, TellsAnAxis, TellsNoOther};

/// What the definitions of this crate compute of a few events and answers that were worked out by hand. It does
/// nothing: its contract is the point.
#[tactic(auto, unfolding(crate::proofs::Computation::computing))]
pub fn examples()
    ensures unseen { BeginsWithoutContacts }
    ensures repeat { TakesNoRepeat }
    ensures switches { TakesSwitchesAndLeds }
    ensures moves { TakesAnAxis }
    ensures other { TakesNoOther }
    ensures other_slot { TakesNoOtherSlot }
    ensures goes_on { GoesOnInTheSlotTold }
    ensures keys { TellsKeys }
    ensures axis { TellsAnAxis }
    ensures no_other { TellsNoOther }
{}

/// When the view of a client is the device's state, and what each condition for it is good for. It is what the
/// definitions of this crate compute of short histories that were worked out by hand. It does nothing: its contract is
/// the point.
#[tactic(auto, unfolding(crate::proofs::Computation::computing))]
pub fn faithful_examples()
    ensures follows { FollowsTheDevice }
    ensures law { MeetsTheLaw }
    ensures slots { FollowsSlots }
    ensures later { NeedsALaterFrame }
    ensures next_frame { IsRightFromTheNextFrameOn }
    ensures queries { NeedsAllQueries }
    ensures losses { NeedsNoLoss }
    ensures grab { NeedsNoGrab }
    ensures grab_of_keys { NeedsNoGrabOfKeys }
    ensures mask { NeedsNoMask }
    ensures filter { NeedsNoFilter }
    ensures behind_filter { FollowsBehindAFilter }
    ensures described { NeedsNoDescriptionInTheBatch }
    ensures described_since { NeedsNoDescriptionSince }
    ensures described_later { FollowsUpToADescription }
    ensures described_before { FollowsFromADescriptionOn }
    ensures described_unframed { PromisesNothingWithoutAFrame }
    ensures read_of_entry { FindsTheRead }
    ensures view_at_entry { ViewsEachEntry }
{}
