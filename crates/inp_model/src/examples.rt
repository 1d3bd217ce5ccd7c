//! What the definitions compute on short histories.
ghost use Rattle.inp_model.specs.examples.Queries.{TellsTheKeys, RemovesQueuedKeys, LeavesAxisEvents, AnswersOtherAxes, EndsAtItsLimit};
ghost use Rattle.inp_model.specs.examples.Slots.{NamesTheSlot, TellsAllSlots, TellsOneValue, GoesOnInTheSlot, RemovesQueuedTouches, TellsTheNamedSlot, StagesSlotsThatThereAre, PassesNoNameAlone, PassesWithoutSlots, CountsTheName, CutsAtTheHint, RefusesSlotQueries};
ghost use Rattle.inp_model.specs.examples.Frames.{RingOf128, ReadsAFrame, PassesAChangeOnce, ReadsNothing, NeedsAClient, ReadsNone, ReadsInParts, HidesAnOpenBatch, OffersAWholeFrame, PassesARepeat, KeepsTheKeyUp, IgnoresOthers, CutsAFullBatch, LosesAFullRing, LosesInAFrame, KeepsAllButOne, IsLegalAmongOthers, DescribesAKeyboard, PassesAnLedOnce, PassesASwitchOnce, PassesEachSound, PassesMotion, PassesAMove, PassesASetting};
ghost use Rattle.inp_model.specs.examples.Clients.{LosesASmallRing, LosesBeforeTheReport, DiscardsAll, ForgetsAClosedClient, OpensSixtyFour, MasksAKey, MasksTypes, ChangesTheClock, KeepsTime, GrabsOnce, GrabsFrames, WritesToAll, RevokesForGood, RefusesInOrder};
ghost use Rattle.inp_model.specs.examples.Axes.{DescribesAnAxis, MovesByTheNewFuzz, LeavesTheBatch, DescribesWhileInhibited, TakesAnyValue, RefusesDescriptions};
ghost use Rattle.inp_model.specs.examples.Filters.{EatsAChord, EatsABounce, EatsAutorepeats, PassesByAGrab, LeavesAReport, GivesWhatIsLeft};
ghost use Rattle.inp_model.specs.examples.Injections.{CountsToTheLimit, EntersToTheLimit, CallsToTheLimit};
ghost use Rattle.inp_model.specs.examples.Repeats.{RepeatsAKey, StopsAtARelease, RepeatsOnce, RepeatsTheLastKey, InhibitsADevice, InhibitsOnce, CountsEnds};

/// What the definitions of this crate compute on short histories that were worked out by hand. It does nothing: its
/// contract is the point.
#[tactic(auto, unfolding(crate::proofs::Computation::computing))]
pub fn examples()
    ensures ring { RingOf128 }
    ensures frame { ReadsAFrame }
    ensures change { PassesAChangeOnce }
    ensures again { ReadsNothing }
    ensures client { NeedsAClient }
    ensures none { ReadsNone }
    ensures parts { ReadsInParts }
    ensures batch { HidesAnOpenBatch }
    ensures late { OffersAWholeFrame }
    ensures repeat { PassesARepeat }
    ensures key_up { KeepsTheKeyUp }
    ensures ignored { IgnoresOthers }
    ensures full_batch { CutsAFullBatch }
    ensures full { LosesAFullRing }
    ensures in_frame { LosesInAFrame }
    ensures in_time { KeepsAllButOne }
    ensures run { IsLegalAmongOthers }
    ensures keyboard { DescribesAKeyboard }
    ensures led { PassesAnLedOnce }
    ensures switch { PassesASwitchOnce }
    ensures sound { PassesEachSound }
    ensures motion { PassesMotion }
    ensures moves { PassesAMove }
    ensures setting { PassesASetting }
{}

/// The same of queries, and of a history at its limit.
#[tactic(auto, unfolding(crate::proofs::Computation::computing))]
pub fn query_examples()
    ensures keys { TellsTheKeys }
    ensures removed { RemovesQueuedKeys }
    ensures left { LeavesAxisEvents }
    ensures axes { AnswersOtherAxes }
    ensures limit { EndsAtItsLimit }
{}

/// The same of devices with slots, and of full batches.
#[tactic(auto, unfolding(crate::proofs::Computation::computing))]
pub fn slot_examples()
    ensures named { NamesTheSlot }
    ensures all { TellsAllSlots }
    ensures one { TellsOneValue }
    ensures goes_on { GoesOnInTheSlot }
    ensures removed { RemovesQueuedTouches }
    ensures axis { TellsTheNamedSlot }
    ensures staged { StagesSlotsThatThereAre }
    ensures unchanged { PassesNoNameAlone }
    ensures without { PassesWithoutSlots }
    ensures counted { CountsTheName }
    ensures full { CutsAtTheHint }
    ensures refused { RefusesSlotQueries }
{}

/// The same of clients: of rings that are full, of clients that discard, close, mask, grab, write and change clocks,
/// and of those that are revoked.
#[tactic(auto, unfolding(crate::proofs::Computation::computing))]
pub fn client_examples()
    ensures full { LosesASmallRing }
    ensures in_frame { LosesBeforeTheReport }
    ensures discarded { DiscardsAll }
    ensures closed { ForgetsAClosedClient }
    ensures many { OpensSixtyFour }
    ensures masked { MasksAKey }
    ensures types { MasksTypes }
    ensures clock { ChangesTheClock }
    ensures time { KeepsTime }
    ensures grab { GrabsOnce }
    ensures frames { GrabsFrames }
    ensures written { WritesToAll }
    ensures revoked { RevokesForGood }
    ensures refused { RefusesInOrder }
{}

/// The same of the autorepeat, of inhibitions, and of sources that are done.
#[tactic(auto, unfolding(crate::proofs::Computation::computing))]
pub fn repeat_examples()
    ensures repeats { RepeatsAKey }
    ensures stops { StopsAtARelease }
    ensures once { RepeatsOnce }
    ensures last { RepeatsTheLastKey }
    ensures inhibited { InhibitsADevice }
    ensures twice { InhibitsOnce }
    ensures ends { CountsEnds }
{}

/// The same of axes that are described anew.
#[tactic(auto, unfolding(crate::proofs::Computation::computing))]
pub fn axis_examples()
    ensures described { DescribesAnAxis }
    ensures moves { MovesByTheNewFuzz }
    ensures batch { LeavesTheBatch }
    ensures inhibited { DescribesWhileInhibited }
    ensures value { TakesAnyValue }
    ensures refused { RefusesDescriptions }
{}

/// The same of devices with filters.
#[tactic(auto, unfolding(crate::proofs::Computation::computing))]
pub fn filter_examples()
    ensures chord { EatsAChord }
    ensures bounce { EatsABounce }
    ensures repeats { EatsAutorepeats }
    ensures grab { PassesByAGrab }
    ensures report { LeavesAReport }
    ensures row { GivesWhatIsLeft }
{}

/// The same of many events that are injected by one call, at a limit of three steps.
pub fn injecting_examples()
    ensures counts { CountsToTheLimit }
    ensures history { EntersToTheLimit }
    ensures calls { CallsToTheLimit }
{}
