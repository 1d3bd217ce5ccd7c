//! What the definitions say of short records.
ghost use Rattle.inp_record.specs.Examples.{RefusesOtherBytes, RefusesHeaders, RefusesLines, RefusesPlaces, RefusesActors, RefusesCommands, RefusesWords, RefusesRepeats, RefusesMore, RefusesDescriptions, RefusesFilters, RefusesJoysticks, RefusesOwners, AcceptsLines, MeansRecords, MeansActions, MeansStreams};
ghost use Rattle.inp_record.specs.canon.Examples.{WritesAKeyboard, WritesARequestedDevice, WritesAVersion, WritesSlots, WritesCodesAscending, WritesFiltersInOrder, WritesActorsOfTheDevice, WritesCommands};

/// What short records mean, and which line of others is refused and why, worked out by hand. It has each cause at the
/// lines that can have it, and of two causes that one line has the one that comes first. It does nothing: its contract
/// is the point.
#[tactic(auto, unfolding(crate::proofs::Computation::record_computing, crate::specs::Stream::stamps_from))]
pub fn examples()
    ensures other_bytes { RefusesOtherBytes }
    ensures headers { RefusesHeaders }
    ensures lines { RefusesLines }
    ensures places { RefusesPlaces }
    ensures actors { RefusesActors }
    ensures commands { RefusesCommands }
    ensures words { RefusesWords }
    ensures repeats { RefusesRepeats }
    ensures more { RefusesMore }
    ensures descriptions { RefusesDescriptions }
    ensures filters { RefusesFilters }
    ensures joysticks { RefusesJoysticks }
    ensures owners { RefusesOwners }
    ensures accepted { AcceptsLines }
    ensures records { MeansRecords }
    ensures actions { MeansActions }
    ensures streams { MeansStreams }
{}

/// The canonical text of a few records, worked out by hand. It does nothing: its contract is the
/// point.
#[tactic(auto, unfolding(crate::proofs::Computation::text_computing))]
pub fn text_examples()
    ensures keyboard { WritesAKeyboard }
    ensures requested { WritesARequestedDevice }
    ensures version { WritesAVersion }
    ensures slots { WritesSlots }
    ensures codes { WritesCodesAscending }
    ensures filters { WritesFiltersInOrder }
    ensures actors { WritesActorsOfTheDevice }
    ensures commands { WritesCommands }
{}
