//! What is true of all that is promised of runs, by the definitions alone.
ghost use Rattle.inp_runs.specs.OwnerExamples.{TakesTheBellOnce, StopsAtItsLimit};
ghost use Rattle.inp_runs.specs.IndexExamples.{CountsBehindTheLastRead, TellsEqualEventsApart, CountsAcceptedReadsOfItsClient};
ghost use Rattle.inp_runs.specs.Done.{AllAsPromised, DevicesDoneArePromised, OwnersLinesAreCalls};
ghost use Rattle.inp_runs.specs.Job.{JobsShowTheDevice};
ghost use Rattle.inp_runs.specs.LossCauses.{AreQueuedCaused, AreTakenCaused};
ghost use Rattle.inp_runs.specs.Play.{HasOnePlay};
ghost use Rattle.inp_runs.specs.Promised.{EachPlayIsPromised};

/// The result of a device whose actors did all their lines is promised, in whatever order their steps were made. It
/// does nothing: its contract is the point.
///
/// Let each actor's calls be a legal run of the device's history, and its job be what its lines and the answers to
/// these calls make. Let its view, if its result has one, have the device's slots, and let each place of the history be
/// one accepted call of one actor (`IsDeviceDone`). Then all that is promised of a device holds of the history and of
/// the results of the actors (`IsRun`).
pub fn devices_done_are_promised()
    ensures promised { DevicesDoneArePromised }
{}

/// Where all is promised of the result of each device, all is promised of the result of the record. It does nothing:
/// its contract is the point.
pub fn all_as_promised()
    ensures promised { AllAsPromised }
{}

/// At each report that a job took, its view up to then is the device's state at the end of that report's frame. This
/// holds where its client could follow the device up to there. It does nothing: its contract is the point.
pub fn jobs_show_the_device()
    ensures shown { JobsShowTheDevice }
{}

/// Which event of its client a job took last, computed on a short sight. It does nothing: its contract is the point.
pub fn indices_on_a_short_sight()
    ensures counts { CountsBehindTheLastRead }
    ensures apart { TellsEqualEventsApart }
    ensures own_client { CountsAcceptedReadsOfItsClient }
{}

/// The result of an owner, computed on a short row of a step and its calls. It does nothing: its contract is the point.
pub fn owners_on_a_short_row()
    ensures once { TakesTheBellOnce }
    ensures limit { StopsAtItsLimit }
{}

/// Each line of an owner of a record is a feedback call. It does nothing: its contract is the point.
pub fn owners_lines_are_calls()
    ensures calls { OwnersLinesAreCalls }
{}

/// A client loses events for two causes alone. It does nothing: its contract is the point.
///
/// For every description, every list of steps and every client: let a `SYN_DROPPED` be queued for the client, or taken
/// by it. Then the step at its place did one of two things (`IsCausedAt`).
///
/// - It ended frames, and one of their events came to the client's ring while all places but one were taken
///   (`MeetsFullRing`).
/// - It changed the client's clock to another one while events were queued (`ChangesClock`).
pub fn losses()
    ensures queued { AreQueuedCaused }
    ensures taken { AreTakenCaused }
{}

/// Two plays of one record give the same. It does nothing: its contract is the point.
pub fn at_most_one_play()
    ensures one_play { HasOnePlay }
{}

/// The result of a record whose lines are done in file order is promised. It does nothing: its contract is the point.
pub fn each_play_is_promised()
    ensures promised { EachPlayIsPromised }
{}
