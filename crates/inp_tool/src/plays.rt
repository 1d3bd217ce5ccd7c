//! Playing a record, and telling its result.
ghost use Rattle.std.specs.Prelude.{◌≡◌, ◌≤◌, [], IfOk, IfSome, None};
ghost use Rattle.inp_make.specs.Generated.{generated};
ghost use Rattle.inp_report.specs.Summary.{summary};
ghost use Rattle.inp_report.specs.Whole.{whole_report};
ghost use Rattle.std.specs.List.{list_any};
ghost use Rattle.inp_script.specs.declared.run.Run.{Run};
ghost use Rattle.inp_script.specs.Job.{JobView, JoyJobView, OwnerView};
ghost use Rattle.inp_tool.specs.Outcome.{has_full, is_stopped_full};
ghost use Rattle.inp_tool.specs.Promise.{IsResultOf};

use inp_edge::Gate;
use inp_make::make;
use inp_model::NoMemory;
use inp_play::play;
use inp_record::Record;
use inp_report::{summary, whole_report};
use inp_script::{Jobs, JoyRuns, OwnerRuns, Played, Runs, Stop};
use inp_threads::play_on_threads;
use std::alloc::Global;
use std::sync::Wait;
use std::thread::Threads;

/// The result of a record, and its report.
pub(crate) fn play_and_report<R: Threads + Wait + Sync, G: Gate>(
    rt: &R,
    alloc: Global,
    recorded: &Record,
    history: bool,
    idle: Option<u32>,
    gate: &G,
) -> Result<(Played, Vec<u8>), NoMemory>
    requires bound { IfSome idle (λ most. 1 ≤ most) }
    ensures came { IfOk result (λ done. IsResultOf idle recorded.now done.0) }
    ensures text { IfOk result
        (λ done. (done.1).items ≡ whole_report recorded.now history done.0) }
{
    let played = play_as_asked(rt, alloc, recorded, idle, gate)?;
    let text = whole_report(alloc, recorded, &played, history)?;
    Ok((played, text))
}

/// The result of a record: on threads where a bound is given, and else on one thread.
fn play_as_asked<R: Threads + Wait + Sync, G: Gate>(
    rt: &R,
    alloc: Global,
    recorded: &Record,
    idle: Option<u32>,
    gate: &G,
) -> Result<Played, NoMemory>
    requires bound { IfSome idle (λ most. 1 ≤ most) }
    ensures came { IfOk result (IsResultOf idle recorded.now) }
{
    match idle {
        Some(idle) => play_on_threads(rt, alloc, recorded, idle, gate),
        None => play(alloc, recorded),
    }
}

/// The result of the record that is made from a number and a count of frames, and its summary. It has no joystick and
/// no owner.
pub(crate) fn make_and_play(
    alloc: Global,
    number: u32,
    count: u32,
) -> Result<(Played, Vec<u8>), NoMemory>
    requires few { count ≤ 10000 }
    ensures came { IfOk result (λ done. IsResultOf None (generated number count) done.0) }
    ensures text { IfOk result
        (λ done. (done.1).items ≡ summary number count (generated number count) (done.0).runs) }
    ensures joys { IfOk result (λ done. (done.0).joys ≡ []) }
    ensures owners { IfOk result (λ done. (done.0).owners ≡ []) }
{
    let made = make(alloc, number, count)?;
    let played = play(alloc, &made)?;
    let text = summary(alloc, number, count, &made, &played.runs)?;
    Ok((played, text))
}

/// Whether a job stopped since a history was full, or an owner since its calls were as many as may be kept.
pub(crate) fn has_full(played: &Played) -> bool
    ensures { result ≡ has_full played.now }
{
    has_full_run(&played.runs) || has_full_joy(&played.joys) || has_full_owner(&played.owners)
}

/// Whether a job of a device stopped since the history was full.
fn has_full_run(runs: &Runs) -> bool
    ensures { result ≡ list_any (λ (run : Run).
        list_any (λ (job : JobView). is_stopped_full job.stop) run.jobs) runs.now }
{
    runs.as_slice().iter().any(|run| has_full_job(&run.jobs))
}

/// Whether one of these jobs stopped since a history was full.
fn has_full_job(jobs: &Jobs) -> bool
    ensures { result ≡ list_any (λ (job : JobView). is_stopped_full job.stop) jobs.now }
{
    jobs.as_slice()
        .iter()
        .any(|job| is_stopped_full(job.stop()))
}

/// Whether a joystick's job stopped since a history was full.
fn has_full_joy(joys: &JoyRuns) -> bool
    ensures { result ≡ list_any (λ (joy : JoyJobView). is_stopped_full joy.stop) joys.now }
{
    joys.as_slice()
        .iter()
        .any(|joy| is_stopped_full(joy.stop()))
}

/// Whether an owner stopped since its calls were as many as may be kept.
fn has_full_owner(owners: &OwnerRuns) -> bool
    ensures { result ≡ list_any (λ (owner : OwnerView). is_stopped_full owner.stop) owners.now }
{
    owners
        .as_slice()
        .iter()
        .any(|owner| is_stopped_full(owner.stop()))
}

/// Whether a job stopped since a list was full.
fn is_stopped_full(stop: &Stop) -> bool
    ensures { result ≡ is_stopped_full stop.now }
{
    match stop {
        Stop::Full { .. } => true,
        Stop::Finished | Stop::Idle { .. } => false,
    }
}
