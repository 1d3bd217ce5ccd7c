//! Playing a record on threads.
ghost use Rattle.std.specs.Prelude.{◌≡◌, ◌≤◌, length, map, IfOk, IfSome, Some};
ghost use Rattle.inp_runs.specs.Job.{ArePromised};
ghost use Rattle.inp_threads.specs.Promise.{IsPromisedOf, IsToBeRun};

use crate::device_run::run_device;
use crate::lines::deal_lines;
use inp_actors::Record;
use inp_edge::Gate;
use inp_model::NoMemory;
use inp_script::{DeviceEnds, Played};
use std::alloc::Global;
use std::sync::Wait;
use std::thread;
use std::thread::Threads;

/// The result of a record whose sources, clients, taps, joysticks and owners do their lines on a thread each.
///
/// `idle` is how long a line `follow` waits. After so many answers in a row that nothing is visible the job stops as
/// idle, unless all sources of its device are done before, which ends the line. It must be at least 1.
///
/// All devices are played side by side. Each device has a thread, and each of its actors one more. Where no thread can
/// be made, jobs are done one after another. Before each call a job passes the gate, an owner before each feedback
/// call.
///
/// It takes the memory for all that each device may keep, for the numbers of the lines, of the actors, and of what they
/// see. `NoMemory` comes where memory is short, once all jobs have ended, and none of their results is given then.
/// Nothing says that the call returns.
pub fn play_on_threads<R: Threads + Wait + Sync, G: Gate>(
    rt: &R,
    alloc: Global,
    rec: &Record,
    idle: u32,
    gate: &G,
) -> Result<Played, NoMemory>
    requires bound { 1 ≤ idle }
    ensures promised { IfOk result (ArePromised (Some idle) rec.now) }
{
    let lists = deal_lines(alloc, rec)?;
    let mut outcomes = no_outcomes(alloc, rec.devices().len())?;
    let count = outcomes.len().max(1);
    thread::for_each_mut(
        rt,
        &mut outcomes,
        count,
        &|i, outcome: &mut Option<DeviceEnds>|
            requires { IsToBeRun idle rec.now lists i }
            ensures { IfSome outcome.exit.now (IsPromisedOf idle rec.entry.now i) }
        {
            *outcome = run_device(rt, alloc, rec, &lists, i as u32, idle, gate).ok();
        },
    );
    let devices = collect(alloc, outcomes)?;
    Played::of(alloc, devices)
}

// So many outcomes, of which none has come yet.
fn no_outcomes(alloc: Global, count: usize) -> Result<Vec<Option<DeviceEnds>>, NoMemory>
    ensures count { IfOk result (λ outcomes. length outcomes.items ≡ count) }
{
    let mut outcomes = Vec::new(alloc);
    for _ in 0..count {
        outcomes.push(None)?;
    }
    Ok(outcomes)
}

// The results of the devices, where each outcome has come.
fn collect(alloc: Global, outcomes: Vec<Option<DeviceEnds>>) -> Result<Vec<DeviceEnds>, NoMemory>
    ensures devices { IfOk result (λ devices. map Some devices.items ≡ outcomes.items) }
{
    let mut devices = Vec::new(alloc);
    for outcome in outcomes {
        let Some(device) = outcome else {
            return Err(NoMemory);
        };
        devices.push(device)?;
    }
    Ok(devices)
}
