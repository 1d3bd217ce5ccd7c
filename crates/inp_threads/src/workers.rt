//! The jobs of one device.
ghost use Rattle.std.specs.Prelude.{◌≡◌, ◌≤◌, ◌+◌, ◌&&◌, nat_eq, true, [], map, slice_get, All, IfOk, OnOk, Some};
ghost use Rattle.inp_actors.specs.declared.actor_text.TheConstants.{ACTORS_MAX};
ghost use Rattle.inp_actors.specs.Command.{is_source};
ghost use Rattle.inp_script.specs.Runs.{is_on_device};
ghost use Rattle.inp_script.specs.DoneLine.{source_count as sources_of};
ghost use Rattle.inp_runs.specs.Job.{wait_of};
ghost use Rattle.inp_turn.specs.Pass.{view_of};
ghost use Rattle.inp_turn.specs.PassView.{whole_share};
ghost use Rattle.inp_port.specs.Port.{IsReadyAt};
ghost use Rattle.inp_threads.specs.Lines.{AreLinesDealt};
ghost use Rattle.inp_threads.specs.Worker.{actor_number, IsPortOf, IsReadyOn, IsReadyToWork, AreDealt, AreDealtUpTo, IsWorked, IsWorkedFrom};

use crate::job_gate::AnyJob;
use crate::lines::LineLists;
use crate::worker::Worker;
use inp_actors::{ActorText, Record, Role};
use inp_edge::Gate;
use inp_model::NoMemory;
use inp_script::{Actor, Waiting};
use inp_turn::Pass;
use inp_uinput::{UPort, Udev};
use std::alloc::Global;
use std::sync::Wait;
use std::thread;
use std::thread::Threads;

// The actors of a device, each with a pass that was split off this one.
pub(crate) fn deal(
    alloc: Global,
    rec: &Record,
    device: u32,
    port: &UPort,
    pass: &mut Pass<Udev>,
) -> Result<Vec<Worker>, NoMemory>
    requires port { IsPortOf port.now rec.now device }
    requires ready { IsReadyAt port.now pass.old }
    requires seen { (view_of pass.old).seen ≡ [] }
    requires own { (view_of pass.old).own ≡ [] }
    requires whole { (view_of pass.old).share ≡ whole_share }
    ensures dealt { IfOk result (λ workers.
        AreDealt port.now rec.now device pass.new workers.items) }
{
    let mut workers = Vec::new(alloc);
    for number in 0..rec.actors().len() as u32 {
        if rec.actors().get(number as usize).device == device {
            deal_one(alloc, rec, number, device, port, pass, &mut workers)?;
        }
    }
    Ok(workers)
}

// One actor of the device more.
fn deal_one(
    alloc: Global,
    rec: &Record,
    number: u32,
    device: u32,
    port: &UPort,
    pass: &mut Pass<Udev>,
    workers: &mut Vec<Worker>,
) -> Result<(), NoMemory>
    requires actor { is_on_device device (slice_get rec.now.actors number) ≡ true }
    requires few { number ≤ ACTORS_MAX }
    requires port { IsPortOf port.now rec.now device }
    requires dealt { AreDealtUpTo port.now rec.now device number pass.old workers.old.items }
    ensures dealt { OnOk result (AreDealtUpTo port.now rec.now device (number + 1)
        pass.new workers.new.items) }
{
    let actor = Actor::new(alloc, rec, number)?;
    workers.push(Worker {
        actor,
        number,
        pass: Some(port.split(pass)),
        is_done: false,
    })?;
    Ok(())
}

// Has each worker do its lines, on a thread of its own.
pub(crate) fn run_all<R: Threads + Wait + Sync, G: Gate>(
    rt: &R,
    port: &UPort,
    rec: &Record,
    lists: &LineLists,
    device: u32,
    idle: u32,
    workers: &mut Vec<Worker>,
    gate: &G,
)
    requires bound { 1 ≤ idle }
    requires lines { AreLinesDealt rec.now lists.now }
    requires ready { All (IsReadyOn port.now rec.now device) workers.old.items }
    ensures worked { All (IsWorked port.now rec.now (wait_of (Some idle) rec.now device))
        workers.new.items }
    ensures numbers { map actor_number workers.new.items ≡ map actor_number workers.old.items }
{
    let waiting = Waiting {
        idle,
        sources: source_count(rec, device),
    };
    let count = workers.len().max(1);
    thread::for_each_mut(
        rt,
        workers,
        count,
        &|_, worker: &mut Worker|
            requires { IsReadyToWork port.now rec.now lists.now waiting worker.now }
            ensures { IsWorkedFrom port.entry.now rec.entry.now waiting
                worker.entry.now worker.exit.now }
        {
            worker.work(rt, port, rec, lists, waiting, &AnyJob { gate });
        },
    );
}

// How many sources a device has.
fn source_count(rec: &Record, device: u32) -> u32
    ensures { result ≡ sources_of rec.now device }
{
    let mut count = 0;
    for actor in rec.actors().as_slice() {
        if is_source_of(actor, device) {
            count += 1;
        }
    }
    count
}

// Whether an actor is a source of this device.
fn is_source_of(actor: &ActorText, device: u32) -> bool
    ensures { result ≡ (is_source actor.now.role && nat_eq actor.now.device device) }
{
    match actor.role {
        Role::Source => actor.device == device,
        Role::Client | Role::Tap | Role::Joy | Role::Owner => false,
    }
}
