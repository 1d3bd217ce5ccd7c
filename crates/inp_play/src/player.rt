//! The devices and the actors of a record at work.
ghost use Rattle.std.specs.Prelude.{◌≡◌, ◌<◌, length, map, IfOk};
ghost use Rattle.inp_script.specs.Ended.{played_of};
ghost use Rattle.inp_runs.specs.Job.{AreDescribed};
ghost use Rattle.inp_runs.specs.Play.{first_stage, runs_of};
ghost use Rattle.inp_play.specs.Player.{stage_of, first_device, first_actors, HasActors, IsPlayer, DoesOn};

use crate::gathered_runs::{histories, push_end};
use inp_actors::Record;
use inp_model::{NoMemory, Stamped};
use inp_runs::{NO_STAMPED, gather_front};
use inp_script::{Actor, Played};
use inp_uinput::Owned;
use std::alloc::Global;

/// How many lines are done together at most (this project's choice).
const RUN_MAX: usize = 64;

/// The devices and the actors of a record, each in file order, with what they did so far.
#[derive(Drop)]
pub(crate) struct Player {
    devices: Vec<Owned>,
    actors: Vec<Actor>,
    // The events of the lines that are done together.
    events: [Stamped; RUN_MAX],
}

impl Player {
    // The devices and the actors of a record before its first line.
    pub(crate) fn new(alloc: Global, rec: &Record) -> Result<Player, NoMemory>
        ensures player { IfOk result (IsPlayer rec.now) }
        ensures stage { IfOk result (λ player. stage_of player ≡ first_stage rec.now) }
        ensures described { IfOk result (λ _. AreDescribed rec.now) }
    {
        Ok(Player {
            devices: first_devices(alloc, rec)?,
            actors: first_actors(alloc, rec)?,
            events: [NO_STAMPED; RUN_MAX],
        })
    }

    // Has its actor do the line of this number on its device, and where it injects an event, those after it too that
    // inject one of the same actor. Says how many lines were done.
    pub(crate) fn lines(&mut self, rec: &Record, line: u32) -> Result<u32, NoMemory>
        requires player { IsPlayer rec.now self.old }
        requires line { line < length rec.now.lines }
        ensures done { IfOk result (λ count. DoesOn rec.now line count self.old self.new) }
        ensures player { IfOk result (λ _. IsPlayer rec.now self.new) }
    {
        let lines = rec.lines();
        let text = lines.get(line as usize);
        let lines = &lines.as_slice()[line as usize..];
        let count = gather_front(lines, text.actor, &mut self.events);
        let device = rec.actors().get(text.actor as usize).device;
        let dev = &mut self.devices[device as usize];
        let actor = &mut self.actors[text.actor as usize];
        if count == 0 {
            actor.do_line(dev, rec, line, None)?;
            return Ok(1);
        }
        actor.inject_all(dev, &self.events[..count])?;
        Ok(count as u32)
    }

    // The results of the devices and of the actors.
    pub(crate) fn finish(self, alloc: Global, rec: &Record) -> Result<Played, NoMemory>
        requires player { IsPlayer rec.now self }
        ensures played { IfOk result (λ played. played ≡
            played_of (runs_of rec.now (stage_of self))) }
    {
        let Player {
            devices,
            actors,
            ..
        } = self;
        let mut gathered = histories(alloc, devices)?;
        for actor in actors {
            let device = rec.actors().get(actor.number() as usize).device;
            push_end(&mut gathered, device as usize, actor.finish())?;
        }
        Played::of(alloc, gathered)
    }
}

// The devices of a record before its first line. Each was made for a description.
fn first_devices(alloc: Global, rec: &Record) -> Result<Vec<Owned>, NoMemory>
    ensures devices { IfOk result (λ devices. devices.items ≡ map first_device rec.now.devices) }
    ensures described { IfOk result (λ _. AreDescribed rec.now) }
{
    let mut devices = Vec::new(alloc);
    for device in rec.devices().as_slice() {
        devices.push(Owned::new(alloc, device.caps.copy())?)?;
    }
    Ok(devices)
}

// The actors of a record before its first line.
fn first_actors(alloc: Global, rec: &Record) -> Result<Vec<Actor>, NoMemory>
    ensures first { IfOk result (λ actors. actors.items ≡ first_actors rec.now) }
    ensures actors { IfOk result (λ actors. HasActors rec.now actors.items) }
{
    let mut actors = Vec::new(alloc);
    for actor in 0..rec.actors().len() as u32 {
        actors.push(Actor::new(alloc, rec, actor)?)?;
    }
    Ok(actors)
}
