//! An actor of a record at work.
ghost use Rattle.inp_model.specs.declared.step.Step.{Step as AStep};
ghost use Rattle.std.specs.Prelude.{◌≡◌, ◌<◌, false, List, length, OnOk, IfOk, IfSome, Some};
ghost use Rattle.inp_model.specs.Injection.{AreInTime};
ghost use Rattle.inp_model.specs.Leaves.{IsLeft};
ghost use Rattle.inp_actors.specs.declared.role.Role.TheVariants.{Source};
ghost use Rattle.inp_actors.specs.Command.{is_owner};
ghost use Rattle.inp_script.specs.ActorLine.{Acts, BeginsToAct};
ghost use Rattle.inp_script.specs.Owner.{first_owning};
ghost use Rattle.inp_script.specs.DoneLine.{Begins, BeginsLine, DoesLine, Holds, HasActor, IsLineOf, IsWaiting, inject_talk};
ghost use Rattle.inp_script.specs.Legal.{CountsTurns, GainsPlaces, StaysLegal};
ghost use Rattle.inp_script.specs.Fold.{IsFolded, StaysFolded};
ghost use Rattle.inp_script.specs.Ended.{HasDeviceSlots, ended_as};
ghost use Rattle.inp_script.specs.Job.{first_job};
ghost use Rattle.inp_script.specs.Line.{end_talk};

use crate::notes::Notes;
use crate::role::state::RoleState;
use crate::stops::last_stop;
use crate::{Ended, Sights, Waiting};
use inp_actors::Record;
use inp_feedback::Feeds;
use inp_model::{Evdev, NoMemory, Stamped, Step};
use std::alloc::Global;
use std::marker::Model;

/// An actor of a record at work: a source, a tap, a client, a joystick or an owner. It does its lines one by one over
/// whatever evdev it is lent, an owner over whatever answers feedback calls, and keeps what it saw.
///
/// A contract sees its number, its role, its device's description, its job, and what it keeps as an owner. The job is
/// the reader, the client or the joystick client that it reads as, what it saw, and why it stopped, if it did. After a
/// call answered `NoMemory` the actor is given up: no contract says what it saw in that call. Which calls were made,
/// and what they left of the evdev, is said then too.
#[derive(Drop)]
pub struct Actor {
    actor: u32,
    notes: Notes,
    state: RoleState,
}

impl Model for Actor {
    ghost use Rattle.inp_script.specs.Legal.{GainsPlaces, StaysLegal};
    ghost use Rattle.inp_script.specs.Job.{ActorView};

    ghost Value = { ActorView };

    ghost use Rattle.inp_script.specs.Actor.{actor_view, IsActor};

    ghost view = { actor_view };

    ghost invariant = { IsActor };
}

impl Actor {
    /// The actor of this number of the record, which has seen nothing.
    ///
    /// It takes all memory that its calls need, but for what it will see. `NoMemory` comes where memory is short.
    pub fn new(alloc: Global, rec: &Record, actor: u32) -> Result<Actor, NoMemory>
        requires actor { actor < length rec.now.actors }
        ensures number { IfOk result (λ new. new.actor ≡ actor) }
        ensures actor { IfOk result (HasActor rec.now) }
        ensures job { IfOk result (λ new. new.job ≡ first_job new.role new.description) }
        ensures owning { IfOk result (λ new. new.owning ≡ first_owning) }
        ensures view { IfOk result (λ new. (history : List AStep) →
            IsFolded new.role new.description history new.job) }
    {
        let text = rec.actors().get(actor as usize);
        let caps = &rec.devices().get(text.device as usize).caps;
        let state = RoleState::new(alloc, caps, text.role)?;
        let notes = Notes {
            sight: Sights::new(alloc),
            stop: None,
        };
        Ok(Actor {
            actor,
            notes,
            state,
        })
    }

    /// Which actor of the record it is, from 0.
    pub fn number(&self) -> u32
        ensures number { result ≡ self.now.actor }
    {
        self.actor
    }

    /// Does the line of this number on an evdev, or nothing where the actor has stopped. Nobody owns that device, so
    /// that a line of an owner is nothing.
    ///
    /// Where a [`Waiting`] is given, a `follow` goes on while nothing is visible, until all sources of the device are
    /// done. Or it goes on until so many reads in a row found nothing that the actor stops with `Stop::Idle`. No other
    /// line waits.
    ///
    /// `NoMemory` comes where memory is short for what the actor saw, and where an `open` was refused for want of
    /// memory.
    ///
    /// Whatever the answer, the calls that were made are the first ones of what the line asks for, each by the answers
    /// before it (`begun`). After `Ok` they are all of it (`done`). After `NoMemory` no further call was made: how many
    /// were, is not said. The calls are all that was done with the evdev (`left`). So its description and its tie are
    /// as before, what was seen is still there, and its own places are those from before and those of these calls. The
    /// calls are a legal run of what is seen afterwards, and what is seen stays a history of accepted steps.
    pub fn line<E: Evdev>(
        &mut self,
        dev: &mut E,
        rec: &Record,
        line: u32,
        wait: Option<Waiting>,
    ) -> Result<(), NoMemory>
        requires actor { HasActor rec.now self.old }
        requires line { IsLineOf rec.now line self.old.actor }
        requires device { (E.told dev.old).description ≡ self.old.description }
        requires wait { IfSome wait (IsWaiting rec.now self.old) }
        ensures done { OnOk result (DoesLine (E.told dev.old) (E.told dev.new)
            self.old rec.now wait line self.new.job) }
        ensures begun { BeginsLine (E.told dev.old) (E.told dev.new) self.old rec.now wait line }
        ensures places { OnOk result (GainsPlaces (E.told dev.old) (E.told dev.new)
            self.old.job.sight self.new.job.sight) }
        ensures legal { OnOk result (StaysLegal self.old.description
            (E.told dev.old) (E.told dev.new) self.old.job.sight self.new.job.sight) }
        ensures view { OnOk result (StaysFolded self.old.role self.old.description
            (E.told dev.new) self.old.job self.new.job) }
        ensures turns { OnOk result (CountsTurns (E.told dev.old) (E.told dev.new)
            self.old.job self.new.job) }
        ensures actor { self.new ≡ record self.old { job = self.new.job } }
        ensures left { IsLeft (E.told dev.old) (E.told dev.new) }
    {
        let command = &rec.lines().get(line as usize).command;
        if self.notes.stop.is_some() {
            return Ok(());
        }
        self.state
            .do_command(dev, &mut self.notes, rec, command, wait)
    }

    /// Does the line of this number on a device that the actor may own, or nothing where it has stopped. An owner makes
    /// the feedback call of its line, and notes the answer and the events. The call has room for so many events, but
    /// for no more than ever wait, which are 15. Any other actor makes the calls of [`line`](Actor::line).
    ///
    /// After `Full` an owner has stopped. `NoMemory` comes where memory is short for what the actor saw or was told,
    /// and where an `open` was refused for want of memory. Whatever the answer, the calls that were made are the first
    /// ones of what the line asks for (`begun`). After `Ok` they are all of it (`done`).
    pub fn do_line<D: Evdev + Feeds>(
        &mut self,
        dev: &mut D,
        rec: &Record,
        line: u32,
        wait: Option<Waiting>,
    ) -> Result<(), NoMemory>
        requires actor { HasActor rec.now self.old }
        requires line { IsLineOf rec.now line self.old.actor }
        requires device { is_owner self.old.role ≡ false
            → (D.told dev.old).description ≡ self.old.description }
        requires wait { IfSome wait (IsWaiting rec.now self.old) }
        ensures done { OnOk result (Acts D.told D.feeds dev.old dev.new
            rec.now wait line self.old self.new) }
        ensures begun { BeginsToAct D.told D.feeds dev.old dev.new rec.now wait line self.old }
        ensures actor { self.new ≡ record self.old {
          job = self.new.job;
          owning = self.new.owning;
        } }
    {
        let command = &rec.lines().get(line as usize).command;
        match &mut self.state {
            RoleState::Owner { owner, .. } => owner.do_command(dev, command),
            _ => self.line(dev, rec, line, wait),
        }
    }

    /// Injects events as a source, each at its own moment, or does nothing where it has stopped. It is what lines do
    /// that inject these events one after another, by one call for a thousand of them.
    ///
    /// The first event for which the log limit leaves no room is refused and stops the source, and no event after it is
    /// injected. `NoMemory` comes where memory is short for what the actor saw. Whatever the answer, the calls that
    /// were made are the first ones of what is asked for (`begun`). After `Ok` they are all of it (`done`).
    pub fn inject_all<E: Evdev>(&mut self, dev: &mut E, events: &[Stamped]) -> Result<(), NoMemory>
        requires source { self.old.role ≡ Source }
        requires moments { AreInTime events.now }
        ensures done { OnOk result (Holds (E.told dev.old) (E.told dev.new)
            (inject_talk events.now self.old.job) (Some self.new.job)) }
        ensures begun { Begins (E.told dev.old) (E.told dev.new)
            (inject_talk events.now self.old.job) }
        ensures actor { self.new ≡ record self.old { job = self.new.job } }
        ensures left { IsLeft (E.told dev.old) (E.told dev.new) }
    {
        if self.notes.stop.is_none() {
            return self.notes.inject_all(dev, events);
        }
        Ok(())
    }

    /// Makes the step `End`, by which a source says that it is done, or does nothing where the actor has stopped.
    ///
    /// `NoMemory` comes where memory is short for what the actor saw. No other call was made then either (`begun`), and
    /// what was done with the evdev is calls, as after [`line`](Actor::line).
    pub fn end<E: Evdev>(&mut self, dev: &mut E) -> Result<(), NoMemory>
        requires source { self.old.role ≡ Source }
        requires device { (E.told dev.old).description ≡ self.old.description }
        ensures done { OnOk result (Holds (E.told dev.old) (E.told dev.new)
            (end_talk self.old.job.stop self.old.job) (Some self.new.job)) }
        ensures begun { Begins (E.told dev.old) (E.told dev.new)
            (end_talk self.old.job.stop self.old.job) }
        ensures places { OnOk result (GainsPlaces (E.told dev.old) (E.told dev.new)
            self.old.job.sight self.new.job.sight) }
        ensures legal { OnOk result (StaysLegal self.old.description
            (E.told dev.old) (E.told dev.new) self.old.job.sight self.new.job.sight) }
        ensures view { OnOk result (StaysFolded self.old.role self.old.description
            (E.told dev.new) self.old.job self.new.job) }
        ensures actor { self.new ≡ record self.old { job = self.new.job } }
        ensures left { IsLeft (E.told dev.old) (E.told dev.new) }
    {
        if self.notes.stop.is_some() {
            return Ok(());
        }
        self.notes.call(dev, Step::End)?;
        Ok(())
    }

    /// The result of the job. An actor that did not stop has finished. It takes no memory.
    pub fn finish(self) -> Ended
        ensures ended { result ≡ ended_as self.role self }
        ensures cells { HasDeviceSlots self.description result }
    {
        let Actor {
            actor,
            notes,
            state,
        } = self;
        let Notes { sight, stop } = notes;
        state.end(actor, sight, last_stop(stop))
    }
}
