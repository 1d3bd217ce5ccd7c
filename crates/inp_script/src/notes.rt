//! What a job saw, and why it stopped.
ghost use Rattle.std.specs.Prelude.{◌≡◌, ◌≤◌, ◌<◌, ◌+◌, ◌^◌, nat_le, [], ◌++◌, length, map, OnOk, IfOk, Some};
ghost use Rattle.inp_model.specs.declared.stamped.TheConstants.{MOMENT_MAX};
ghost use Rattle.inp_model.specs.Step.{moment_of};
ghost use Rattle.inp_model.specs.Reply.{HasRoom};
ghost use Rattle.inp_model.specs.Injection.{AreInTime, inject_of};
ghost use Rattle.inp_reader.specs.Reader.{ReaderState};
ghost use Rattle.inp_script.specs.DoneLine.{Begins, Holds};
ghost use Rattle.inp_script.specs.Line.{stream_talk};
ghost use Rattle.inp_script.specs.Notes.{IsStepMade, IsNoted, IsStartNoted, notes_after, entered_calls, injected_calls, job_of};
ghost use Rattle.inp_script.specs.Sight.{taken_sight, made_sight, sight_of_call, stop_after};

use crate::stops::{start_lacks_memory, stop_after, stop_after_start};
use crate::{Sight, Sights, Stop};
use inp_model::{Evdev, Injected, NoMemory, Refusal, Reply, Stamped, Step, Taken};
use inp_reader::{CallMade, Started};

/// How many events one call injects at most: others wait for their turn no longer than for these.
const STREAM_BATCH: usize = 1024;

/// What a job saw, and why it stopped, if it did.
#[derive(Drop)]
pub(crate) struct Notes {
    pub(crate) sight: Sights,
    pub(crate) stop: Option<Stop>,
}

impl Notes {
    // Adds the calls that a reader made.
    pub(crate) fn push_made(&mut self, made: &[CallMade]) -> Result<(), NoMemory>
        ensures { OnOk result
            (self.new ≡ record self.old { sight = self.old.sight ++ map made_sight made.now }) }
    {
        for call in made {
            self.sight.push_call(&call.step, &call.reply)?;
        }
        Ok(())
    }

    // Adds the calls of a start, and stops the job where it was refused for the limit. `NoMemory` comes too where
    // memory ran out in that start.
    pub(crate) fn note_start(&mut self, started: Started, made: &[CallMade]) -> Result<(), NoMemory>
        ensures { OnOk result (IsStartNoted started made.now self.old self.new) }
    {
        if start_lacks_memory(started) {
            return Err(NoMemory);
        }
        self.push_made(made)?;
        self.stop = stop_after_start(started);
        Ok(())
    }

    // Adds a call and the events that it read, or that nothing was visible. Stops the job where the call was refused
    // for the limit.
    pub(crate) fn note(
        &mut self,
        step: Step,
        reply: Reply,
        events: &[Taken],
    ) -> Result<(), NoMemory>
        ensures { OnOk result (self.new ≡ record {
          sight = self.old.sight ++ sight_of_call step reply events.now;
          stop = stop_after reply;
        }) }
    {
        match reply {
            Reply::Again { at, ends } => self.sight.push(Sight::Again { at, ends })?,
            _ => self.sight.push_call(&step, &reply)?,
        }
        self.sight.push_taken(events)?;
        self.stop = stop_after(reply);
        Ok(())
    }

    // Makes a step that writes to no buffer, and notes it. After `NoMemory` that one call was made.
    pub(crate) fn call<E: Evdev>(&mut self, dev: &mut E, step: Step) -> Result<Reply, NoMemory>
        requires moment { moment_of step ≤ MOMENT_MAX }
        requires room { HasRoom (E.told dev.old).description step [] [] }
        ensures noted { IfOk result
            (λ reply. IsNoted (E.told dev.old) (E.told dev.new) step reply self.old self.new) }
        ensures made { IsStepMade (E.told dev.old) (E.told dev.new) step }
    {
        let mut nothing: [Taken; 0] = [];
        let reply = dev.call(step, &mut nothing, &mut []);
        self.note(step, reply, &[])?;
        Ok(reply)
    }

    // Injects events, each at its own moment, and notes each as a call, up to the first that is refused.
    pub(crate) fn inject_all<E: Evdev>(
        &mut self,
        dev: &mut E,
        stream: &[Stamped],
    ) -> Result<(), NoMemory>
        requires in_time { AreInTime stream.now }
        ensures done { OnOk result ((r : ReaderState) → Holds (E.told dev.old) (E.told dev.new)
            (stream_talk stream.now (job_of r self.old)) (Some (job_of r self.new))) }
        ensures begun { (r : ReaderState) → Begins (E.told dev.old) (E.told dev.new)
            (stream_talk stream.now (job_of r self.old)) }
    {
        let mut rest = stream;
        while !rest.is_empty() {
            let (events, later) = rest.split_at(rest.len().min(STREAM_BATCH));
            let injected = dev.inject_all(events);
            if !self.note_injected(injected, events)? {
                return Ok(());
            }
            rest = later;
        }
        Ok(())
    }

    // Notes each event that a call injected as a call, up to the first for which the limit left no room. Says whether
    // all were entered.
    fn note_injected(&mut self, injected: Injected, events: &[Stamped]) -> Result<bool, NoMemory>
        requires count { injected.count ≤ length events.now }
        requires fits { injected.from + injected.count < 2 ^ 32 }
        ensures all { IfOk result (λ all. all ≡ nat_le (length events.now) injected.count) }
        ensures noted { OnOk result
            (self.new ≡ notes_after (injected_calls injected events.now) self.old) }
    {
        let (entered, others) = events.split_at(injected.count as usize);
        self.note_entered(injected.from, entered)?;
        let Some(refused) = others.first() else {
            return Ok(true);
        };
        let reply = Reply::Refused {
            at: injected.from + injected.count,
            why: Refusal::LogFull,
        };
        self.note(injecting(*refused), reply, &[])?;
        Ok(false)
    }

    // Notes the calls for events that were entered from this place on.
    fn note_entered(&mut self, from: u32, events: &[Stamped]) -> Result<(), NoMemory>
        requires fits { from + length events.now < 2 ^ 32 }
        ensures { OnOk result
            (self.new ≡ notes_after (entered_calls from events.now) self.old) }
    {
        if events.is_empty() {
            return Ok(());
        }
        let mut at = from;
        for stamped in events {
            self.sight.push_entered(*stamped, at)?;
            at += 1;
        }
        self.stop = None;
        Ok(())
    }
}

// The step that an event makes.
fn injecting(stamped: Stamped) -> Step
    ensures step { result ≡ inject_of stamped }
{
    Step::Inject {
        event: stamped.event,
        now: stamped.now,
    }
}
