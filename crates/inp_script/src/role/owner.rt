//! What an owner keeps.
ghost use Rattle.std.specs.Prelude.{◌≡◌, ℕ, [], min, take, OnOk, Some};
ghost use Rattle.inp_actors.specs.Command.{feedback_room};
ghost use Rattle.inp_feedback.specs.declared.fed.TheConstants.{FEEDBACK_MAX};
ghost use Rattle.inp_script.specs.Owner.{first_owning, after_feedback, FeedsLine, MayHaveFed, stop_after_answer};
ghost use Rattle.inp_feedback.specs.Feeds.{taken_count};
ghost use Rattle.inp_script.specs.RoleState.{owning_in};

use crate::{FedList, FedSight, Stop};
use inp_actors::Command;
use inp_feedback::{FEEDBACK_MAX, Fed, Feeds};
use inp_model::{Event, NoMemory};
use std::alloc::Global;

/// What an owner was told so far, and why it stopped, if it did.
#[derive(Drop)]
pub(crate) struct Owner {
    pub(crate) fed: FedList,
    pub(crate) stop: Option<Stop>,
}

impl Owner {
    // An owner before its first line.
    pub(crate) fn new(alloc: Global) -> Owner
        ensures first { owning_in result ≡ first_owning }
    {
        Owner {
            fed: FedList::new(alloc),
            stop: None,
        }
    }

    // Does a command of a record where it is a feedback call. It makes the call with room for so many events, and notes
    // it, or does nothing where the owner has stopped. No more than `FEEDBACK_MAX` events ever wait, so the room is no
    // more either.
    pub(crate) fn do_command<F: Feeds>(
        &mut self,
        dev: &mut F,
        command: &Command,
    ) -> Result<(), NoMemory>
        ensures done { OnOk result ((room : ℕ) → feedback_room command.now ≡ Some room
            → FeedsLine F.feeds dev.old dev.new (min room FEEDBACK_MAX)
            (owning_in self.old) (owning_in self.new)) }
        ensures begun { (room : ℕ) → feedback_room command.now ≡ Some room
            → MayHaveFed F.feeds dev.old dev.new (min room FEEDBACK_MAX) }
    {
        let Command::Feedback { count } = *command else {
            return Ok(());
        };
        if self.stop.is_some() {
            return Ok(());
        }
        let mut out = [NO_EVENT; FEEDBACK_MAX];
        let room = (count as usize).min(FEEDBACK_MAX);
        let fed = dev.feedback(&mut out[..room]);
        self.note(fed, &out[..count_of(fed)])
    }

    // Notes an answer and the events that were taken.
    fn note(&mut self, fed: Fed, events: &[Event]) -> Result<(), NoMemory>
        ensures noted { OnOk result
            (owning_in self.new ≡ after_feedback fed events.now (owning_in self.old)) }
    {
        self.fed.push(FedSight::Answer { fed })?;
        for event in events {
            self.fed.push(FedSight::Event { event: *event })?;
        }
        self.stop = stop_after(fed);
        Ok(())
    }
}

const NO_EVENT: Event = Event {
    kind: 0,
    code: 0,
    value: 0,
};

// How many events an answer says were taken.
fn count_of(fed: Fed) -> usize
    ensures { result ≡ taken_count fed }
{
    match fed {
        Fed::Took { count, .. } => count as usize,
        Fed::Full { .. } => 0,
    }
}

// Why an owner stops after an answer, if it does.
fn stop_after(fed: Fed) -> Option<Stop>
    ensures { result ≡ stop_after_answer fed }
{
    match fed {
        Fed::Took { .. } => None,
        Fed::Full { at } => Some(Stop::Full { at }),
    }
}
