//! What a job saw, as a list.
ghost use Rattle.std.specs.Prelude.{◌≡◌, ◌<◌, [], ◌∷◌, ◌++◌, length, map, take, drop, slice_get, nat_eq, OnOk, OnErr, Some};
ghost use Rattle.inp_model.specs.Injection.{inject_of};
ghost use Rattle.inp_model.specs.declared.reply.Reply.TheVariants.{Done};
ghost use Rattle.inp_script.specs.declared.sight.Sight.TheVariants.{Call};
ghost use Rattle.inp_script.specs.Sight.{taken_sight, made_sight};

use crate::blocks::Blocks;
use crate::kept_sight::KeptSight;
use crate::{Sight, SightRun};
use inp_model::{Items, NoMemory, Reply, Stamped, Step, Taken};
use inp_reader::CallMade;
use std::alloc::Global;
use std::marker::Model;

/// What a job saw, in order. Contracts see it as the list of its entries.
///
/// An entry takes 32 bytes, and one of a call with much in it those of a [`CallMade`] besides. It stays where it was
/// put: the list grows by blocks of 1,024 entries.
#[derive(Drop)]
pub struct Sights {
    kept: Blocks<KeptSight>,
    calls: Items<CallMade>,
}

impl Model for Sights {
    ghost use Rattle.std.specs.Prelude.{List};
    ghost use Rattle.inp_script.specs.declared.sight.Sight.{Sight as ASight};

    ghost Value = { List ASight };

    ghost use Rattle.inp_script.specs.Sights.{sights_of, AreWithin};

    ghost view = { sights_of };

    ghost invariant = { AreWithin };
}

impl Sights {
    /// The empty list. It takes no memory.
    pub fn new(alloc: Global) -> Sights
        ensures empty { result ≡ [] }
    {
        Sights {
            kept: Blocks::new(alloc),
            calls: Items::new(alloc),
        }
    }

    /// Adds an entry at the end. It is refused for memory alone, and the list is then as before.
    pub fn push(&mut self, sight: Sight) -> Result<(), NoMemory>
        ensures ok { OnOk result (self.new ≡ self.old ++ sight ∷ []) }
        ensures err { OnErr result (self.new ≡ self.old) }
    {
        match KeptSight::of(sight) {
            Ok(kept) => self.kept.push(kept),
            Err(call) => self.push_whole(call),
        }
    }

    // Adds a call that stands whole in the second list. Where it is refused, the list is as before.
    #[inline(never)]
    fn push_whole(&mut self, call: CallMade) -> Result<(), NoMemory>
        ensures ok { OnOk result (self.new ≡ self.old ++ made_sight call ∷ []) }
        ensures err { OnErr result (self.new ≡ self.old) }
    {
        let index = self.calls.len();
        self.calls.push(call)?;
        self.kept.push(KeptSight::Call { index })
    }

    // Adds the events that a call read.
    pub(crate) fn push_taken(&mut self, events: &[Taken]) -> Result<(), NoMemory>
        ensures { OnOk result (self.new ≡ self.old ++ map taken_sight events.now) }
    {
        for event in events {
            self.kept.push(KeptSight::Took { event: *event })?;
        }
        Ok(())
    }

    // Adds the call that injected an event, which was entered at this place. Where it is refused, the list is as
    // before.
    pub(crate) fn push_entered(&mut self, stamped: Stamped, at: u32) -> Result<(), NoMemory>
        ensures ok { OnOk result
            (self.new ≡ self.old ++ Call (inject_of stamped) (Done at) ∷ []) }
        ensures err { OnErr result (self.new ≡ self.old) }
    {
        let Stamped { event, now } = stamped;
        self.kept.push(KeptSight::Injected { event, now, at })
    }

    /// How many entries there are.
    pub fn len(&self) -> usize
        ensures length { result ≡ length self.now }
    {
        self.kept.len()
    }

    /// Whether there is no entry.
    pub fn is_empty(&self) -> bool
        ensures empty { result ≡ nat_eq (length self.now) 0 }
    {
        self.kept.is_empty()
    }

    /// Adds a call with its reply. It is refused for memory alone, and the list is then as before.
    pub(crate) fn push_call(&mut self, step: &Step, reply: &Reply) -> Result<(), NoMemory>
        ensures ok { OnOk result (self.new ≡ self.old ++ Call step.now reply.now ∷ []) }
        ensures err { OnErr result (self.new ≡ self.old) }
    {
        match KeptSight::of_call(step, reply) {
            Some(kept) => self.kept.push(kept),
            None => self.push_whole(CallMade {
                step: *step,
                reply: *reply,
            }),
        }
    }

    /// The entries from an index on that are kept in one block with that one.
    pub fn run_from(&self, start: usize) -> SightRun<'_>
        requires within { start < length self.now }
        ensures some { 0 < length result }
        ensures run { result ≡ take (length result) (drop start self.now) }
    {
        SightRun {
            kept: self.kept.run_from(start),
            calls: &self.calls,
        }
    }

    /// The entry at an index below the length.
    #[inline(always)]
    pub fn get(&self, index: usize) -> Sight
        requires within { index < length self.now }
        ensures item { slice_get self.now index ≡ Some result }
    {
        self.kept.get(index).lend(&self.calls).sight()
    }
}
