//! The entries of what jobs saw, as they are kept.
ghost use Rattle.std.specs.Prelude.{◌≡◌, IfOk, IfErr, IfSome, List};
ghost use Rattle.inp_reader.specs.declared.call_made.CallMade.{CallMade as ACall};
ghost use Rattle.inp_script.specs.declared.sight.Sight.TheVariants.{Call as CallSight};
ghost use Rattle.inp_script.specs.Sight.{made_sight};
ghost use Rattle.inp_script.specs.KeptSight.{sight_in, IsWithin};
ghost use Rattle.inp_script.specs.SightRef.{sight_of};

use crate::{Sight, SightRef};
use inp_model::{Event, Items, Reply, Step, Taken};
use inp_reader::CallMade;
use std::mem::size_of;

// One of a hundred thousand entries that a job may keep.
const _: () = prove!(size_of::<KeptSight>() == 32);

/// An entry of what a job saw, in 32 bytes. The frequent ones are all here. Any other one is a call, which stands in a
/// second list.
#[derive(Clone, Copy)]
pub(crate) enum KeptSight {
    /// The job took this event.
    Took {
        event: Taken,
    },
    /// It injected this event, which was entered at this place.
    Injected {
        event: Event,
        now: u64,
        at: u32,
    },
    /// It asked for at most so many events, and took `count`.
    Read {
        client: u32,
        most: u32,
        at: u32,
        count: u32,
    },
    /// Its reader made this event.
    Made {
        event: Event,
    },
    /// Nothing was visible to it.
    Again {
        at: u32,
        ends: u32,
    },
    /// It handed out this record of a joystick.
    Record {
        bytes: [u8; 8],
    },
    /// It made another call, which stands at this index of the second list.
    Call {
        index: usize,
    },
}

impl KeptSight {
    // The small entry of what a job saw, or the call that has none.
    #[inline(always)]
    pub(crate) fn of(sight: Sight) -> Result<KeptSight, CallMade>
        ensures within { IfOk result (λ kept. (calls : List ACall) → IsWithin calls kept) }
        ensures sight { IfOk result (λ kept. (calls : List ACall) → sight_in calls kept ≡ sight) }
        ensures call { IfErr result (λ call. made_sight call ≡ sight) }
    {
        match sight {
            Sight::Took { event } => Ok(KeptSight::Took { event }),
            Sight::Made { event } => Ok(KeptSight::Made { event }),
            Sight::Again { at, ends } => Ok(KeptSight::Again { at, ends }),
            Sight::Record { bytes } => Ok(KeptSight::Record { bytes }),
            Sight::Call { step, reply } => match KeptSight::of_call(&step, &reply) {
                Some(kept) => Ok(kept),
                None => Err(CallMade { step, reply }),
            },
        }
    }

    // The small entry of a call, if it has one.
    #[inline(always)]
    pub(crate) fn of_call(step: &Step, reply: &Reply) -> Option<KeptSight>
        ensures within { IfSome result (λ kept. (calls : List ACall) → IsWithin calls kept) }
        ensures sight { IfSome result (λ kept. (calls : List ACall) →
            sight_in calls kept ≡ CallSight step.now reply.now) }
    {
        match (step, reply) {
            (Step::Inject { event, now }, Reply::Done { at }) => Some(KeptSight::Injected {
                event: *event,
                now: *now,
                at: *at,
            }),
            (
                Step::Read {
                    client,
                    count: most,
                },
                Reply::Took { at, count },
            ) => Some(KeptSight::Read {
                client: *client,
                most: *most,
                at: *at,
                count: *count,
            }),
            _ => None,
        }
    }

    // What the job saw, by the second list.
    #[inline(always)]
    pub(crate) fn lend<'a>(&'a self, calls: &'a Items<CallMade>) -> SightRef<'a>
        requires within { IsWithin calls.now self.now }
        ensures sight { sight_of result ≡ sight_in calls.now self.now }
    {
        match self {
            KeptSight::Took { event } => SightRef::Took { event },
            KeptSight::Injected { event, now, at } => SightRef::Injected {
                event: *event,
                now: *now,
                at: *at,
            },
            KeptSight::Read {
                client,
                most,
                at,
                count,
            } => SightRef::Read {
                client: *client,
                most: *most,
                at: *at,
                count: *count,
            },
            KeptSight::Made { event } => SightRef::Made { event: *event },
            KeptSight::Again { at, ends } => SightRef::Again {
                at: *at,
                ends: *ends,
            },
            KeptSight::Record { bytes } => SightRef::Record { bytes: *bytes },
            KeptSight::Call { index } => SightRef::Call {
                call: calls.get(*index),
            },
        }
    }
}
