//! Entries of what jobs saw, lent from where they are kept.
ghost use Rattle.std.specs.Prelude.{◌≡◌};
ghost use Rattle.inp_script.specs.SightRef.{sight_of};

use crate::Sight;
use inp_model::{Event, Reply, Step, Taken};
use inp_reader::CallMade;

/// An entry of what a job saw, as it is kept: a frequent one by its parts, and any other one by its call.
#[derive(Clone, Copy)]
pub enum SightRef<'a> {
    /// The job took this event.
    Took {
        event: &'a Taken,
    },
    /// It injected this event, which was entered at this place.
    Injected {
        event: Event,
        now: u64,
        at: u32,
    },
    /// It asked for at most so many events, and took `count`.
    Read {
        client: u32,
        most: u32,
        at: u32,
        count: u32,
    },
    /// Its reader made this event.
    Made {
        event: Event,
    },
    /// Nothing was visible to it.
    Again {
        at: u32,
        ends: u32,
    },
    /// It handed out this record of a joystick.
    Record {
        bytes: [u8; 8],
    },
    /// It made another call.
    Call {
        call: &'a CallMade,
    },
}

impl SightRef<'_> {
    /// The entry itself.
    #[inline(always)]
    pub fn sight(self) -> Sight
        ensures sight { result ≡ sight_of self.entry }
    {
        match self {
            SightRef::Took { event } => Sight::Took { event: *event },
            SightRef::Injected { event, now, at } => Sight::Call {
                step: Step::Inject { event, now },
                reply: Reply::Done { at },
            },
            SightRef::Read {
                client,
                most,
                at,
                count,
            } => Sight::Call {
                step: Step::Read {
                    client,
                    count: most,
                },
                reply: Reply::Took { at, count },
            },
            SightRef::Made { event } => Sight::Made { event },
            SightRef::Again { at, ends } => Sight::Again { at, ends },
            SightRef::Record { bytes } => Sight::Record { bytes },
            SightRef::Call { call } => Sight::Call {
                step: call.step,
                reply: call.reply,
            },
        }
    }
}
