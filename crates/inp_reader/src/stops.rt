//! What a reader answers where a call was not accepted.
ghost use Rattle.std.specs.Prelude.{◌≡◌};
ghost use Rattle.inp_model.specs.declared.reply.Reply.TheVariants.{Refused};
ghost use Rattle.inp_recon.specs.Synchronised.{is_dropped};
ghost use Rattle.inp_reader.specs.Reader.{stop_of, start_stop_of};

use crate::{Next, Started};
use inp_model::{EV_SYN, Event, Refusal, Reply, SYN_DROPPED};

// How `next` ends on a call that was not accepted.
pub(crate) fn stop_of(reply: Reply) -> Next
    ensures { result ≡ stop_of reply }
{
    match reply {
        Reply::Again { at, ends } => Next::Again { at, ends },
        Reply::Refused { at, why } => stop_for(at, why),
        _ => Next::Closed,
    }
}

// How `next` ends on a refusal.
fn stop_for(at: u32, why: Refusal) -> Next
    ensures { result ≡ stop_of (Refused at why) }
{
    match why {
        Refusal::NoDevice => Next::NoDevice,
        Refusal::LogFull => Next::Full { at },
        _ => Next::Closed,
    }
}

// How a start ends on a call that was not accepted.
pub(crate) fn start_stop_of(reply: Reply) -> Started
    ensures { result ≡ start_stop_of reply }
{
    match reply {
        Reply::Refused { at, why } => Started::Refused { at, why },
        _ => Started::Refused {
            at: 0,
            why: Refusal::BadClient,
        },
    }
}

// Whether an event tells that events were lost.
pub(crate) fn is_dropped(event: Event) -> bool
    ensures { result ≡ is_dropped event }
{
    event.kind == EV_SYN && event.code == SYN_DROPPED
}
