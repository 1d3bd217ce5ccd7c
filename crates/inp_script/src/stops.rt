//! What a reply means to a job.
ghost use Rattle.std.specs.Prelude.{◌≡◌};
ghost use Rattle.inp_script.specs.Job.{last_stop};
ghost use Rattle.inp_script.specs.Sight.{stop_after, stop_after_start, lacks_memory, start_lacks_memory};

use crate::Stop;
use inp_model::{Refusal, Reply};
use inp_reader::Started;

// Why a job stops after a call, if it does.
pub(crate) fn stop_after(reply: Reply) -> Option<Stop>
    ensures { result ≡ stop_after reply }
{
    match reply {
        Reply::Refused {
            at,
            why: Refusal::LogFull,
        } => Some(Stop::Full { at }),
        _ => None,
    }
}

// Why a job stops after a start of its reader, if it does.
pub(crate) fn stop_after_start(started: Started) -> Option<Stop>
    ensures { result ≡ stop_after_start started }
{
    match started {
        Started::Refused {
            at,
            why: Refusal::LogFull,
        } => Some(Stop::Full { at }),
        _ => None,
    }
}

// Whether memory ran out in a call.
pub(crate) fn lacks_memory(reply: Reply) -> bool
    ensures { result ≡ lacks_memory reply }
{
    matches!(
        reply,
        Reply::Refused {
            why: Refusal::NoMemory,
            ..
        }
    )
}

// Whether memory ran out in a start of a reader.
pub(crate) fn start_lacks_memory(started: Started) -> bool
    ensures { result ≡ start_lacks_memory started }
{
    matches!(
        started,
        Started::Refused {
            why: Refusal::NoMemory,
            ..
        }
    )
}

// Why a job ended that stopped so, or did not stop.
pub(crate) fn last_stop(stop: Option<Stop>) -> Stop
    ensures { result ≡ last_stop stop }
{
    stop.unwrap_or(Stop::Finished)
}
