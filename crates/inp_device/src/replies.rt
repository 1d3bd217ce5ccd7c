//! The replies that several steps share.
ghost use Rattle.std.specs.Prelude.{◌≡◌, ◌≤◌, length, Some};
ghost use Rattle.inp_model.specs.declared.limits.TheConstants.{LOG_MAX};
ghost use Rattle.inp_model.specs.Evdev.{agains_after};

use inp_model::{Refusal, Reply, Step};

/// The next step was done.
pub fn done(history: &[Step]) -> Reply
    requires few { length history.now ≤ LOG_MAX }
    ensures done { result ≡ Reply.Done (length history.now) }
{
    Reply::Done {
        at: history.len() as u32,
    }
}

/// The next step is refused.
pub fn refuse(history: &[Step], why: Refusal) -> Reply
    requires few { length history.now ≤ LOG_MAX }
    ensures refused { result ≡ Reply.Refused (length history.now) why }
{
    Reply::Refused {
        at: history.len() as u32,
        why,
    }
}

/// The count of answers `Again` after a reply.
pub fn count_again(reply: Reply, agains: u64) -> u64
    ensures count { result ≡ agains_after reply agains }
{
    match reply {
        Reply::Again { .. } if agains < u64::MAX => agains + 1,
        _ => agains,
    }
}
