//! The result of a job.
ghost use Rattle.std.specs.Prelude.{◌≡◌};

use crate::{Sights, Stop};
use inp_recon::View;
use std::marker::Model;

/// The result of one job, which is one actor doing its lines. Contracts see its four parts.
///
/// Only the end of an actor makes one, and nothing changes it.
#[derive(Drop)]
pub struct JobEnd {
    actor: u32,
    sight: Sights,
    view: View,
    stop: Stop,
}

impl Model for JobEnd {
    ghost use Rattle.inp_script.specs.Job.{JobView};

    ghost Value = { JobView };

    ghost use Rattle.inp_script.specs.JobEnd.{job_view};

    ghost view = { job_view };
}

impl JobEnd {
    /// The end of the job with these parts. It takes no memory.
    pub(crate) fn new(actor: u32, sight: Sights, view: View, stop: Stop) -> JobEnd
        ensures parts { result ≡ record { actor = actor; sight = sight; view = view; stop = stop } }
    {
        JobEnd {
            actor,
            sight,
            view,
            stop,
        }
    }

    /// The number of its actor, from 0 over the whole record.
    pub fn actor(&self) -> u32
        ensures actor { result ≡ self.now.actor }
    {
        self.actor
    }

    /// What it saw, in order.
    pub fn sight(&self) -> &Sights
        ensures sight { result.now ≡ self.now.sight }
    {
        &self.sight
    }

    /// What the device is, as far as it saw.
    pub fn view(&self) -> &View
        ensures view { result.now ≡ self.now.view }
    {
        &self.view
    }

    /// Why it ended.
    pub fn stop(&self) -> &Stop
        ensures stop { result.now ≡ self.now.stop }
    {
        &self.stop
    }
}
