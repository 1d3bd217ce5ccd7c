//! The result of a joystick's job.
ghost use Rattle.std.specs.Prelude.{◌≡◌};
ghost use Rattle.inp_joy.specs.Picture.{seen_as};

use crate::{JoySights, Stop};
use inp_joy::Picture;
use std::marker::Model;

/// The result of the job of a joystick, which is one actor doing its lines. Contracts see its four parts.
///
/// Only the end of an actor makes one, and nothing changes it.
#[derive(Drop)]
pub struct JoyEnd {
    actor: u32,
    sight: JoySights,
    picture: Picture,
    stop: Stop,
}

impl Model for JoyEnd {
    ghost use Rattle.inp_script.specs.Job.{JoyJobView};

    ghost Value = { JoyJobView };

    ghost use Rattle.inp_script.specs.JobEnd.{joy_job_view};

    ghost view = { joy_job_view };
}

impl JoyEnd {
    /// The end of the job with these parts. It takes no memory.
    pub(crate) fn new(actor: u32, sight: JoySights, picture: Picture, stop: Stop) -> JoyEnd
        ensures parts { result ≡ record {
          actor = actor;
          sight = sight;
          picture = seen_as picture;
          stop = stop;
        } }
    {
        JoyEnd {
            actor,
            sight,
            picture,
            stop,
        }
    }

    /// The number of its actor, from 0 over the whole record.
    pub fn actor(&self) -> u32
        ensures actor { result ≡ self.now.actor }
    {
        self.actor
    }

    /// What it saw, in order.
    pub fn sight(&self) -> &JoySights
        ensures sight { result.now ≡ self.now.sight }
    {
        &self.sight
    }

    /// How the buttons and axes stand, as the records of its last startup and those after it tell.
    pub fn picture(&self) -> &Picture
        ensures picture { seen_as result.now ≡ self.now.picture }
    {
        &self.picture
    }

    /// Why it ended.
    pub fn stop(&self) -> &Stop
        ensures stop { result.now ≡ self.now.stop }
    {
        &self.stop
    }
}
