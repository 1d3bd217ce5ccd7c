//! What jobs see.

use crate::Sights;
use inp_model::{Event, Reply, Step, Taken};

/// One entry of what a job saw.
#[derive(Clone, Copy, Debug, PartialEq, Eq)]
pub enum Sight {
    /// It made a step, and this was the reply. A step that was answered Again is none of these.
    Call { step: Step, reply: Reply },
    /// It took this event.
    Took { event: Taken },
    /// Its reader made this event when it synchronised.
    Made { event: Event },
    /// Nothing was visible to it: the history's length, and how many sources were done.
    Again { at: u32, ends: u32 },
    /// It handed out this record of a joystick. Only a joystick's job does.
    Record { bytes: [u8; 8] },
}

/// One entry of what a joystick's job saw: a call, a record that it handed out, or that nothing was visible to it.
pub type JoySight = Sight;

/// What a joystick's job saw, in order.
pub type JoySights = Sights;
