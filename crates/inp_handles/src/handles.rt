//! The grab and the inhibition of a device.
ghost use Rattle.std.specs.Prelude.{◌≡◌, ◌↔◌, false, not, IsTrue, Some, None, IsSome, IsNone, IsOk, IsErr, OnOk, OnErr};
ghost use Rattle.inp_model.specs.Step.{is_same};
ghost use Rattle.inp_handles.specs.Handles.{holder_without};

use crate::refusal::{Busy, NotGrabber};
use std::marker::Model;

/// Which client holds the grab of a device, and whether the device is inhibited.
#[derive(Drop)]
pub struct Handles {
    holder: Option<u32>,
    inhibited: bool,
}

impl Model for Handles {
    ghost use Rattle.inp_handles.specs.Handles.{HandleState};

    ghost Value = { HandleState };

    ghost view = { λ handles. record { holder = handles.holder; inhibited = handles.inhibited } };
}

impl Handles {
    /// No client holds the grab, and the device is not inhibited.
    pub fn new() -> Self
        ensures free { result ≡ record { holder = None; inhibited = false } }
    {
        Handles {
            holder: None,
            inhibited: false,
        }
    }

    /// A client takes the grab (evdev's EVIOCGRAB). It is refused exactly where a client, this one too, holds it, and
    /// nothing changes then.
    pub fn grab(&mut self, client: u32) -> Result<(), Busy>
        ensures busy { IsErr result ↔ IsSome self.old.holder }
        ensures free { IsOk result ↔ IsNone self.old.holder }
        ensures ok { OnOk result (self.new ≡ record self.old { holder = Some client }) }
        ensures err { OnErr result (self.new ≡ self.old) }
    {
        if self.holder.is_some() {
            return Err(Busy);
        }
        self.holder = Some(client);
        Ok(())
    }

    /// A client gives up the grab (evdev's EVIOCGRAB). It is refused exactly where this client does not hold it, and
    /// nothing changes then.
    pub fn ungrab(&mut self, client: u32) -> Result<(), NotGrabber>
        ensures not_grabber { IsErr result ↔ IsTrue (not (is_same self.old.holder client)) }
        ensures grabber { IsOk result ↔ IsTrue (is_same self.old.holder client) }
        ensures ok { OnOk result (self.new ≡ record self.old { holder = None }) }
        ensures err { OnErr result (self.new ≡ self.old) }
    {
        if self.holder != Some(client) {
            return Err(NotGrabber);
        }
        self.holder = None;
        Ok(())
    }

    /// A client is closed or revoked, which ends its grab. A grab of another client stays.
    pub fn release(&mut self, client: u32)
        ensures holder { let rest = holder_without client self.old.holder in
            self.new ≡ record self.old { holder = rest } }
    {
        if self.holder == Some(client) {
            self.holder = None;
        }
    }

    /// The client that holds the grab, if one does.
    pub fn holder(&self) -> Option<u32>
        ensures holder { result ≡ self.now.holder }
    {
        self.holder
    }

    /// Inhibits the device, or ends that (the kernel's `inhibited` attribute).
    pub fn set_inhibited(&mut self, on: bool)
        ensures inhibited { self.new ≡ record self.old { inhibited = on } }
    {
        self.inhibited = on;
    }

    /// Whether the device is inhibited.
    pub fn inhibited(&self) -> bool
        ensures inhibited { result ≡ self.now.inhibited }
    {
        self.inhibited
    }
}
