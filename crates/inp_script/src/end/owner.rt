//! The result of an owner.
ghost use Rattle.std.specs.Prelude.{◌≡◌};

use crate::{FedList, Stop};
use std::marker::Model;

/// The result of an owner, which is one actor doing its lines. Contracts see its three parts.
///
/// Only the end of an actor makes one, and nothing changes it.
#[derive(Drop)]
pub struct OwnerEnd {
    actor: u32,
    fed: FedList,
    stop: Stop,
}

impl Model for OwnerEnd {
    ghost use Rattle.inp_script.specs.Job.{OwnerView};

    ghost Value = { OwnerView };

    ghost use Rattle.inp_script.specs.JobEnd.{owner_view};

    ghost view = { owner_view };
}

impl OwnerEnd {
    /// The end of the owner with these parts. It takes no memory.
    pub(crate) fn new(actor: u32, fed: FedList, stop: Stop) -> OwnerEnd
        ensures parts { result ≡ record { actor = actor; fed = fed; stop = stop } }
    {
        OwnerEnd { actor, fed, stop }
    }

    /// The number of its actor, from 0 over the whole record.
    pub fn actor(&self) -> u32
        ensures actor { result ≡ self.now.actor }
    {
        self.actor
    }

    /// What it was told, in order.
    pub fn fed(&self) -> &FedList
        ensures fed { result.now ≡ self.now.fed }
    {
        &self.fed
    }

    /// Why it ended.
    pub fn stop(&self) -> &Stop
        ensures stop { result.now ≡ self.now.stop }
    {
        &self.stop
    }
}
