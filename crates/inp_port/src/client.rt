//! One thread's use of a port.
ghost use Rattle.inp_port.specs.Port.{IsReadyAt};

use crate::port::PortOf;
use crate::served::Served;
use inp_device::{Device, count_again};
use inp_model::{Evdev, Injected, Reply, Stamped, Step, Taken};
use inp_turn::Pass;
use std::sync::Wait;

/// A port with a pass of it, and so an evdev: what one thread uses a shared device by. Another thread has another one.
///
/// To a contract its history is the steps that the pass has seen, and its places are the pass's own where a step
/// stands. Its turns are the pass's: each call takes one. Its tie is the pass's share, which port it is, and those
/// places of the pass's own where an entry stands that is no step.
#[derive(Drop)]
pub struct PortClientOf<'a, S: Served, R: Wait> {
    /// The port.
    pub port: &'a PortOf<S>,
    /// What a call waits for its turn by.
    pub rt: &'a R,
    /// A pass of the port, which has no turn between two calls.
    pub pass: Pass<S>,
    /// How many calls were answered `Again`. The count stays at the greatest `u64`.
    pub agains: u64,
    ghost ready: { IsReadyAt port.now pass },
}

/// A client of a port of one device.
pub type PortClient<'a, R> = PortClientOf<'a, Device, R>;

impl<'a, S: Served, R: Wait> Evdev for PortClientOf<'a, S, R> {
    ghost use Rattle.inp_port.specs.Port.{told_by};

    ghost told = { λ client. told_by S.made client.port.now client.pass client.agains };

    fn call(&mut self, step: Step, out: &mut [Taken], cells: &mut [i32]) -> Reply {
        let reply = self.port.call(self.rt, &mut self.pass, step, out, cells);
        self.agains = count_again(reply, self.agains);
        reply
    }

    fn inject_all(&mut self, events: &[Stamped]) -> Injected {
        self.port.inject_all(self.rt, &mut self.pass, events)
    }
}
