//! A job on a thread.
ghost use Rattle.std.specs.Prelude.{◌≡◌, true, Some};
ghost use Rattle.inp_script.specs.DoneLine.{IsWaiting};
ghost use Rattle.inp_runs.specs.DoingAll.{AreNumbersOf};
ghost use Rattle.inp_threads.specs.Lines.{AreLinesDealt};
ghost use Rattle.inp_threads.specs.Worker.{IsAtStart, IsFreshPass, IsReadyWorker, IsWorked, actor_number};

use crate::job_gate::JobGate;
use crate::lines::LineLists;
use crate::one_job::OneJob;
use crate::owned_client::OwnedClient;
use inp_actors::Record;
use inp_runs::do_lines;
use inp_script::{Actor, Gated, Waiting};
use inp_turn::Pass;
use inp_uinput::{UClient, UPort, Udev};
use std::sync::Wait;

/// An actor of a record with a pass of its device's port.
#[derive(Drop)]
pub(crate) struct Worker {
    /// The actor.
    pub(crate) actor: Actor,
    /// Its number, which the gate is told.
    pub(crate) number: u32,
    /// The pass, but for the time in which the actor does its lines.
    pub(crate) pass: Option<Pass<Udev>>,
    /// Whether the actor did all its lines.
    pub(crate) is_done: bool,
}

impl Worker {
    // Does all lines of the actor, and tells the gate of this actor alone. Where memory ran out the pass is back, too.
    pub(crate) fn work<R: Wait, J: JobGate>(
        &mut self,
        rt: &R,
        port: &UPort,
        rec: &Record,
        lists: &LineLists,
        waiting: Waiting,
        gate: &J,
    )
        requires ready { IsReadyWorker port.now rec.now self.old }
        requires lines { AreLinesDealt rec.now lists.now }
        requires waiting { IsWaiting rec.now self.old.actor waiting }
        requires known { J.knows gate.now (actor_number self.old) ≡ true }
        ensures worked { IsWorked port.now rec.now (Some waiting) self.new }
        ensures number { actor_number self.new ≡ actor_number self.old }
    {
        let Some(pass) = self.pass.take() else {
            return;
        };
        let client = UClient {
            port,
            rt,
            pass,
            agains: 0,
        };
        let lines = lists.get(self.number as usize).as_slice();
        self.work_by(client, rec, lines, waiting, gate);
    }

    // The same by this client of the port, where these are the lines.
    fn work_by<R: Wait, J: JobGate>(
        &mut self,
        client: UClient<R>,
        rec: &Record,
        lines: &[u32],
        waiting: Waiting,
        gate: &J,
    )
        requires fresh { IsFreshPass client.port.now client.pass }
        requires start { IsAtStart client.port.now rec.now self.old.actor }
        requires lines { AreNumbersOf rec.now self.old.number lines.now }
        requires number { self.old.actor.actor ≡ self.old.number }
        requires waiting { IsWaiting rec.now self.old.actor waiting }
        requires known { J.knows gate.now self.old.number ≡ true }
        ensures worked { IsWorked client.entry.port.now rec.now (Some waiting) self.new }
        ensures number { actor_number self.new ≡ actor_number self.old }
    {
        let one = OneJob {
            gate,
            job: self.number,
        };
        let mut dev = Gated::new(OwnedClient { client }, &one, self.number);
        let done = do_lines(
            &mut self.actor,
            &mut dev,
            rec,
            self.number,
            lines,
            Some(waiting),
        );
        self.is_done = done.is_ok();
        self.pass = Some(dev.inner.client.pass);
    }
}
