//! The steps of clients that change the clients or the grab: opening, closing, reading and the like.
ghost use Rattle.std.specs.Prelude.{◌≤◌, [], length};
ghost use Rattle.inp_model.specs.declared.stamped.TheConstants.{MOMENT_MAX};
ghost use Rattle.inp_model.specs.declared.step.Step.TheVariants.{Open, Close, Read, Discard, Grab, Ungrab, Mask, Clock as ToClock, Revoke, End};
ghost use Rattle.inp_device.specs.Present.{IsReadyFor, IsAcceptedStep, IsMadeOrLacks, StoresFew, StoresFewOrLacks};

use crate::present::Present;
use crate::replies::done;
use inp_client::OpenRefused;
use inp_model::{Clock, MOMENT_MAX, NoMemory, Reply, Step, Taken};

impl Present {
    /// A client is opened, with the number of the opens before its own.
    pub fn open(&mut self, history: &[Step]) -> Result<Reply, NoMemory>
        requires ready { IsReadyFor history.now Open self.old }
        ensures made { IsMadeOrLacks history.now Open self.old result [] [] [] [] self.new }
        ensures stored { StoresFewOrLacks history.now Open self.old result self.new }
    {
        let client = self.opens;
        let ring = self.caps.ring();
        match self.handler.clients.open(client, ring) {
            Ok(()) => {
                self.opens += 1;
                Ok(Reply::Opened {
                    at: history.len() as u32,
                    client,
                    ring,
                })
            }
            Err(OpenRefused::NoMemory) => Err(NoMemory),
            Err(OpenRefused::TooMany) => unreachable!(),
        }
    }

    /// A client is closed, which ends its grab.
    pub fn close(&mut self, history: &[Step], client: u32) -> Reply
        requires ready { IsReadyFor history.now (Close client) self.old }
        ensures made { IsAcceptedStep history.now (Close client) self.old result [] [] [] [] self.new }
        ensures stored { StoresFew history.now (Close client) self.old self.new }
    {
        self.handles.release(client);
        self.handler.clients.close(client);
        done(history)
    }

    /// A client reads what it can see.
    pub fn read(&mut self, history: &[Step], client: u32, count: u32, out: &mut [Taken]) -> Reply
        requires room { count ≤ length out.old }
        requires ready { IsReadyFor history.now (Read client count) self.old }
        ensures made { IsAcceptedStep history.now (Read client count) self.old result out.old out.new [] []
            self.new }
        ensures stored { StoresFew history.now (Read client count) self.old self.new }
    {
        let clients = &mut self.handler.clients;
        let taken = clients.take(&self.caps, client, count, out);
        Reply::Took {
            at: history.len() as u32,
            count: taken,
        }
    }

    /// A client removes what it can see, unread.
    pub fn discard(&mut self, history: &[Step], client: u32) -> Reply
        requires ready { IsReadyFor history.now (Discard client) self.old }
        ensures made { IsAcceptedStep history.now (Discard client) self.old result [] [] [] [] self.new }
        ensures stored { StoresFew history.now (Discard client) self.old self.new }
    {
        let removed = self.handler.clients.discard(client);
        Reply::Discarded {
            at: history.len() as u32,
            count: removed,
        }
    }

    /// A client takes the grab, which nobody holds.
    pub fn grab(&mut self, history: &[Step], client: u32) -> Reply
        requires ready { IsReadyFor history.now (Grab client) self.old }
        ensures made { IsAcceptedStep history.now (Grab client) self.old result [] [] [] [] self.new }
        ensures stored { StoresFew history.now (Grab client) self.old self.new }
    {
        let _ = self.handles.grab(client);
        done(history)
    }

    /// A client gives up the grab, which it holds.
    pub fn ungrab(&mut self, history: &[Step], client: u32) -> Reply
        requires ready { IsReadyFor history.now (Ungrab client) self.old }
        ensures made { IsAcceptedStep history.now (Ungrab client) self.old result [] [] [] [] self.new }
        ensures stored { StoresFew history.now (Ungrab client) self.old self.new }
    {
        let _ = self.handles.ungrab(client);
        done(history)
    }

    /// A client sets a word of one of its masks.
    pub fn set_mask(
        &mut self,
        history: &[Step],
        client: u32,
        kind: u16,
        word: u16,
        bits: u64,
    ) -> Reply
        requires ready { IsReadyFor history.now (Mask client kind word bits) self.old }
        ensures made { IsAcceptedStep history.now (Mask client kind word bits) self.old result [] [] [] []
            self.new }
        ensures stored { StoresFew history.now (Mask client kind word bits) self.old self.new }
    {
        self.handler.clients.set_mask(client, kind, word, bits);
        done(history)
    }

    /// A client chooses its clock.
    pub fn set_clock(&mut self, history: &[Step], client: u32, clock: Clock, now: u64) -> Reply
        requires moment { now ≤ MOMENT_MAX }
        requires ready { IsReadyFor history.now (ToClock client clock now) self.old }
        ensures made { IsAcceptedStep history.now (ToClock client clock now) self.old result [] [] [] []
            self.new }
        ensures stored { StoresFew history.now (ToClock client clock now) self.old self.new }
    {
        let at = history.len() as u32;
        self.handler.clients.set_clock(client, clock, now, at);
        done(history)
    }

    /// A client loses the device, and the grab with it.
    pub fn revoke(&mut self, history: &[Step], client: u32) -> Reply
        requires ready { IsReadyFor history.now (Revoke client) self.old }
        ensures made { IsAcceptedStep history.now (Revoke client) self.old result [] [] [] [] self.new }
        ensures stored { StoresFew history.now (Revoke client) self.old self.new }
    {
        self.handles.release(client);
        self.handler.clients.revoke(client);
        done(history)
    }

    /// A source is done.
    pub fn end(&mut self, history: &[Step]) -> Reply
        requires ready { IsReadyFor history.now End self.old }
        ensures made { IsAcceptedStep history.now End self.old result [] [] [] [] self.new }
        ensures stored { StoresFew history.now End self.old self.new }
    {
        self.ends += 1;
        done(history)
    }
}
