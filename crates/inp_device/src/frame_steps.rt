//! The steps that come to the core: what is injected, written or repeated, inhibitions, and axes described anew.
ghost use Rattle.std.specs.Prelude.{◌≡◌, ◌≤◌, [], reverse};
ghost use Rattle.inp_model.specs.declared.stamped.TheConstants.{MOMENT_MAX};
ghost use Rattle.inp_model.specs.declared.step.Step.TheVariants.{Inject, Tick, Write, Inhibit, Uninhibit, SetAxis};
ghost use Rattle.inp_frames.specs.Core.{sends};
ghost use Rattle.inp_device.specs.Device.{goes_out};
ghost use Rattle.inp_device.specs.Present.{IsReadyFor, IsAcceptedStep, StoresFew};

use crate::present::Present;
use crate::replies::done;
use inp_model::{AxisInfo, Event, Reply, Step};

impl Present {
    /// The driver injects an event.
    pub fn inject(&mut self, history: &[Step], event: Event, now: u64) -> Reply
        requires moment { now ≤ MOMENT_MAX }
        requires ready { IsReadyFor history.now (Inject event now) self.old }
        ensures made { IsAcceptedStep history.now (Inject event now) self.old result [] [] [] [] self.new }
        ensures stored { StoresFew history.now (Inject event now) self.old self.new }
        ensures sent { sends self.new.core ≡ goes_out self.old.caps (reverse history.now) event }
    {
        self.handler
            .begin(history.len() as u32, self.handles.holder());
        self.core.inject(&self.caps, event, now, &mut self.handler);
        done(history)
    }

    /// A client writes an event, which is injected as any other.
    pub fn write(&mut self, history: &[Step], client: u32, event: Event, now: u64) -> Reply
        requires moment { now ≤ MOMENT_MAX }
        requires ready { IsReadyFor history.now (Write client event now) self.old }
        ensures made { IsAcceptedStep history.now (Write client event now) self.old result [] [] [] []
            self.new }
        ensures stored { StoresFew history.now (Write client event now) self.old self.new }
        ensures sent { sends self.new.core ≡ goes_out self.old.caps (reverse history.now) event }
    {
        self.handler
            .begin(history.len() as u32, self.handles.holder());
        self.core.inject(&self.caps, event, now, &mut self.handler);
        done(history)
    }

    /// The timer of the autorepeat may fire.
    pub fn tick(&mut self, history: &[Step], now: u64) -> Reply
        requires moment { now ≤ MOMENT_MAX }
        requires ready { IsReadyFor history.now (Tick now) self.old }
        ensures made { IsAcceptedStep history.now (Tick now) self.old result [] [] [] [] self.new }
        ensures stored { StoresFew history.now (Tick now) self.old self.new }
    {
        self.handler
            .begin(history.len() as u32, self.handles.holder());
        self.core.tick(&self.caps, now, &mut self.handler);
        done(history)
    }

    /// The device is inhibited.
    pub fn inhibit(&mut self, history: &[Step], now: u64) -> Reply
        requires moment { now ≤ MOMENT_MAX }
        requires ready { IsReadyFor history.now (Inhibit now) self.old }
        ensures made { IsAcceptedStep history.now (Inhibit now) self.old result [] [] [] [] self.new }
        ensures stored { StoresFew history.now (Inhibit now) self.old self.new }
    {
        self.handler
            .begin(history.len() as u32, self.handles.holder());
        self.core.inhibit(&self.caps, now, &mut self.handler);
        done(history)
    }

    /// The device is no longer inhibited.
    pub fn uninhibit(&mut self, history: &[Step]) -> Reply
        requires ready { IsReadyFor history.now Uninhibit self.old }
        ensures made { IsAcceptedStep history.now Uninhibit self.old result [] [] [] [] self.new }
        ensures stored { StoresFew history.now Uninhibit self.old self.new }
    {
        self.core.uninhibit();
        done(history)
    }
    /// A client describes an axis anew. No event is passed.
    pub fn set_axis(&mut self, history: &[Step], client: u32, code: u16, info: AxisInfo) -> Reply
        requires ready { IsReadyFor history.now (SetAxis client code info) self.old }
        ensures made { IsAcceptedStep history.now (SetAxis client code info) self.old result [] [] [] []
            self.new }
        ensures stored { StoresFew history.now (SetAxis client code info) self.old self.new }
    {
        self.core.describe(code, info);
        done(history)
    }
}
