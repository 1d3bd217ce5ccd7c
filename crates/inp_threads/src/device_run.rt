//! One device with its jobs.
ghost use Rattle.std.specs.Prelude.{◌≤◌, ◌<◌, length, IfOk};
ghost use Rattle.inp_threads.specs.Lines.{AreLinesDealt};
ghost use Rattle.inp_threads.specs.Promise.{IsPromisedOf};

use crate::gathered::{Gathered, join_workers};
use crate::lines::LineLists;
use crate::workers::{deal, run_all};
use inp_actors::Record;
use inp_edge::Gate;
use inp_model::{Items, NoMemory};
use inp_script::DeviceEnds;
use inp_uinput::{UPort, Udev};
use std::alloc::Global;
use std::sync::Wait;
use std::thread::Threads;

// The result of the device of this number, whose actors do their lines on a thread each.
pub(crate) fn run_device<R: Threads + Wait + Sync, G: Gate>(
    rt: &R,
    alloc: Global,
    rec: &Record,
    lists: &LineLists,
    number: u32,
    idle: u32,
    gate: &G,
) -> Result<DeviceEnds, NoMemory>
    requires bound { 1 ≤ idle }
    requires lines { AreLinesDealt rec.now lists.now }
    requires device { number < length rec.now.devices }
    ensures promised { IfOk result (IsPromisedOf idle rec.now number) }
{
    let caps = rec.devices().get(number as usize).caps.copy();
    let Ok((port, mut pass)) = UPort::new(alloc, Udev::new(alloc, caps)?) else {
        return Err(NoMemory);
    };
    let mut workers = deal(alloc, rec, number, &port, &mut pass)?;
    let ends = Vec::with_capacity(alloc, workers.len())?;
    run_all(rt, &port, rec, lists, number, idle, &mut workers, gate);
    let Gathered {
        pass,
        ends,
        is_done,
    } = join_workers(&port, pass, workers, ends);
    let history = port.close(pass).into_history();
    if !is_done {
        return Err(NoMemory);
    }
    let ends = Items::of(ends);
    Ok(DeviceEnds { history, ends })
}
