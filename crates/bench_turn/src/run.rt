//! Threads that make steps on devices.
ghost use Rattle.std.specs.Prelude.{◌<◌, IfSome};
ghost use Rattle.inp_model.specs.Injection.{AreInTime};
ghost use Rattle.inp_turn.specs.Pass.{view_of};
ghost use Rattle.inp_port.specs.Port.{IsReadyAt};

use crate::load::{Load, THREADS_MAX};
use inp_caps::{Caps, CapsBuilder};
use inp_device::Device;
use inp_model::{EV_KEY, EV_SYN, Evdev, Event, KEY_A, Reply, SYN_REPORT, Stamped, Step};
use inp_port::{Port, PortClient};
use inp_turn::Pass;
use std::alloc::Global;
use std::sync::Wait;
use std::thread;
use std::thread::Threads;

/// How many steps all histories have once all threads of all devices made theirs, or nothing where memory ran out.
pub fn run_all<R: Threads + Wait + Sync>(rt: &R, alloc: Global, load: &Load) -> Option<u64> {
    let mut entered = Vec::with_capacity(alloc, load.devices as usize).ok()?;
    for _ in 0..load.devices {
        entered.push(None).ok()?;
    }
    thread::for_each_mut(
        rt,
        &mut entered,
        load.devices as usize,
        &|_, count| {
            *count = run_device(rt, alloc, load);
        },
    );
    let mut all: u64 = 0;
    for count in &entered {
        all = all.saturating_add(u64::from((*count)?));
    }
    Some(all)
}

/// The same of one device.
fn run_device<R: Threads + Wait + Sync>(rt: &R, alloc: Global, load: &Load) -> Option<u32> {
    let threads = load.threads / load.devices;
    if threads > THREADS_MAX {
        return None;
    }
    let caps = keyboard(threads, load.steps)?;
    let device = Device::new(alloc, caps).ok()?;
    let (port, pass) = Port::new(alloc, device).ok()?;
    let mut clients = deal(rt, alloc, &port, pass, threads)?;
    thread::for_each_mut(
        rt,
        &mut clients,
        64,
        &|_, client: &mut PortClient<R>| {
            make_steps(client, alloc, load);
        },
    );
    entered(clients.last_mut()?)
}

/// A keyboard with the key A, with room for the steps of all threads and one more.
fn keyboard(threads: u32, steps: u32) -> Option<Caps> {
    let mut builder = CapsBuilder::new();
    builder.code(EV_KEY, KEY_A).ok()?;
    builder
        .log(threads.saturating_mul(steps).saturating_add(1))
        .ok()?;
    Some(builder.build())
}

/// A client of the port for each thread.
fn deal<'a, R: Wait>(
    rt: &'a R,
    alloc: Global,
    port: &'a Port,
    mut pass: Pass<Device>,
    threads: u32,
) -> Option<Vec<PortClient<'a, R>>>
    requires ready { IsReadyAt port.now pass }
    requires share { threads < (view_of pass).share }
{
    let mut clients = Vec::with_capacity(alloc, threads as usize).ok()?;
    for _ in 0..threads {
        let other = port.split(&mut pass);
        let client = PortClient {
            port,
            rt,
            pass: other,
            agains: 0,
        };
        clients.push(client).ok()?;
    }
    Some(clients)
}

/// Makes the steps of a thread. Where memory runs out it makes none.
fn make_steps(dev: &mut impl Evdev, alloc: Global, load: &Load) {
    if load.in_turn == 1 {
        inject_each(dev, load.steps);
    } else if let Some(events) = key_events(alloc, load.in_turn) {
        inject_together(dev, events.as_slice(), load.steps / load.in_turn);
    }
}

/// Injects so many events, each in a turn of its own.
fn inject_each(dev: &mut impl Evdev, steps: u32) {
    for k in 0..steps {
        let event = key_event(k);
        let _ = dev.call(Step::Inject { event, now: 0 }, &mut [], &mut []);
    }
}

/// Injects these events in one turn, so many times.
fn inject_together(dev: &mut impl Evdev, events: &[Stamped], turns: u32)
    requires moments { AreInTime events.now }
{
    for _ in 0..turns {
        let _ = dev.inject_all(events);
    }
}

/// So many events, one after another.
fn key_events(alloc: Global, count: u32) -> Option<Vec<Stamped>>
    ensures in_time { IfSome result (λ events. AreInTime events.items) }
{
    let mut events = Vec::with_capacity(alloc, count as usize).ok()?;
    for k in 0..count {
        let event = key_event(k);
        events.push(Stamped { event, now: 0 }).ok()?;
    }
    Some(events)
}

/// The event of this number: the key is pressed and let go of in turn, with a report after each.
fn key_event(k: u32) -> Event {
    if k % 2 == 1 {
        return Event {
            kind: EV_SYN,
            code: SYN_REPORT,
            value: 0,
        };
    }
    Event {
        kind: EV_KEY,
        code: KEY_A,
        value: if k % 4 == 0 { 1 } else { 0 },
    }
}

/// How many steps the history has, as one more step tells.
fn entered(dev: &mut impl Evdev) -> Option<u32> {
    match dev.call(Step::End, &mut [], &mut []) {
        Reply::Done { at } => Some(at),
        _ => None,
    }
}
