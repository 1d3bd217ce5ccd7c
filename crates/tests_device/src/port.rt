//! Threads that make steps on one device.
ghost use Rattle.std.specs.Prelude.{◌≡◌, ◌≤◌};
ghost use Rattle.inp_turn.specs.Pass.{view_of};
ghost use Rattle.inp_port.specs.Port.{IsReadyAt};

use crate::common::{REPORT, gamepad};
use inp_device::Device;
use inp_model::{Reply, Step};
use inp_port::Port;
use inp_turn::Pass;
use std::alloc::Global;
use std::process::Abort;
use std::sync::Wait;
use std::test::Fail;
use std::thread;
use std::thread::Threads;

/// Injects a report a thousand times, each under a turn of its own, and notes the places.
fn report_all<R: Wait + Abort>(
    rt: &R,
    port: &Port,
    mut pass: Pass<Device>,
    mut places: Vec<u32>,
) -> (Pass<Device>, Vec<u32>)
    requires { IsReadyAt port.now pass }
    ensures ready { IsReadyAt port.now result.0 }
    ensures share { (view_of result.0).share ≡ (view_of pass).share }
{
    for _ in 0..1000 {
        let step = Step::Inject {
            event: REPORT,
            now: 0,
        };
        let reply = port.call(rt, &mut pass, step, &mut [], &mut []);
        let Reply::Done { at } = reply else {
            panic!(rt; "{reply:?}")
        };
        places.push(at).expect(rt, "room for a thousand places");
    }
    (pass, places)
}

/// The device after two threads injected a thousand reports each, and the places of each.
fn report_by_two<R: Threads + Wait + Abort + Sync>(
    rt: &R,
    alloc: Global,
    device: Device,
) -> Result<(Device, Vec<u32>, Vec<u32>), Fail> {
    let first = Vec::with_capacity(alloc, 1000)?;
    let second = Vec::with_capacity(alloc, 1000)?;
    let Ok((port, mut one)) = Port::new(alloc, device) else {
        panic!(rt; "memory ran out")
    };
    let other = port.split(&mut one);
    let lent = &port;
    let ((one, first), (other, second)) = thread::join(
        rt,
        move || -> (Pass<Device>, Vec<u32>)
            requires { IsReadyAt lent.now one × ((view_of one).share ≡ 65535) }
            ensures { IsReadyAt lent.entry.now result.0 × ((view_of result.0).share ≡ 65535) }
        { report_all(rt, lent, one, first) },
        move || -> (Pass<Device>, Vec<u32>)
            requires { IsReadyAt lent.now other × ((view_of other).share ≡ 1) }
            ensures { IsReadyAt lent.entry.now result.0 × ((view_of result.0).share ≡ 1) }
        { report_all(rt, lent, other, second) },
    );
    let pass = port.join(one, other);
    Ok((port.close(pass), first, second))
}

/// These places are a thousand, they rise, and none was met before.
fn are_new_and_rise(rt: &impl Abort, places: &[u32], met: &mut [bool]) {
    assert_eq!(rt; places.len(), 1000);
    let mut least = 0;
    for place in places {
        assert!(rt; least <= *place, "places rise");
        least = place.saturating_add(1);
        let at = *place as usize;
        assert!(rt; at < met.len(), "a place is below the history's length");
        assert!(rt; !met[at], "no place is told twice");
        met[at] = true;
    }
}

#[test]
fn each_step_of_two_threads_has_a_place_of_its_own(rt: HostRuntime) -> Result<(), Fail> {
    let device = Device::new(rt.alloc(), gamepad()?)?;
    let (device, first, second) = report_by_two(&rt, rt.alloc(), device)?;
    assert_eq!(rt; device.history().len(), 2000);
    let mut met = [false; 2000];
    are_new_and_rise(&rt, &first, &mut met);
    are_new_and_rise(&rt, &second, &mut met);
    Ok(())
}
