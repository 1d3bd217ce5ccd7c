//! Devices made by requests, and what their owners read.
ghost use Rattle.std.specs.Prelude.{◌≡◌};
ghost use Rattle.inp_turn.specs.Pass.{view_of};
ghost use Rattle.inp_port.specs.Port.{IsReadyAt};

use crate::common::REPORT;
use inp_model::{EV_SND, Event, Reply, Step};
use inp_turn::Pass;
use inp_uinput::{CreateRefused, Fed, FeedbackPort, Maker, UPort, Udev};
use std::alloc::Global;
use std::process::Abort;
use std::sync::Wait;
use std::test::Fail;

/// The bell rings, `SND_BELL`.
const RING: Event = Event {
    kind: EV_SND,
    code: 1,
    value: 1,
};

/// A device with `SND_BELL` and a history of at most two steps, made by requests.
fn made<R: Abort>(rt: &R, alloc: Global) -> Result<Udev, Fail> {
    let mut maker = Maker::new();
    maker.bits().log(2)?;
    maker.bits().code(EV_SND, 1)?;
    maker.setup("lamp")?;
    let Ok(udev) = maker.create(alloc) else {
        panic!(rt; "memory ran out")
    };
    Ok(udev)
}

#[test]
fn a_device_is_set_up_before_it_is_created(rt: HostRuntime) -> Result<(), Fail> {
    let Err(CreateRefused::NotSetUp { mut maker }) = Maker::new().create(rt.alloc()) else {
        panic!(rt; "created without a name")
    };
    assert!(rt; maker.setup("Pad 1").is_err());
    assert!(rt; maker.setup("pad-1").is_ok());
    assert!(rt; maker.create(rt.alloc()).is_ok());
    Ok(())
}

/// A feedback call by any port.
fn read_by<P: FeedbackPort, R: Wait>(
    rt: &R,
    port: &P,
    pass: &mut Pass<Udev>,
    out: &mut [Event],
) -> Fed
    requires { IsReadyAt (P.port port.now) pass.old }
    ensures ready { IsReadyAt (P.port port.now) pass.new }
    ensures share { (view_of pass.new).share ≡ (view_of pass.old).share }
{
    port.feedback(rt, pass, out)
}

#[test]
fn a_closed_port_gives_the_device_with_its_feedback_calls(rt: HostRuntime) -> Result<(), Fail> {
    let udev = made(&rt, rt.alloc())?;
    let Ok((port, mut pass)) = UPort::new(rt.alloc(), udev) else {
        panic!(rt; "memory ran out")
    };
    let mut other = port.split(&mut pass);
    let mut out = [REPORT; 1];
    let fed = read_by(&rt, &port, &mut pass, &mut out);
    assert_eq!(rt; fed, Fed::Took { at: 0, count: 0 });
    let sound = Step::Inject {
        event: RING,
        now: 0,
    };
    let replied = port.call(&rt, &mut other, sound, &mut [], &mut []);
    assert_eq!(rt; replied, Reply::Done { at: 0 });
    let fed = read_by(&rt, &port, &mut other, &mut out);
    assert_eq!(rt; fed, Fed::Took { at: 1, count: 1 });
    let fed = read_by(&rt, &port, &mut pass, &mut out);
    assert_eq!(rt; fed, Fed::Full { at: 1 });
    let pass = port.join(pass, other);
    let mut udev = port.close(pass);
    assert_eq!(rt; udev.feedback(&mut out), Fed::Full { at: 1 });
    assert_eq!(rt; udev.into_history().len(), 1, "steps alone");
    Ok(())
}
