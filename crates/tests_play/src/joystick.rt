//! A joystick client whose client is revoked.
ghost use Rattle.std.specs.Prelude.{◌≡◌, ◌≤◌, []};
ghost use Rattle.inp_model.specs.declared.stamped.TheConstants.{MOMENT_MAX};
ghost use Rattle.inp_model.specs.Step.{moment_of};
ghost use Rattle.inp_model.specs.Reply.{HasRoom};

use inp_caps::{Caps, CapsBuilder};
use inp_device::Device;
use inp_joy::{BTN_JOYSTICK, Joy, JoyRead, Picture};
use inp_model::{EV_KEY, EV_SYN, Event, SYN_REPORT, Step};
use inp_reader::Started;
use std::test::Fail;

/// A stick with a trigger.
fn stick() -> Caps {
    let mut builder = CapsBuilder::new();
    builder.code(EV_KEY, BTN_JOYSTICK).unwrap();
    builder.build()
}

/// Makes a step that writes to no buffer.
fn make(device: &mut Device, step: Step)
    requires moment { moment_of step ≤ MOMENT_MAX }
    requires room { HasRoom device.old.description step [] [] }
    ensures description { device.new.description ≡ device.old.description }
{
    device.step(step, &mut [], &mut []);
}

/// The trigger goes down.
fn press(device: &mut Device)
    ensures description { device.new.description ≡ device.old.description }
{
    let down = Event {
        kind: EV_KEY,
        code: BTN_JOYSTICK,
        value: 1,
    };
    make(
        device,
        Step::Inject {
            event: down,
            now: 5000,
        },
    );
    let report = Event {
        kind: EV_SYN,
        code: SYN_REPORT,
        value: 0,
    };
    make(
        device,
        Step::Inject {
            event: report,
            now: 5000,
        },
    );
}

#[test]
fn a_revoked_joystick_keeps_its_picture(rt: HostRuntime) -> Result<(), Fail> {
    let caps = stick();
    let mut device = Device::new(rt.alloc(), caps.copy())?;
    let mut joy = Joy::new(rt.alloc(), &caps)?;
    let mut bytes = [0; 8];
    let opened = Started::Opened {
        client: 0,
        ring: 128,
    };
    assert_eq!(rt; joy.start(&mut device), opened);
    assert_eq!(rt; joy.read(&mut device, &mut bytes), JoyRead::Record);
    assert_eq!(rt; bytes, [0, 0, 0, 0, 0, 0, 0x81, 0], "the startup");
    press(&mut device);
    assert_eq!(rt; joy.read(&mut device, &mut bytes), JoyRead::Record);
    assert_eq!(rt; bytes, [5, 0, 0, 0, 1, 0, 1, 0], "the press");
    make(&mut device, Step::Revoke { client: 0 });
    assert_eq!(rt;
        joy.read(&mut device, &mut bytes),
        JoyRead::Frame { place: 3 }
    );
    assert_eq!(rt; joy.read(&mut device, &mut bytes), JoyRead::NoDevice);
    assert_eq!(rt; bytes, [5, 0, 0, 0, 1, 0, 1, 0], "as they were");
    let picture = Picture {
        buttons: 1,
        axes: [0; 64],
    };
    assert_eq!(rt; *joy.picture(), picture);
    Ok(())
}
