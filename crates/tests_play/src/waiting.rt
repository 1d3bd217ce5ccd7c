//! A client that waits on a device.
ghost use Rattle.std.specs.Prelude.{◌≡◌, ℕ, length, IfOk, slice_get, Some};
ghost use Rattle.inp_actors.specs.declared.actor_text.ActorText.{ActorText};
ghost use Rattle.inp_actors.specs.declared.device_text.DeviceText.{DeviceText};
ghost use Rattle.inp_model.specs.Description.{one_key};
ghost use Rattle.inp_script.specs.DoneLine.{HasActor, IsLineOf, source_count};

use crate::common::{actor, keyboard};
use inp_actors::{Actors, Command, DeviceText, Devices, Line, Lines, Name, Record, Role, Streams};
use inp_device::Device;
use inp_model::NoMemory;
use inp_script::{Actor, Ended, JobEnd, Sight, Stop, Waiting};
use std::alloc::Global;
use std::test::Fail;

/// A keyboard with a source that does nothing, and a client that opens and follows.
fn record(alloc: Global) -> Result<Record, NoMemory>
    ensures keyboard { IfOk result (λ rec. (i : ℕ) → (d : DeviceText) →
        slice_get rec.devices i ≡ Some d → d.caps ≡ one_key) }
    ensures device { IfOk result (λ rec. (text : ActorText) →
        slice_get rec.actors 1 ≡ Some text → text.device ≡ 0) }
    ensures actors { IfOk result (λ rec. length rec.actors ≡ 2) }
    ensures source { IfOk result (λ rec. source_count rec 0 ≡ 1) }
    ensures open { IfOk result (λ rec. IsLineOf rec 0 1) }
    ensures follow { IfOk result (λ rec. IsLineOf rec 1 1) }
{
    let mut devices = Devices::new(alloc);
    devices.push(DeviceText {
        name: Name::new(b"kbd"),
        caps: keyboard(),
        requested: false,
    })?;
    let mut actors = Actors::new(alloc);
    actors.push(actor(b"s", Role::Source, 0))?;
    actors.push(actor(b"c", Role::Client, 0))?;
    let mut lines = Lines::new(alloc);
    lines.push(Line {
        actor: 1,
        command: Command::Open,
    })?;
    lines.push(Line {
        actor: 1,
        command: Command::Follow,
    })?;
    Ok(Record::new(1, devices, actors, lines, Streams::new(alloc)))
}

/// The client does its line of this number, and waits for five reads in a row that find nothing.
fn do_line(client: &mut Actor, device: &mut Device, rec: &Record, line: u32) -> Result<(), NoMemory>
    requires actor { HasActor rec.now client.old }
    requires number { client.old.actor ≡ 1 }
    requires line { IsLineOf rec.now line 1 }
    requires description { client.old.description ≡ one_key }
    requires keyboard { device.old.description ≡ one_key }
    requires device { (text : ActorText) →
        slice_get rec.now.actors 1 ≡ Some text → text.device ≡ 0 }
    requires source { source_count rec.now 0 ≡ 1 }
    ensures actor { HasActor rec.now client.new }
    ensures number { client.new.actor ≡ 1 }
    ensures description { client.new.description ≡ one_key }
    ensures keyboard { device.new.description ≡ one_key }
{
    let waiting = Waiting {
        idle: 5,
        sources: 1,
    };
    client.line(device, rec, line, Some(waiting))
}

/// The result of the client's job, which is no joystick's or owner's, where the source is not done, and nothing is
/// injected.
fn end_of_client(alloc: Global) -> Result<Option<JobEnd>, NoMemory> {
    let rec = record(alloc)?;
    let mut device = Device::new(alloc, keyboard())?;
    let mut client = Actor::new(alloc, &rec, 1)?;
    do_line(&mut client, &mut device, &rec, 0)?;
    do_line(&mut client, &mut device, &rec, 1)?;
    match client.finish() {
        Ended::Job { end } => Ok(Some(end)),
        Ended::Joy { .. } | Ended::Owner { .. } => Ok(None),
    }
}

#[test]
fn a_client_waits_for_so_many_reads(rt: HostRuntime) -> Result<(), Fail> {
    let job = end_of_client(rt.alloc())?.expect(&rt, "a client is no joystick and no owner");
    // The open and the query of keys come first.
    assert_eq!(rt; *job.stop(), Stop::Idle { turns: 5, at: 2 });
    let sight = job.sight();
    assert_eq!(rt; sight.len(), 3);
    assert_eq!(rt; sight.get(2), Sight::Again { at: 2, ends: 0 });
    Ok(())
}
