//! The record.
ghost use Rattle.std.specs.Prelude.{◌≡◌, ◌≤◌, ◌++◌, flat_map, IfOk, OnOk};
ghost use Rattle.std.specs.List.{range_with_len};
ghost use Rattle.inp_actors.specs.Name.{IsName};
ghost use Rattle.inp_make.specs.Generated.{actor, actors, devices, frame_lines, generated, lines, open_lines};

use crate::frame::{FAST, MID, SLOW, push_frame, push_line};
use crate::pad::pad;
use inp_actors::{
    ActorText, Actors, Command, DeviceText, Devices, Lines, Name, Record, Role, Streams,
};
use inp_model::NoMemory;
use std::alloc::Global;

/// The greatest number of frames (this project's choice).
pub const FRAMES_MAX: u32 = 10_000;

const _: () = prove!(FRAMES_MAX == 100 * 100);

/// The record of `number` and of `count` frames, at most `FRAMES_MAX`.
///
/// # Errors
///
/// `NoMemory` where memory runs out.
pub fn make(alloc: Global, number: u32, count: u32) -> Result<Record, NoMemory>
    requires few { count ≤ FRAMES_MAX }
    ensures generated { IfOk result (λ made. made ≡ generated number count) }
{
    let devices = devices(alloc)?;
    let actors = actors(alloc)?;
    let lines = lines(alloc, number, count)?;
    Ok(Record::new(1, devices, actors, lines, Streams::new(alloc)))
}

// The touchpad.
fn devices(alloc: Global) -> Result<Devices, NoMemory>
    ensures { IfOk result (λ list. list ≡ devices) }
{
    let mut devices = Devices::new(alloc);
    devices.push(DeviceText {
        name: Name::new(b"pad"),
        caps: pad(),
        requested: false,
    })?;
    Ok(devices)
}

// The source and the clients.
fn actors(alloc: Global) -> Result<Actors, NoMemory>
    ensures { IfOk result (λ list. list ≡ actors) }
{
    let mut actors = Actors::new(alloc);
    actors.push(actor(b"finger", Role::Source))?;
    actors.push(actor(b"fast", Role::Client))?;
    actors.push(actor(b"mid", Role::Client))?;
    actors.push(actor(b"slow", Role::Client))?;
    Ok(actors)
}

// An actor of the touchpad.
fn actor(name: &[u8], role: Role) -> ActorText
    requires name { IsName name.now }
    ensures { result ≡ actor name.now role }
{
    ActorText {
        name: Name::new(name),
        role,
        device: 0,
    }
}

// All lines, in order.
fn lines(alloc: Global, number: u32, count: u32) -> Result<Lines, NoMemory>
    ensures { IfOk result (λ list. list ≡ lines number count) }
{
    let mut lines = Lines::new(alloc);
    push_opens(&mut lines)?;
    push_frames(&mut lines, number, count)?;
    push_line(&mut lines, SLOW, Command::Follow)?;
    Ok(lines)
}

// Lets the clients open.
fn push_opens(lines: &mut Lines) -> Result<(), NoMemory>
    ensures { OnOk result (lines.new ≡ lines.old ++ open_lines) }
{
    push_line(lines, FAST, Command::Open)?;
    push_line(lines, MID, Command::Open)?;
    push_line(lines, SLOW, Command::Open)
}

// Adds the lines of each frame.
fn push_frames(lines: &mut Lines, number: u32, count: u32) -> Result<(), NoMemory>
    ensures { OnOk result
        (lines.new ≡ lines.old ++ flat_map (frame_lines number) (range_with_len 0 count)) }
{
    for frame in 0..count {
        push_frame(lines, number, frame)?;
    }
    Ok(())
}
