//! The whole text.
ghost use Rattle.std.specs.Prelude.{◌≡◌, ℕ, ◌<◌, [], ◌∷◌, ◌++◌, length, codes, decimal, string_bytes, IfOk, OnOk, map, slice_get, Some};
ghost use Rattle.inp_actors.specs.declared.line.Line.{Line as LineView};
ghost use Rattle.inp_record.specs.canon.Words.{line_text, lines_text};
ghost use Rattle.inp_record.specs.canon.Text.{actor_lines, actors_lines, device_word, device_lines, devices_lines, action_words, record_text};
ghost use Rattle.inp_record.specs.Spelling.{RoundTrips};

use crate::canon::commands::push_command;
use crate::canon::devices::push_description;
use inp_actors::{ActorText, Actors, DeviceText, Line, Record};
use inp_model::NoMemory;
use inp_texts::RoleText;
use std::alloc::Global;
use std::fmt::Write;

/// The canonical text of a record: the header with its version, the devices in order, each with its description and its
/// actors, then the action lines. Types and codes are written by name where they have one. `docs/FORMATS.md` has the
/// form, which is this project's choice. Where the record is one that [`parse`](crate::parse) reads from some text, it
/// reads the same record from this one. The events of its streams stand in files of their own. It takes time and memory
/// in proportion to the text.
///
/// # Errors
///
/// `NoMemory` where memory is short for the text.
#[tactic(auto, using(crate::proofs::RoundTrip::round_trips))]
pub fn print(alloc: Global, rec: &Record) -> Result<Vec<u8>, NoMemory>
    ensures text { IfOk result (λ text. text.items ≡ record_text rec.now) }
    ensures round_trip { RoundTrips }
{
    let mut text = String::new(alloc);
    push_record(&mut text, rec)?;
    Ok(text.into_bytes())
}

fn push_record(text: &mut String, rec: &Record) -> Result<(), NoMemory>
    ensures pushed { OnOk result
        (string_bytes text.new ≡ string_bytes text.old ++ record_text rec.now) }
{
    push_header(text, rec.version())?;
    push_devices(text, rec.actors(), rec.devices().as_slice())?;
    push_actions(text, rec.actors(), rec.lines().as_slice())?;
    Ok(())
}

// The header.
fn push_header(text: &mut String, version: u32) -> Result<(), NoMemory>
    ensures pushed { OnOk result
        (string_bytes text.new
        ≡ string_bytes text.old
        ++ lines_text ((codes "inputrecord" ∷ decimal version ∷ []) ∷ [])) }
{
    write!(text, "inputrecord {version}\n")?;
    Ok(())
}

fn push_devices(text: &mut String, actors: &Actors, devices: &[DeviceText]) -> Result<(), NoMemory>
    ensures pushed { OnOk result
        (string_bytes text.new
        ≡ string_bytes text.old ++ lines_text (devices_lines actors.now devices.now)) }
{
    for (index, device) in devices.iter().enumerate() {
        push_device(text, actors, index, device)?;
    }
    Ok(())
}

fn push_device(
    text: &mut String,
    actors: &Actors,
    index: usize,
    device: &DeviceText,
) -> Result<(), NoMemory>
    ensures pushed { OnOk result
        (string_bytes text.new
        ≡ string_bytes text.old ++ lines_text (device_lines actors.now (index, device.now))) }
{
    push_device_name(text, device)?;
    push_description(text, &device.caps)?;
    push_actors(text, actors, index)?;
    Ok(())
}

// The line that begins a device.
fn push_device_name(text: &mut String, device: &DeviceText) -> Result<(), NoMemory>
    ensures pushed { OnOk result
        (string_bytes text.new
        ≡ string_bytes text.old ++ lines_text ((device_word device.now.requested ∷ device.now.name ∷ []) ∷ [])) }
{
    let name = device.name.as_str();
    if device.requested {
        write!(text, "udevice {name}\n")?;
    } else {
        write!(text, "device {name}\n")?;
    }
    Ok(())
}

// The actors of one device.
#[tactic(auto, unfolding(crate::specs::canon::Text::actors_lines))]
fn push_actors(text: &mut String, actors: &Actors, device: usize) -> Result<(), NoMemory>
    ensures pushed { OnOk result
        (string_bytes text.new
        ≡ string_bytes text.old ++ lines_text (actors_lines actors.now device)) }
{
    for actor in actors.as_slice() {
        push_actor(text, actor, device)?;
    }
    Ok(())
}

fn push_actor(text: &mut String, actor: &ActorText, device: usize) -> Result<(), NoMemory>
    ensures pushed { OnOk result
        (string_bytes text.new
        ≡ string_bytes text.old ++ lines_text (actor_lines device actor.now)) }
{
    if actor.device as usize == device {
        write!(text, "{} {}\n", RoleText(actor.role), actor.name.as_str())?;
    }
    Ok(())
}

fn push_actions(text: &mut String, actors: &Actors, lines: &[Line]) -> Result<(), NoMemory>
    requires actors { (i : ℕ) (line : LineView)
        → slice_get lines.now i ≡ Some line → line.actor < length actors.now }
    ensures pushed { OnOk result
        (string_bytes text.new
        ≡ string_bytes text.old ++ lines_text (map (action_words actors.now) lines.now)) }
{
    for line in lines {
        push_action(text, actors, line)?;
    }
    Ok(())
}

fn push_action(text: &mut String, actors: &Actors, line: &Line) -> Result<(), NoMemory>
    requires actor { line.now.actor < length actors.now }
    ensures pushed { OnOk result
        (string_bytes text.new
        ≡ string_bytes text.old ++ line_text (action_words actors.now line.now)) }
{
    write!(text, "do {}", actors.get(line.actor as usize).name.as_str())?;
    push_command(text, &line.command)
}
