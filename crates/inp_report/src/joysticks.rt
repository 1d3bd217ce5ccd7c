//! The report of the joysticks.
ghost use Rattle.std.specs.Prelude.{◌≡◌, ◌<◌, ◌++◌, length, IfOk, OnOk, flat_map};
ghost use Rattle.inp_actors.specs.declared.role.Role.TheVariants.{Joy};
ghost use Rattle.inp_report.specs.Sights.{sight_line};
ghost use Rattle.inp_report.specs.Report.{role_part};
ghost use Rattle.inp_report.specs.JoyReport.{picture_text, joy_text, joy_report};
ghost use Rattle.inp_script.specs.Runs.{AreJoysOf};

use crate::jobs::{push_actor, push_stop_line};
use crate::picture::push_picture;
use crate::sights::push_sights;
use inp_actors::{Name, Record, Role};
use inp_caps::Caps;
use inp_model::NoMemory;
use inp_script::{JoyEnd, JoyRuns};
use inp_texts::Page;
use std::alloc::Global;

/// The report of a record's joysticks, in the order of the record: what each did and saw, how its buttons and axes
/// stand at the end, and why it stopped. It stands after what [`report`](crate::report) says of the devices.
///
/// `joys` must be those of this record: one job for each joystick, in order. It takes time and memory in proportion to
/// the text.
///
/// # Errors
///
/// `NoMemory` where memory is short for the text.
pub fn joy_report(alloc: Global, rec: &Record, joys: &JoyRuns) -> Result<Vec<u8>, NoMemory>
    requires joys { AreJoysOf rec.now joys.now }
    ensures text { IfOk result (λ text. text.items ≡ joy_report rec.now joys.now) }
{
    let mut text = Page::new(alloc);
    push_joysticks(&mut text, rec, joys)?;
    text.into_bytes()
}

#[tactic(auto, unfolding(crate::specs::JoyReport::joy_report))]
fn push_joysticks(text: &mut Page, rec: &Record, joys: &JoyRuns) -> Result<(), NoMemory>
    requires joys { AreJoysOf rec.now joys.now }
    ensures pushed { OnOk result
        (text.new ≡ text.old ++ joy_report rec.now joys.now) }
{
    for joy in joys.as_slice() {
        push_joy(text, rec, joy)?;
    }
    Ok(())
}

fn push_joy(text: &mut Page, rec: &Record, joy: &JoyEnd) -> Result<(), NoMemory>
    requires actor { joy.now.actor < length rec.now.actors }
    ensures pushed { OnOk result
        (text.new ≡ text.old ++ joy_text rec.now joy.now) }
{
    let actor = rec.actors().get(joy.actor() as usize);
    let device = rec.devices().get(actor.device as usize);
    push_joystick(text, &actor.name, &device.caps, joy)
}

#[tactic(auto, unfolding(crate::specs::Report::role_part))]
fn push_joystick(text: &mut Page, name: &Name, caps: &Caps, joy: &JoyEnd) -> Result<(), NoMemory>
    ensures pushed { OnOk result
        (text.new
        ≡ text.old
        ++ role_part Joy name.now (flat_map sight_line joy.now.sight
        ++ picture_text caps.now joy.now.picture) joy.now.stop) }
{
    push_actor(text, Role::Joy, name)?;
    push_sights(text, joy.sight())?;
    push_picture(text, caps, joy.picture())?;
    push_stop_line(text, *joy.stop())
}
