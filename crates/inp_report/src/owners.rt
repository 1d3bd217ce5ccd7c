//! The report of the owners.
ghost use Rattle.std.specs.Prelude.{◌≡◌, ◌<◌, ◌++◌, length, IfOk, OnOk, flat_map};
ghost use Rattle.inp_actors.specs.declared.role.Role.TheVariants.{Owner};
ghost use Rattle.inp_report.specs.Report.{role_part};
ghost use Rattle.inp_report.specs.OwnerReport.{fed_line, owner_text, owner_report};
ghost use Rattle.inp_script.specs.Runs.{AreOwnersOf};

use crate::jobs::{push_actor, push_stop_line};
use crate::words::{push_event, push_numbered};
use inp_actors::{Name, Record, Role};
use inp_feedback::Fed;
use inp_model::NoMemory;
use inp_script::{FedSight, OwnerEnd, OwnerRuns};
use inp_texts::Page;
use std::alloc::Global;

/// The report of a record's owners, in the order of the record: what each feedback call took, and why the owner
/// stopped. It stands after what [`joy_report`](crate::joy_report) says of the joysticks. A call that was refused has
/// no line.
///
/// `owners` must be those of this record: one for each owner, in order. It takes time and memory in proportion to the
/// text.
///
/// # Errors
///
/// `NoMemory` where memory is short for the text.
pub fn owner_report(alloc: Global, rec: &Record, owners: &OwnerRuns) -> Result<Vec<u8>, NoMemory>
    requires owners { AreOwnersOf rec.now owners.now }
    ensures text { IfOk result (λ text. text.items ≡ owner_report rec.now owners.now) }
{
    let mut text = Page::new(alloc);
    push_owners(&mut text, rec, owners)?;
    text.into_bytes()
}

#[tactic(auto, unfolding(crate::specs::OwnerReport::owner_report))]
fn push_owners(text: &mut Page, rec: &Record, owners: &OwnerRuns) -> Result<(), NoMemory>
    requires owners { AreOwnersOf rec.now owners.now }
    ensures pushed { OnOk result
        (text.new ≡ text.old ++ owner_report rec.now owners.now) }
{
    for owner in owners.as_slice() {
        push_owner(text, rec, owner)?;
    }
    Ok(())
}

fn push_owner(text: &mut Page, rec: &Record, owner: &OwnerEnd) -> Result<(), NoMemory>
    requires actor { owner.now.actor < length rec.now.actors }
    ensures pushed { OnOk result
        (text.new ≡ text.old ++ owner_text rec.now owner.now) }
{
    let actor = rec.actors().get(owner.actor() as usize);
    push_owner_part(text, &actor.name, owner)
}

#[tactic(auto, unfolding(crate::specs::Report::role_part))]
fn push_owner_part(text: &mut Page, name: &Name, owner: &OwnerEnd) -> Result<(), NoMemory>
    ensures pushed { OnOk result
        (text.new
        ≡ text.old ++ role_part Owner name.now (flat_map fed_line owner.now.fed) owner.now.stop) }
{
    push_actor(text, Role::Owner, name)?;
    for sight in owner.fed().as_slice() {
        push_fed(text, *sight)?;
    }
    push_stop_line(text, *owner.stop())
}

#[tactic(auto, unfolding(crate::specs::OwnerReport::fed_line))]
fn push_fed(text: &mut Page, sight: FedSight) -> Result<(), NoMemory>
    ensures pushed { OnOk result (text.new ≡ text.old ++ fed_line sight) }
{
    match sight {
        FedSight::Answer {
            fed: Fed::Took { at, count },
        } => {
            push_numbered(text, "feedback ", at as u64)?;
            push_numbered(text, " ", count as u64)?;
        }
        FedSight::Answer {
            fed: Fed::Full { .. },
        } => return Ok(()),
        FedSight::Event { event } => {
            text.push_str("fed ")?;
            push_event(text, event)?;
        }
    }
    text.push_str("\n")?;
    Ok(())
}
