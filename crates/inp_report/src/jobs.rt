//! The part of one actor.
ghost use Rattle.std.specs.Prelude.{◌≡◌, ◌<◌, ◌++◌, codes, length, OnOk, flat_map};
ghost use Rattle.inp_recon.specs.View.{IsSizedFor};
ghost use Rattle.inp_texts.specs.Texts.{role_text};
ghost use Rattle.inp_report.specs.Words.{LINE_FEED, stop_text};
ghost use Rattle.inp_report.specs.Sights.{sight_line};
ghost use Rattle.inp_report.specs.Views.{view_text};
ghost use Rattle.inp_report.specs.Report.{calls_text, role_part, part_text, job_text};

use crate::sights::{counted_calls, push_sights};
use crate::views::push_view;
use crate::words::{push_numbered, push_stop};
use inp_actors::{ActorText, Actors, Name, Role};
use inp_caps::Caps;
use inp_model::NoMemory;
use inp_script::{JobEnd, Sights, Stop};
use inp_texts::{Page, RoleText};

pub(crate) fn push_job(
    text: &mut Page,
    actors: &Actors,
    caps: &Caps,
    job: &JobEnd,
) -> Result<(), NoMemory>
    requires actor { job.now.actor < length actors.now }
    requires view { IsSizedFor caps.now.slots job.now.view }
    ensures pushed { OnOk result
        (text.new ≡ text.old ++ job_text (part_text caps.now) actors.now job.now) }
{
    push_part(text, actors.get(job.actor() as usize), caps, job)
}

fn push_part(text: &mut Page, actor: &ActorText, caps: &Caps, job: &JobEnd) -> Result<(), NoMemory>
    requires view { IsSizedFor caps.now.slots job.now.view }
    ensures pushed { OnOk result
        (text.new
        ≡ text.old ++ part_text caps.now actor.now.role actor.now.name job.now) }
{
    match actor.role {
        Role::Source => {
            push_calls(text, &actor.name, job.sight())?;
            text.push_str(" stop ")?;
            push_stop(text, *job.stop())?;
            text.push_str("\n")
        }
        Role::Client => push_reading(text, Role::Client, &actor.name, caps, job),
        Role::Tap => push_reading(text, Role::Tap, &actor.name, caps, job),
        Role::Joy | Role::Owner => Ok(()),
    }
}

#[tactic(auto, unfolding(crate::specs::Report::role_part))]
fn push_reading(
    text: &mut Page,
    role: Role,
    name: &Name,
    caps: &Caps,
    job: &JobEnd,
) -> Result<(), NoMemory>
    requires view { IsSizedFor caps.now.slots job.now.view }
    ensures pushed { OnOk result
        (text.new
        ≡ text.old
        ++ role_part role name.now (flat_map sight_line job.now.sight
        ++ view_text caps.now job.now.view) job.now.stop) }
{
    push_actor(text, role, name)?;
    push_sights(text, job.sight())?;
    push_view(text, caps, job.view())?;
    push_stop_line(text, *job.stop())
}

/// Appends the name of a source and how many calls it made.
#[tactic(auto, unfolding(crate::specs::Report::calls_text))]
pub(crate) fn push_calls(text: &mut Page, name: &Name, sights: &Sights) -> Result<(), NoMemory>
    ensures pushed { OnOk result
        (text.new ≡ text.old ++ calls_text name.now sights.now) }
{
    text.push_str("source ")?;
    text.push_str(name.as_str())?;
    push_numbered(text, " calls ", counted_calls(sights) as u64)
}

pub(crate) fn push_actor(text: &mut Page, role: Role, name: &Name) -> Result<(), NoMemory>
    ensures pushed { OnOk result
        (text.new ≡ text.old ++ (role_text role ++ (codes " " ++ (name.now ++ LINE_FEED)))) }
{
    let role = RoleText(role);
    let name = name.as_str();
    write!(text, "{role} {name}\n")?;
    Ok(())
}

pub(crate) fn push_stop_line(text: &mut Page, stop: Stop) -> Result<(), NoMemory>
    ensures pushed { OnOk result
        (text.new ≡ text.old ++ (codes "stop " ++ (stop_text stop ++ LINE_FEED))) }
{
    text.push_str("stop ")?;
    push_stop(text, stop)?;
    text.push_str("\n")?;
    Ok(())
}
