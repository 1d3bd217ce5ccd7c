//! The summary.
ghost use Rattle.std.specs.Prelude.{◌≡◌, ◌<◌, ◌++◌, true, false, length, codes, decimal, IfOk, OnOk, flat_map};
ghost use Rattle.std.specs.List.{count_by, zip};
ghost use Rattle.std.specs.Fmt.{signed_decimal};
ghost use Rattle.inp_model.specs.declared.multi_touch.TheConstants.{ABS_MT_POSITION_X, ABS_MT_POSITION_Y};
ghost use Rattle.inp_model.specs.Description.{Description, is_slot_code};
ghost use Rattle.inp_recon.specs.Cells.{cell_of};
ghost use Rattle.inp_report.specs.Sights.{is_took, is_made, is_again_sight};
ghost use Rattle.inp_report.specs.Report.{job_text, run_text};
ghost use Rattle.inp_report.specs.Summary.{counts_line, brief_line, summary};
ghost use Rattle.inp_script.specs.Runs.{AreRunsOf, IsRunOf};

use crate::jobs::push_calls;
use crate::sights::{SightCounts, sight_counts};
use crate::whole::push_device;
use inp_actors::{ActorText, Actors, DeviceText, Name, Record, Role};
use inp_model::{ABS_MT_POSITION_X, ABS_MT_POSITION_Y, NoMemory};
use inp_recon::Cells;
use inp_script::{JobEnd, Run, Runs, Sights};
use inp_texts::{Page, RoleText};
use std::alloc::Global;

/// The slot whose position a summary tells: the last one of a generated device (this project's choice).
const TOLD_SLOT: u32 = 9;

/// The summary of a generated record and of its result. It has the two numbers from which the record was generated, and
/// the devices in order. Each device has the number of its steps, and its actors with counts and with the position of
/// slot 9.
///
/// It tells any record, and is meant for the generated one, whose device has ten slots: of a device that has no slot 9
/// the position is 0. `runs` must be those of this record, as for [`report`](crate::report). It takes time and memory
/// in proportion to what was seen.
///
/// # Errors
///
/// `NoMemory` where memory is short for the text.
pub fn summary(
    alloc: Global,
    number: u32,
    count: u32,
    rec: &Record,
    runs: &Runs,
) -> Result<Vec<u8>, NoMemory>
    requires runs { AreRunsOf rec.now runs.now }
    ensures text { IfOk result (λ text. text.items ≡ summary number count rec.now runs.now) }
{
    let mut text = Page::new(alloc);
    push_summary(&mut text, number, count, rec, runs)?;
    text.into_bytes()
}

#[tactic(auto, unfolding(crate::specs::Summary::summary))]
fn push_summary(
    text: &mut Page,
    number: u32,
    count: u32,
    rec: &Record,
    runs: &Runs,
) -> Result<(), NoMemory>
    requires runs { AreRunsOf rec.now runs.now }
    ensures pushed { OnOk result
        (text.new
        ≡ text.old ++ summary number count rec.now runs.now) }
{
    write!(text, "make {number} {count}\n")?;
    push_briefs(text, rec, runs)
}

fn push_briefs(text: &mut Page, rec: &Record, runs: &Runs) -> Result<(), NoMemory>
    requires runs { AreRunsOf rec.now runs.now }
    ensures pushed { OnOk result
        (text.new
        ≡ text.old
        ++ flat_map (run_text rec.now.actors false (λ (d : Description). brief_line))
        (zip rec.now.devices runs.now)) }
{
    for (index, run) in runs.as_slice().iter().enumerate() {
        let device = rec.devices().get(index);
        push_run_brief(text, rec.actors(), index, device, run)?;
    }
    Ok(())
}

fn push_run_brief(
    text: &mut Page,
    actors: &Actors,
    index: usize,
    device: &DeviceText,
    run: &Run,
) -> Result<(), NoMemory>
    requires run { IsRunOf actors.now index device.now run.now }
    ensures pushed { OnOk result
        (text.new
        ≡ text.old
        ++ run_text actors.now false (λ (d : Description). brief_line) (device.now, run.now)) }
{
    push_device(text, &device.name, run.history.len())?;
    for job in run.jobs.as_slice() {
        push_job_brief(text, actors, job)?;
    }
    Ok(())
}

fn push_job_brief(text: &mut Page, actors: &Actors, job: &JobEnd) -> Result<(), NoMemory>
    requires actor { job.now.actor < length actors.now }
    ensures pushed { OnOk result
        (text.new ≡ text.old ++ job_text brief_line actors.now job.now) }
{
    push_brief(text, actors.get(job.actor() as usize), job)
}

fn push_brief(text: &mut Page, actor: &ActorText, job: &JobEnd) -> Result<(), NoMemory>
    ensures pushed { OnOk result
        (text.new
        ≡ text.old ++ brief_line actor.now.role actor.now.name job.now) }
{
    match actor.role {
        Role::Source => {
            push_calls(text, &actor.name, job.sight())?;
            text.push_str("\n")
        }
        Role::Client => push_counts(text, Role::Client, &actor.name, job),
        Role::Tap => push_counts(text, Role::Tap, &actor.name, job),
        Role::Joy | Role::Owner => Ok(()),
    }
}

#[tactic(auto, unfolding(crate::specs::Summary::counts_line))]
fn push_counts(text: &mut Page, role: Role, name: &Name, job: &JobEnd) -> Result<(), NoMemory>
    ensures pushed { OnOk result
        (text.new ≡ text.old ++ counts_line role name.now job.now) }
{
    let role = RoleText(role);
    let name = name.as_str();
    write!(text, "{role} {name}")?;
    push_sight_counts(text, job.sight())?;
    push_position(text, &job.view().cells)?;
    text.push_str("\n")?;
    Ok(())
}

fn push_sight_counts(text: &mut Page, sights: &Sights) -> Result<(), NoMemory>
    ensures pushed { OnOk result
        (text.new
        ≡ text.old
        ++ (codes " took " ++ (decimal (count_by is_took sights.now)
        ++ (codes " made " ++ (decimal (count_by is_made sights.now)
        ++ (codes " again " ++ decimal (count_by is_again_sight sights.now))))))) }
{
    let SightCounts { took, made, again } = sight_counts(sights);
    write!(text, " took {took} made {made} again {again}")?;
    Ok(())
}

fn push_position(text: &mut Page, cells: &Cells) -> Result<(), NoMemory>
    ensures pushed { OnOk result
        (text.new
        ≡ text.old
        ++ (codes " x " ++ (signed_decimal (cell_of cells.now 9 ABS_MT_POSITION_X)
        ++ (codes " y " ++ signed_decimal (cell_of cells.now 9 ABS_MT_POSITION_Y))))) }
{
    let x = told_value(cells, ABS_MT_POSITION_X);
    let y = told_value(cells, ABS_MT_POSITION_Y);
    write!(text, " x {x} y {y}")?;
    Ok(())
}

// The value of the slot that is told, 0 where there is no such slot.
fn told_value(cells: &Cells, code: u16) -> i32
    requires code { is_slot_code code ≡ true }
    ensures value { result ≡ cell_of cells.now 9 code }
{
    if TOLD_SLOT < cells.slot_count() {
        cells.value(TOLD_SLOT, code)
    } else {
        0
    }
}
