//! The whole report.
ghost use Rattle.std.specs.Prelude.{◌≡◌, ◌++◌, IfOk, OnOk, flat_map};
ghost use Rattle.std.specs.List.{enumerate_from};
ghost use Rattle.inp_report.specs.Report.{device_line, step_line, part_text, run_text, report};
ghost use Rattle.inp_script.specs.Runs.{AreRunsOf, IsRunOf};

use crate::jobs::push_job;
use crate::step_text::push_step_text;
use crate::words::push_numbered;
use inp_actors::{Actors, DeviceText, Name, Record, Role};
use inp_model::{NoMemory, Step};
use inp_script::{JobEnd, Run, Runs};
use inp_texts::Page;
use std::alloc::Global;

/// The report of a record and of its result. It has the devices in order, each with the number of its steps, and with
/// all its steps where `history` is wanted. Each device also has what each of its actors did, saw and knows at the end.
///
/// `runs` must be those of this record: one run for each device, in order. Each has one job for each actor of the
/// device but joysticks and owners, in order, whose view is of the device. It takes time and memory in proportion to
/// the text.
///
/// # Errors
///
/// `NoMemory` where memory is short for the text.
pub fn report(alloc: Global, rec: &Record, runs: &Runs, history: bool) -> Result<Vec<u8>, NoMemory>
    requires runs { AreRunsOf rec.now runs.now }
    ensures text { IfOk result (λ text. text.items ≡ report rec.now runs.now history) }
{
    let mut text = Page::new(alloc);
    text.reserve(expected_lines(rec.actors(), runs, history).saturating_mul(LINE_LEN));
    push_runs(&mut text, rec, runs, history)?;
    text.into_bytes()
}

/// How long a line is expected to be (this project's choice: most are shorter).
const LINE_LEN: usize = 40;

// About how many lines the report will have.
fn expected_lines(actors: &Actors, runs: &Runs, history: bool) -> usize {
    let mut lines: usize = 0;
    for run in runs.as_slice() {
        let steps = if history { run.history.len() } else { 0 };
        let seen = seen_by(actors, run.jobs.as_slice());
        lines = lines.saturating_add(steps).saturating_add(seen);
    }
    lines
}

// How many entries of these jobs are printed: those of a source are counted only.
fn seen_by(actors: &Actors, jobs: &[JobEnd]) -> usize {
    let mut seen: usize = 0;
    for job in jobs {
        if let Some(actor) = actors.as_slice().get(job.actor() as usize) {
            if !matches!(actor.role, Role::Source) {
                seen = seen.saturating_add(job.sight().len());
            }
        }
    }
    seen
}

fn push_runs(text: &mut Page, rec: &Record, runs: &Runs, history: bool) -> Result<(), NoMemory>
    requires runs { AreRunsOf rec.now runs.now }
    ensures pushed { OnOk result
        (text.new ≡ text.old ++ report rec.now runs.now history) }
{
    for (index, run) in runs.as_slice().iter().enumerate() {
        let device = rec.devices().get(index);
        push_run(text, rec.actors(), index, device, run, history)?;
    }
    Ok(())
}

fn push_run(
    text: &mut Page,
    actors: &Actors,
    index: usize,
    device: &DeviceText,
    run: &Run,
    history: bool,
) -> Result<(), NoMemory>
    requires run { IsRunOf actors.now index device.now run.now }
    ensures pushed { OnOk result
        (text.new
        ≡ text.old ++ run_text actors.now history part_text (device.now, run.now)) }
{
    push_device(text, &device.name, run.history.len())?;
    if history {
        push_history(text, run.history.as_slice())?;
    }
    for job in run.jobs.as_slice() {
        push_job(text, actors, &device.caps, job)?;
    }
    Ok(())
}

#[tactic(auto, unfolding(crate::specs::Report::device_line))]
pub(crate) fn push_device(text: &mut Page, name: &Name, steps: usize) -> Result<(), NoMemory>
    ensures pushed { OnOk result
        (text.new ≡ text.old ++ device_line name.now steps) }
{
    text.push_str("device ")?;
    text.push_str(name.as_str())?;
    push_numbered(text, " steps ", steps as u64)?;
    text.push_str("\n")?;
    Ok(())
}

fn push_history(text: &mut Page, history: &[Step]) -> Result<(), NoMemory>
    ensures pushed { OnOk result
        (text.new
        ≡ text.old ++ flat_map step_line (enumerate_from 0 history.now)) }
{
    for (place, step) in history.iter().enumerate() {
        push_step(text, place, *step)?;
    }
    Ok(())
}

#[tactic(auto, unfolding(crate::specs::Report::step_line))]
fn push_step(text: &mut Page, place: usize, step: Step) -> Result<(), NoMemory>
    ensures pushed { OnOk result
        (text.new ≡ text.old ++ step_line (place, step)) }
{
    push_numbered(text, "step ", place as u64)?;
    text.push_str(" ")?;
    push_step_text(text, step)?;
    text.push_str("\n")?;
    Ok(())
}
