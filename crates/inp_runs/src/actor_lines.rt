//! All lines of an actor, over any device.
ghost use Rattle.std.specs.Prelude.{◌≡◌, ◌+◌, ◌≤◌, ◌<◌, false, length, drop, take, IfOk, IfSome, OnOk};
ghost use Rattle.std.specs.List.{range_with_len};
ghost use Rattle.inp_actors.specs.Command.{is_owner};
ghost use Rattle.inp_script.specs.ActorLine.{IsActedOn};
ghost use Rattle.inp_script.specs.DoneLine.{HasActor, IsWaiting};
ghost use Rattle.inp_runs.specs.DoingAll.{ActsAll, ActsSome, AreNumbersOf, EndsLines};
ghost use Rattle.inp_runs.specs.Job.{lines_by};

use crate::event_lines::{NO_STAMPED, gather_front};
use inp_actors::{Record, Role};
use inp_feedback::{FEEDBACK_MAX, Feeds};
use inp_model::{Evdev, NoMemory};
use inp_script::{Actor, Waiting};

// How many lines are done together at most: as many events as may wait for an owner, so that what one turn sends pushes
// out nothing that the same turn sent (this project's choice). It is less than a quarter of the smallest ring, so that a
// client that keeps up loses nothing to it.
const LINES_MAX: usize = 15;

const _: () = prove!(LINES_MAX == FEEDBACK_MAX);

/// Has the actor of this number do all its lines of a record, in file order, over the device that it is lent. An owner
/// makes its feedback calls, and any other actor calls of an evdev.
///
/// Lines that stand next to each other in the record and each inject an event of the actor are done together, up to 15
/// of them. One call of the device does them, and so they are under one turn. To the history it is the calls that the
/// lines would make one by one.
///
/// `lines` must be the numbers of the actor's lines, from 0 over the whole record, in file order (`AreNumbersOf`). No
/// other line is done. Where a [`Waiting`] is given the lines may wait, and a source that did not stop says at the
/// end that it is done, by the step `End`.
///
/// `NoMemory` comes where memory is short for what the actor saw or was told, or for a client that it opened. No line
/// was begun then after the one in which memory ran out, or after those that were done together with it. Whatever the
/// answer, all that was done with the device is calls, one after another (`left`).
pub fn do_lines<D: Evdev + Feeds>(
    actor: &mut Actor,
    dev: &mut D,
    rec: &Record,
    number: u32,
    lines: &[u32],
    wait: Option<Waiting>,
) -> Result<(), NoMemory>
    requires number { actor.old.actor ≡ number }
    requires actor { HasActor rec.now actor.old }
    requires lines { AreNumbersOf rec.now number lines.now }
    requires device { is_owner actor.old.role ≡ false
        → (D.told dev.old).description ≡ actor.old.description }
    requires wait { IfSome wait (IsWaiting rec.now actor.old) }
    ensures done { OnOk result (ActsAll D.told D.feeds dev.old dev.new
        rec.now wait actor.old actor.new) }
    ensures actor { actor.new ≡ record actor.old {
      job = actor.new.job;
      owning = actor.new.owning;
    } }
    ensures left { IsActedOn D.told D.feeds actor.old.role dev.old dev.new }
{
    let mut from = 0;
    while from < lines.len() {
        from += do_some(actor, dev, rec, number, lines, from, wait)?;
    }
    end_lines(actor, dev, rec, number, wait)
}

// Does the line that comes next, and where it injects an event, those that stand behind it in the record and inject one
// too. Says how many lines were done.
fn do_some<D: Evdev + Feeds>(
    actor: &mut Actor,
    dev: &mut D,
    rec: &Record,
    number: u32,
    lines: &[u32],
    from: usize,
    wait: Option<Waiting>,
) -> Result<usize, NoMemory>
    requires number { actor.old.actor ≡ number }
    requires actor { HasActor rec.now actor.old }
    requires lines { AreNumbersOf rec.now number lines.now }
    requires from { from < length lines.now }
    requires device { is_owner actor.old.role ≡ false
        → (D.told dev.old).description ≡ actor.old.description }
    requires wait { IfSome wait (IsWaiting rec.now actor.old) }
    ensures done { IfOk result (λ count. ActsSome D.told D.feeds dev.old dev.new rec.now wait
        (take count (drop from (lines_by number rec.now.lines))) actor.old actor.new) }
    ensures some { IfOk result (λ count. 1 ≤ count) }
    ensures within { IfOk result (λ count. from + count ≤ length lines.now) }
    ensures actor { actor.new ≡ record actor.old {
      job = actor.new.job;
      owning = actor.new.owning;
    } }
    ensures left { IsActedOn D.told D.feeds actor.old.role dev.old dev.new }
{
    let mut events = [NO_STAMPED; LINES_MAX];
    let first = lines[from];
    let gathered = gather_front(
        &rec.lines().as_slice()[first as usize..],
        number,
        &mut events,
    );
    let count = adjacent_count(first, &lines[from..], gathered);
    if count < 2 {
        actor.do_line(dev, rec, first, wait)?;
        return Ok(1);
    }
    actor.inject_all(dev, &events[..count])?;
    Ok(count)
}

// How many of these numbers rise by one each from the first one on: no more than so many.
fn adjacent_count(first: u32, numbers: &[u32], most: usize) -> usize
    ensures most { result ≤ most }
    ensures within { result ≤ length numbers.now }
    ensures adjacent { take result numbers.now ≡ range_with_len first result }
{
    let most = most.min(numbers.len());
    for at in 0..most {
        if numbers[at] as usize != first as usize + at {
            return at;
        }
    }
    most
}

// Does what an actor does when its lines are done.
fn end_lines<D: Evdev + Feeds>(
    actor: &mut Actor,
    dev: &mut D,
    rec: &Record,
    number: u32,
    wait: Option<Waiting>,
) -> Result<(), NoMemory>
    requires number { actor.old.actor ≡ number }
    requires actor { HasActor rec.now actor.old }
    requires device { is_owner actor.old.role ≡ false
        → (D.told dev.old).description ≡ actor.old.description }
    ensures done { OnOk result (EndsLines D.told D.feeds dev.old dev.new
        wait actor.old actor.new) }
    ensures actor { actor.new ≡ record actor.old { job = actor.new.job } }
    ensures left { IsActedOn D.told D.feeds actor.old.role dev.old dev.new }
{
    if wait.is_none() {
        return Ok(());
    }
    match rec.actors().get(number as usize).role {
        Role::Source => actor.end(dev),
        Role::Client | Role::Tap | Role::Joy | Role::Owner => Ok(()),
    }
}
