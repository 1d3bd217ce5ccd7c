//! What a client does, which reads by a reader.
ghost use Rattle.std.specs.Prelude.{◌≡◌, ◌<◌, ◌^◌, ℕ, suc, true, OnOk, IfOk, IfSome, IfNone, Some};
ghost use Rattle.inp_reader.specs.Effort.{effort};
ghost use Rattle.inp_reader.specs.Reader.{ReaderState};
ghost use Rattle.inp_script.specs.Client.{start_job, client_talk, hand_talk, next_round, rounds, turn_after, after_again, patience, handed, is_done, one_less, mode_of};
ghost use Rattle.inp_actors.specs.declared.role.Role.TheVariants.{Client};
ghost use Rattle.inp_actors.specs.Command.{is_command_of, is_in_range};
ghost use Rattle.inp_script.specs.DoneLine.{Begins, Holds, HandsOut, DoesClientCommand};
ghost use Rattle.inp_script.specs.Line.{call_if, step_of};
ghost use Rattle.inp_script.specs.Job.{Job};
ghost use Rattle.inp_script.specs.Effort.{total_effort, Shrinks};
ghost use Rattle.inp_script.specs.Progress.{going, turn_of, IsPatient, IsAnew};
ghost use Rattle.inp_script.specs.Rounds.{most_of, less_by, HandsRun, IsAdvanced};
ghost use Rattle.inp_script.specs.Notes.{job_of};

use crate::notes::Notes;
use crate::steps::step_of;
use crate::{Sight, Stop, Waiting};
use inp_actors::Command;
use inp_model::{Evdev, NoMemory};
use inp_reader::{Mode, Next, Phase, Reader, Started};

/// How far a line that hands out events has come.
#[derive(Clone, Copy)]
pub(crate) struct Progress {
    /// How many events are still to be handed out, if there is a number.
    pub(crate) left: Option<u32>,
    /// How many answers Again came last, one after another.
    pub(crate) agains: u64,
}

/// Whether a line goes on.
#[derive(Clone, Copy)]
pub(crate) enum Turn {
    GoesOn { progress: Progress },
    Ends,
}

// Starts a reader, and notes its calls.
fn start<E: Evdev>(dev: &mut E, reader: &mut Reader, notes: &mut Notes) -> Result<(), NoMemory>
    requires description { (E.told dev.old).description ≡ reader.old.description }
    ensures done { OnOk result (Holds (E.told dev.old) (E.told dev.new)
        (start_job reader.old.description (job_of reader.old.reading notes.old))
        (Some (job_of reader.new.reading notes.new))) }
    ensures begun { Begins (E.told dev.old) (E.told dev.new)
        (start_job reader.old.description (job_of reader.old.reading notes.old)) }
    ensures reader { reader.new.description ≡ reader.old.description }
{
    let started = reader.start(dev);
    notes.note_start(started, reader.made())
}

// How a line asks its reader: one that skips what the reader makes itself, or another one by the phase.
fn mode_of(skips: bool, phase: Phase) -> Mode
    ensures { result ≡ mode_of skips phase }
{
    match phase {
        Phase::Plain => Mode::Normal,
        Phase::Needed | Phase::Handing => { if skips { Mode::Normal } else { Mode::Sync } }
    }
}

// Whether nothing is left to hand out.
fn is_done(left: Option<u32>) -> bool
    ensures { result ≡ is_done left }
{
    matches!(left, Some(0))
}

// A line after an event was handed out.
fn handed(left: Option<u32>) -> Turn
    ensures turn { (j : Job) → handed (one_less left) j ≡ turn_of result j }
    ensures patient { IsPatient result }
{
    match left {
        None => Turn::GoesOn {
            progress: Progress {
                left: None,
                agains: 0,
            },
        },
        Some(0 | 1) => Turn::Ends,
        Some(n) => Turn::GoesOn {
            progress: Progress {
                left: Some(n - 1),
                agains: 0,
            },
        },
    }
}

// The most events that a line may be handed in one go.
fn most_of(left: Option<u32>) -> u32
    ensures { result ≡ most_of left }
{
    match left {
        None => u32::MAX,
        Some(n) => n.max(1),
    }
}

// A line after so many events were handed out.
fn handed_run(left: Option<u32>, count: usize) -> Turn
    ensures turn { (j : Job) → handed (less_by count left) j ≡ turn_of result j }
    ensures patient { IsPatient result }
    ensures anew { IsAnew result }
{
    match left {
        None => Turn::GoesOn {
            progress: Progress {
                left: None,
                agains: 0,
            },
        },
        Some(n) if n as usize <= count => Turn::Ends,
        Some(n) => Turn::GoesOn {
            progress: Progress {
                left: Some(n - count as u32),
                agains: 0,
            },
        },
    }
}

impl Notes {
    // Notes an answer Again, unless the line waits and goes on.
    fn note_again(
        &mut self,
        wait: Option<Waiting>,
        progress: Progress,
        at: u32,
        ends: u32,
    ) -> Result<Turn, NoMemory>
        requires patient { progress.agains < 2 ^ 32 }
        ensures turn { IfOk result (λ turn. (r : ReaderState) →
            after_again (patience wait ends) progress.left (suc progress.agains) at ends
            (job_of r self.old) ≡ turn_of turn (job_of r self.new)) }
        ensures patient { IfOk result IsPatient }
    {
        let agains = progress.agains + 1;
        if let Some(waiting) = wait {
            if ends < waiting.sources {
                if agains < u64::from(waiting.idle) {
                    return Ok(Turn::GoesOn {
                        progress: Progress {
                            left: progress.left,
                            agains,
                        },
                    });
                }
                self.stop = Some(Stop::Idle {
                    turns: waiting.idle,
                    at,
                });
            }
        }
        self.sight.push(Sight::Again { at, ends })?;
        Ok(Turn::Ends)
    }

    // Notes an answer of a reader, and says whether the line goes on.
    fn note_next(
        &mut self,
        wait: Option<Waiting>,
        progress: Progress,
        next: Next,
    ) -> Result<Turn, NoMemory>
        requires patient { progress.agains < 2 ^ 32 }
        ensures turn { IfOk result (λ turn. (r : ReaderState) →
            turn_after wait progress.left progress.agains next (job_of r self.old)
            ≡ turn_of turn (job_of r self.new)) }
        ensures patient { IfOk result IsPatient }
    {
        match next {
            Next::Success { event } | Next::Dropped { event } => {
                self.sight.push(Sight::Took { event })?;
                Ok(handed(progress.left))
            }
            Next::Sync { event } => {
                self.sight.push(Sight::Made { event })?;
                Ok(handed(progress.left))
            }
            Next::Synced => Ok(Turn::GoesOn {
                progress: Progress {
                    left: progress.left,
                    agains: 0,
                },
            }),
            Next::Again { at, ends } => self.note_again(wait, progress, at, ends),
            Next::NoDevice | Next::Closed => Ok(Turn::Ends),
            Next::Full { at } => {
                self.stop = Some(Stop::Full { at });
                Ok(Turn::Ends)
            }
        }
    }
}

// Asks a reader once for its next event, and notes its calls and its answer.
fn ask_reader<E: Evdev>(
    dev: &mut E,
    reader: &mut Reader,
    notes: &mut Notes,
    wait: Option<Waiting>,
    skips: bool,
    progress: Progress,
) -> Result<Turn, NoMemory>
    requires description { (E.told dev.old).description ≡ reader.old.description }
    requires patient { progress.agains < 2 ^ 32 }
    ensures turn { IfOk result (λ turn. Holds (E.told dev.old) (E.told dev.new)
        (next_round reader.old.description wait skips
        (going progress (job_of reader.old.reading notes.old)))
        (turn_of turn (job_of reader.new.reading notes.new))) }
    ensures begun { Begins (E.told dev.old) (E.told dev.new)
        (next_round reader.old.description wait skips
        (going progress (job_of reader.old.reading notes.old))) }
    ensures patient { IfOk result IsPatient }
    ensures shrinks { let before = effort (E.told dev.old) reader.old.reading in
        IfOk result (Shrinks wait (total_effort wait before progress.agains)
        (effort (E.told dev.new) reader.new.reading)) }
    ensures reader { reader.new.description ≡ reader.old.description }
{
    let mode = mode_of(skips, reader.phase());
    let next = reader.next(dev, mode);
    notes.push_made(reader.made())?;
    notes.note_next(wait, progress, next)
}

// Hands out in one go what a reader has read, up to a loss, where it has anything.
fn hand_queued(
    reader: &mut Reader,
    notes: &mut Notes,
    left: Option<u32>,
) -> Result<Option<Turn>, NoMemory>
    ensures none { IfOk result (λ turn. IfNone turn
        ((reader.new ≡ reader.old) × (notes.new ≡ notes.old))) }
    ensures some { IfOk result (λ turn. IfSome turn (λ t. HandsRun left
        (job_of reader.old.reading notes.old) t (job_of reader.new.reading notes.new))) }
    ensures reader { reader.new.description ≡ reader.old.description }
{
    let run = reader.queued(most_of(left));
    if run.is_empty() {
        return Ok(None);
    }
    let count = run.len();
    notes.sight.push_taken(run)?;
    reader.take_queued(count);
    Ok(Some(handed_run(left, count)))
}

// Hands out what a reader has read, or else asks it once for its next event.
fn advance<E: Evdev>(
    dev: &mut E,
    reader: &mut Reader,
    notes: &mut Notes,
    wait: Option<Waiting>,
    skips: bool,
    progress: Progress,
) -> Result<Turn, NoMemory>
    requires description { (E.told dev.old).description ≡ reader.old.description }
    requires patient { progress.agains < 2 ^ 32 }
    ensures turn { IfOk result (λ turn. IsAdvanced (E.told dev.old) (E.told dev.new)
        reader.old.description wait skips (going progress (job_of reader.old.reading notes.old))
        (turn_of turn (job_of reader.new.reading notes.new))) }
    ensures begun { (n : ℕ) × Begins (E.told dev.old) (E.told dev.new)
        (rounds reader.old.description wait skips n
        (going progress (job_of reader.old.reading notes.old))) }
    ensures patient { IfOk result IsPatient }
    ensures shrinks { let before = effort (E.told dev.old) reader.old.reading in
        IfOk result (Shrinks wait (total_effort wait before progress.agains)
        (effort (E.told dev.new) reader.new.reading)) }
    ensures reader { reader.new.description ≡ reader.old.description }
{
    match hand_queued(reader, notes, progress.left)? {
        Some(turn) => Ok(turn),
        None => ask_reader(dev, reader, notes, wait, skips, progress),
    }
}

// Asks a reader for its events until the line ends: after so many, where there is a number.
fn hand_out<E: Evdev>(
    dev: &mut E,
    reader: &mut Reader,
    notes: &mut Notes,
    wait: Option<Waiting>,
    skips: bool,
    count: Option<u32>,
) -> Result<(), NoMemory>
    requires description { (E.told dev.old).description ≡ reader.old.description }
    ensures done { OnOk result (HandsOut (E.told dev.old) (E.told dev.new)
        reader.old.description wait skips count
        (job_of reader.old.reading notes.old) (job_of reader.new.reading notes.new)) }
    ensures begun { (rounds : ℕ) × Begins (E.told dev.old) (E.told dev.new)
        (hand_talk reader.old.description wait skips count rounds
        (job_of reader.old.reading notes.old)) }
    ensures reader { reader.new.description ≡ reader.old.description }
{
    if is_done(count) {
        return Ok(());
    }
    let mut progress = Progress {
        left: count,
        agains: 0,
    };
    loop {
        match advance(dev, reader, notes, wait, skips, progress)? {
            Turn::GoesOn { progress: next } => progress = next,
            Turn::Ends => return Ok(()),
        }
    }
}

// Does a command of a client.
pub(crate) fn do_client_command<E: Evdev>(
    dev: &mut E,
    reader: &mut Reader,
    notes: &mut Notes,
    command: &Command,
    wait: Option<Waiting>,
) -> Result<(), NoMemory>
    requires of_role { is_command_of Client command.now ≡ true }
    requires in_range { is_in_range Client command.now ≡ true }
    requires description { (E.told dev.old).description ≡ reader.old.description }
    ensures done { OnOk result (DoesClientCommand (E.told dev.old) (E.told dev.new)
        reader.old.description wait command.now
        (job_of reader.old.reading notes.old) (job_of reader.new.reading notes.new)) }
    ensures begun { (rounds : ℕ) × Begins (E.told dev.old) (E.told dev.new)
        (client_talk reader.old.description wait rounds command.now
        (job_of reader.old.reading notes.old)) }
    ensures reader { reader.new.description ≡ reader.old.description }
{
    match *command {
        Command::Open => start(dev, reader, notes),
        Command::Next { count } => hand_out(dev, reader, notes, None, false, Some(count)),
        Command::Skip { count } => hand_out(dev, reader, notes, None, true, Some(count)),
        Command::Follow => hand_out(dev, reader, notes, wait, false, None),
        Command::Force => {
            reader.force_sync();
            Ok(())
        }
        _ => call(dev, reader, notes, command),
    }
}

// Does a command of a client that is a single call.
fn call<E: Evdev>(
    dev: &mut E,
    reader: &Reader,
    notes: &mut Notes,
    command: &Command,
) -> Result<(), NoMemory>
    requires of_role { is_command_of Client command.now ≡ true }
    requires in_range { is_in_range Client command.now ≡ true }
    ensures done { OnOk result (Holds (E.told dev.old) (E.told dev.new)
        (call_if (job_of reader.now.reading notes.old)
        (step_of reader.now.reading.client command.now))
        (Some (job_of reader.now.reading notes.new))) }
    ensures begun { Begins (E.told dev.old) (E.told dev.new)
        (call_if (job_of reader.now.reading notes.old)
        (step_of reader.now.reading.client command.now)) }
{
    let Some(step) = step_of(reader.client(), command) else {
        return Ok(());
    };
    notes.call(dev, step)?;
    Ok(())
}
