//! How steps are written.
ghost use Rattle.std.specs.Prelude.{◌≡◌, ◌++◌, codes, decimal, OnOk};
ghost use Rattle.inp_model.specs.declared.event.TheConstants.{EV_ABS};
ghost use Rattle.inp_texts.specs.Texts.{code_text, clock_text};
ghost use Rattle.inp_report.specs.Words.{event_text};
ghost use Rattle.inp_report.specs.Steps.{step_text};

use crate::words::{push_axis, push_event, push_mask, push_numbered};
use inp_model::{Clock, EV_ABS, Event, NoMemory, Step};
use inp_texts::{ClockText, Page, push_code};

/// Appends a step.
#[tactic(auto, unfolding(crate::specs::Steps::step_text))]
pub(crate) fn push_step_text(text: &mut Page, step: Step) -> Result<(), NoMemory>
    ensures pushed { OnOk result (text.new ≡ text.old ++ step_text step) }
{
    match step {
        Step::Inject { event, now } => push_timed(text, "inject ", now, event),
        Step::Tick { now } => push_numbered(text, "tick ", now),
        Step::Open => Ok(text.push_str("open")?),
        Step::Close { client } => push_numbered(text, "close ", u64::from(client)),
        Step::Read { client, count } => {
            push_numbered(text, "read ", u64::from(client))?;
            push_numbered(text, " ", u64::from(count))
        }
        Step::Discard { client } => push_numbered(text, "discard ", u64::from(client)),
        Step::GetKeys { client } => push_numbered(text, "getkeys ", u64::from(client)),
        Step::GetSwitches { client } => push_numbered(text, "getswitches ", u64::from(client)),
        Step::GetLeds { client } => push_numbered(text, "getleds ", u64::from(client)),
        Step::GetSounds { client } => push_numbered(text, "getsounds ", u64::from(client)),
        Step::GetAxis { client, code } => push_of_axis(text, "getaxis ", client, code),
        Step::SetAxis { client, code, info } => {
            push_of_axis(text, "setaxis ", client, code)?;
            push_axis(text, info)
        }
        Step::GetSlots { client, code } => push_of_axis(text, "getslots ", client, code),
        Step::SyncSlots { client } => push_numbered(text, "syncslots ", u64::from(client)),
        Step::Write { client, event, now } => {
            push_numbered(text, "write ", u64::from(client))?;
            push_timed(text, " ", now, event)
        }
        Step::Grab { client } => push_numbered(text, "grab ", u64::from(client)),
        Step::Ungrab { client } => push_numbered(text, "ungrab ", u64::from(client)),
        Step::Mask {
            client,
            kind,
            word,
            bits,
        } => {
            push_numbered(text, "mask ", u64::from(client))?;
            text.push_str(" ")?;
            push_mask(text, kind, word, bits)
        }
        Step::Clock { client, clock, now } => {
            push_numbered(text, "clock ", u64::from(client))?;
            push_clock_at(text, clock, now)
        }
        Step::Revoke { client } => push_numbered(text, "revoke ", u64::from(client)),
        Step::Inhibit { now } => push_numbered(text, "inhibit ", now),
        Step::Uninhibit => Ok(text.push_str("uninhibit")?),
        Step::End => Ok(text.push_str("end")?),
    }
}

/// Appends the words before a moment, the moment and an event.
fn push_timed(text: &mut Page, before: &str, now: u64, event: Event) -> Result<(), NoMemory>
    ensures pushed { OnOk result
        (text.new
        ≡ text.old ++ (before.now ++ (decimal now ++ (codes " " ++ event_text event)))) }
{
    push_numbered(text, before, now)?;
    text.push_str(" ")?;
    push_event(text, event)
}

/// Appends the words before a client, the client and an axis.
fn push_of_axis(text: &mut Page, before: &str, client: u32, code: u16) -> Result<(), NoMemory>
    ensures pushed { OnOk result
        (text.new
        ≡ text.old
        ++ (before.now ++ (decimal client ++ (codes " " ++ code_text EV_ABS code)))) }
{
    push_numbered(text, before, u64::from(client))?;
    text.push_str(" ")?;
    push_code(text, EV_ABS, code)
}

/// Appends a clock and a moment, each after a space.
fn push_clock_at(text: &mut Page, clock: Clock, now: u64) -> Result<(), NoMemory>
    ensures pushed { OnOk result
        (text.new
        ≡ text.old
        ++ (codes " " ++ (clock_text clock ++ (codes " " ++ decimal now)))) }
{
    write!(text, " {}", ClockText(clock))?;
    push_numbered(text, " ", now)
}
