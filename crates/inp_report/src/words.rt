//! How events, masks, axes, refusals and stops are written.
ghost use Rattle.std.specs.Prelude.{◌≡◌, ◌++◌, codes, decimal, OnOk};
ghost use Rattle.std.specs.Fmt.{signed_decimal};
ghost use Rattle.inp_model.specs.declared.event.TheConstants.{EV_ABS};
ghost use Rattle.inp_texts.specs.Texts.{kind_text, code_text, bits_text};
ghost use Rattle.inp_report.specs.Words.{event_text, refusal_text, axis_numbers, stop_text};

use inp_model::{AxisInfo, EV_ABS, Event, NoMemory, Refusal};
use inp_script::Stop;
use inp_texts::{BitsText, Page, push_code, push_kind, push_number, push_signed};

/// Appends the words before a number, with the space between, and the number.
#[inline(always)]
pub(crate) fn push_numbered(text: &mut Page, before: &str, number: u64) -> Result<(), NoMemory>
    ensures pushed { OnOk result
        (text.new ≡ text.old ++ (before.now ++ decimal number)) }
{
    text.push_str(before)?;
    push_number(text, number)
}

/// Appends a number that may be negative, after a space.
#[inline(always)]
pub(crate) fn push_spaced(text: &mut Page, number: i32) -> Result<(), NoMemory>
    ensures pushed { OnOk result
        (text.new ≡ text.old ++ (codes " " ++ signed_decimal number)) }
{
    text.push_str(" ")?;
    push_signed(text, number)
}

/// Appends the type, code and value of an event.
#[inline(never)]
#[tactic(auto, unfolding(crate::specs::Words::event_text))]
pub(crate) fn push_event(text: &mut Page, event: Event) -> Result<(), NoMemory>
    ensures pushed { OnOk result
        (text.new ≡ text.old ++ event_text event) }
{
    push_kind(text, event.kind)?;
    text.push_str(" ")?;
    push_code(text, event.kind, event.code)?;
    push_spaced(text, event.value)
}

/// Appends the type, the word and the bits of a mask that is set.
pub(crate) fn push_mask(text: &mut Page, kind: u16, word: u16, bits: u64) -> Result<(), NoMemory>
    ensures pushed { OnOk result
        (text.new
        ≡ text.old
        ++ (kind_text kind ++ (codes " " ++ (decimal word ++ (codes " " ++ bits_text bits))))) }
{
    push_kind(text, kind)?;
    push_numbered(text, " ", u64::from(word))?;
    write!(text, " {}", BitsText(bits))?;
    Ok(())
}

/// Appends why a step was refused.
pub(crate) fn push_refusal(text: &mut Page, why: Refusal) -> Result<(), NoMemory>
    ensures pushed { OnOk result
        (text.new ≡ text.old ++ refusal_text why) }
{
    text.push_str(refusal_word(why))?;
    Ok(())
}

#[tactic(auto, unfolding(crate::specs::Words::refusal_text))]
fn refusal_word(why: Refusal) -> &'static str
    ensures word { result.now ≡ refusal_text why }
{
    match why {
        Refusal::BadClient => "bad-client",
        Refusal::NoDevice => "no-device",
        Refusal::BadKind => "bad-kind",
        Refusal::BadCode => "bad-code",
        Refusal::BadInfo => "bad-info",
        Refusal::Busy => "busy",
        Refusal::NotGrabber => "not-grabber",
        Refusal::TooMany => "too-many",
        Refusal::LogFull => "log-full",
        Refusal::NoMemory => "no-memory",
    }
}

/// Appends the numbers of an axis, each after a space.
#[tactic(auto, unfolding(crate::specs::Words::axis_numbers))]
pub(crate) fn push_axis(text: &mut Page, info: AxisInfo) -> Result<(), NoMemory>
    ensures pushed { OnOk result (text.new ≡ text.old ++ axis_numbers info) }
{
    let AxisInfo {
        value,
        minimum,
        maximum,
        fuzz,
        flat,
        resolution,
    } = info;
    write!(
        text,
        " {value} {minimum} {maximum} {fuzz} {flat} {resolution}"
    )?;
    Ok(())
}

/// Appends an axis and its value, after a space.
pub(crate) fn push_value(text: &mut Page, code: u16, value: i32) -> Result<(), NoMemory>
    ensures pushed { OnOk result
        (text.new
        ≡ text.old
        ++ (codes " " ++ (code_text EV_ABS code ++ (codes "=" ++ signed_decimal value)))) }
{
    text.push_str(" ")?;
    push_code(text, EV_ABS, code)?;
    text.push_str("=")?;
    push_signed(text, value)
}

/// Appends why a job ended.
#[tactic(auto, unfolding(crate::specs::Words::stop_text))]
pub(crate) fn push_stop(text: &mut Page, stop: Stop) -> Result<(), NoMemory>
    ensures pushed { OnOk result (text.new ≡ text.old ++ stop_text stop) }
{
    match stop {
        Stop::Finished => Ok(text.push_str("finished")?),
        Stop::Idle { turns, at } => {
            push_numbered(text, "idle ", u64::from(turns))?;
            push_numbered(text, " ", u64::from(at))
        }
        Stop::Full { at } => push_numbered(text, "full ", u64::from(at)),
    }
}
