//! The lines of a device's description.
ghost use Rattle.std.specs.Prelude.{◌≡◌, ◌<◌, ◌≤◌, [], ◌∷◌, ◌++◌, codes, decimal, length, slice_get, string_bytes, OnOk};
ghost use Rattle.inp_model.specs.declared.event.TheConstants.{ABS_MAX};
ghost use Rattle.inp_model.specs.declared.limits.TheConstants.{FILTERS_MAX};
ghost use Rattle.inp_record.specs.canon.Words.{line_text, lines_text};
ghost use Rattle.inp_record.specs.canon.Device.{clock_words, number_lines, slots_lines, kind_lines, kinds_lines, code_lines, codes_lines, caps_lines, axis_words, axis_lines, axes_lines, filter_words, filter_lines, filters_lines, plain_lines, description_lines};

use crate::canon::info_text::InfoText;
use inp_caps::Caps;
use inp_model::{
    ABS_MAX, AxisInfo, Clock, EV_ABS, EV_KEY, EV_LED, EV_MAX, EV_MSC, EV_REL, EV_SND, EV_SW,
    FILTERS_MAX, Filter, KEY_MAX, NoMemory,
};
use inp_texts::{ClockText, CodeText, KindText};
use std::fmt::Write;

// Appends the lines of a description.
pub(crate) fn push_description(text: &mut String, caps: &Caps) -> Result<(), NoMemory>
    ensures pushed { OnOk result
        (string_bytes text.new
        ≡ string_bytes text.old ++ lines_text (description_lines caps.now)) }
{
    push_plain(text, caps)?;
    push_filters(text, caps)?;
    Ok(())
}

// All but the filters.
fn push_plain(text: &mut String, caps: &Caps) -> Result<(), NoMemory>
    ensures pushed { OnOk result
        (string_bytes text.new ≡ string_bytes text.old ++ lines_text (plain_lines caps.now)) }
{
    push_numbers(text, caps)?;
    push_slots(text, caps)?;
    push_kinds(text, caps)?;
    push_caps(text, caps)?;
    push_axes(text, caps)?;
    Ok(())
}

fn push_numbers(text: &mut String, caps: &Caps) -> Result<(), NoMemory>
    ensures pushed { OnOk result
        (string_bytes text.new ≡ string_bytes text.old ++ lines_text (number_lines caps.now)) }
{
    push_count(text, "hint", caps.hint())?;
    push_count(text, "log", caps.log())?;
    push_clock(text, caps, Clock::Realtime)?;
    push_clock(text, caps, Clock::Boottime)?;
    Ok(())
}

fn push_count(text: &mut String, word: &str, count: u32) -> Result<(), NoMemory>
    ensures pushed { OnOk result
        (string_bytes text.new
        ≡ string_bytes text.old ++ lines_text ((word.now ∷ decimal count ∷ []) ∷ [])) }
{
    write!(text, "{word} {count}\n")?;
    Ok(())
}

fn push_clock(text: &mut String, caps: &Caps, clock: Clock) -> Result<(), NoMemory>
    ensures pushed { OnOk result
        (string_bytes text.new
        ≡ string_bytes text.old ++ lines_text (clock_words caps.now clock ∷ [])) }
{
    let offset = caps.offset(clock);
    let clock = ClockText(clock);
    write!(text, "clock {clock} {offset}\n")?;
    Ok(())
}

fn push_slots(text: &mut String, caps: &Caps) -> Result<(), NoMemory>
    ensures pushed { OnOk result
        (string_bytes text.new ≡ string_bytes text.old ++ lines_text (slots_lines caps.now)) }
{
    if caps.slots() == 0 {
        Ok(())
    } else {
        push_count(text, "slots", caps.slots())
    }
}

// The types but EV_SYN.
fn push_kinds(text: &mut String, caps: &Caps) -> Result<(), NoMemory>
    ensures pushed { OnOk result
        (string_bytes text.new ≡ string_bytes text.old ++ lines_text (kinds_lines caps.now)) }
{
    for kind in 1..EV_MAX + 1 {
        push_kind(text, caps, kind)?;
    }
    Ok(())
}

fn push_kind(text: &mut String, caps: &Caps, kind: u16) -> Result<(), NoMemory>
    ensures pushed { OnOk result
        (string_bytes text.new ≡ string_bytes text.old ++ lines_text (kind_lines caps.now kind)) }
{
    if caps.has_kind(kind) {
        write!(text, "type {}\n", KindText(kind))?;
    }
    Ok(())
}

// The codes of the types that have lists of them.
fn push_caps(text: &mut String, caps: &Caps) -> Result<(), NoMemory>
    ensures pushed { OnOk result
        (string_bytes text.new ≡ string_bytes text.old ++ lines_text (caps_lines caps.now)) }
{
    for kind in [EV_KEY, EV_REL, EV_MSC, EV_SW, EV_LED, EV_SND] {
        push_codes(text, caps, kind)?;
    }
    Ok(())
}

fn push_codes(text: &mut String, caps: &Caps, kind: u16) -> Result<(), NoMemory>
    ensures pushed { OnOk result
        (string_bytes text.new ≡ string_bytes text.old ++ lines_text (codes_lines caps.now kind)) }
{
    for code in 0..KEY_MAX + 1 {
        push_code(text, caps, kind, code)?;
    }
    Ok(())
}

fn push_code(text: &mut String, caps: &Caps, kind: u16, code: u16) -> Result<(), NoMemory>
    ensures pushed { OnOk result
        (string_bytes text.new
        ≡ string_bytes text.old ++ lines_text (code_lines caps.now kind code)) }
{
    if caps.supports(kind, code) {
        let (kind, code) = (KindText(kind), CodeText { kind, code });
        write!(text, "cap {kind} {code}\n")?;
    }
    Ok(())
}

fn push_axes(text: &mut String, caps: &Caps) -> Result<(), NoMemory>
    ensures pushed { OnOk result
        (string_bytes text.new ≡ string_bytes text.old ++ lines_text (axes_lines caps.now)) }
{
    for code in 0..ABS_MAX + 1 {
        push_axis(text, caps, code)?;
    }
    Ok(())
}

fn push_axis(text: &mut String, caps: &Caps, code: u16) -> Result<(), NoMemory>
    requires code { code ≤ ABS_MAX }
    ensures pushed { OnOk result
        (string_bytes text.new ≡ string_bytes text.old ++ lines_text (axis_lines caps.now code)) }
{
    if caps.supports(EV_ABS, code) {
        push_axis_line(text, code, caps.axis(code))
    } else {
        Ok(())
    }
}

fn push_axis_line(text: &mut String, code: u16, info: AxisInfo) -> Result<(), NoMemory>
    ensures pushed { OnOk result
        (string_bytes text.new ≡ string_bytes text.old ++ line_text (axis_words code info)) }
{
    let code = CodeText::of_axis(code);
    let info = InfoText(info);
    write!(text, "axis {code}{info}")?;
    Ok(())
}

// The filters, in order.
fn push_filters(text: &mut String, caps: &Caps) -> Result<(), NoMemory>
    ensures pushed { OnOk result
        (string_bytes text.new ≡ string_bytes text.old ++ lines_text (filters_lines caps.now)) }
{
    for index in 0..FILTERS_MAX {
        push_filter_at(text, caps, index)?;
    }
    Ok(())
}

// The filter with this number, if there is one.
fn push_filter_at(text: &mut String, caps: &Caps, index: u32) -> Result<(), NoMemory>
    ensures pushed { OnOk result
        (string_bytes text.new
        ≡ string_bytes text.old ++ lines_text (filter_lines (slice_get caps.now.filters index))) }
    ensures few { length caps.now.filters ≤ FILTERS_MAX }
{
    match caps.filter(index) {
        Some(filter) => push_filter(text, filter),
        None => Ok(()),
    }
}

#[tactic(auto, unfolding(crate::specs::canon::Device::filter_words))]
fn push_filter(text: &mut String, filter: Filter) -> Result<(), NoMemory>
    ensures pushed { OnOk result
        (string_bytes text.new ≡ string_bytes text.old ++ line_text (filter_words filter)) }
{
    match filter {
        Filter::Eat { kind, code } => {
            let (kind, code) = (KindText(kind), CodeText { kind, code });
            write!(text, "filter eat {kind} {code}\n")?;
        }
        Filter::Norepeat => text.push_str("filter norepeat\n")?,
        Filter::Chord { first, second } => {
            let (first, second) = (CodeText::of_key(first), CodeText::of_key(second));
            write!(text, "filter chord {first} {second}\n")?;
        }
        Filter::Bounce { code, micros } => {
            let code = CodeText::of_key(code);
            write!(text, "filter bounce {code} {micros}\n")?;
        }
    }
    Ok(())
}
