//! What a view says of a device.
ghost use Rattle.std.specs.Prelude.{◌≡◌, ◌*◌, ◌-◌, ◌<◌, ◌≤◌, ◌++◌, true, pos, codes, length, OnOk, flat_map, slice_index_or};
ghost use Rattle.std.specs.List.{range_with_len};
ghost use Rattle.std.specs.Fmt.{signed_decimal};
ghost use Rattle.inp_model.specs.declared.event.TheConstants.{EV_ABS};
ghost use Rattle.inp_model.specs.declared.multi_touch.TheConstants.{ABS_MT_TOUCH_MAJOR, SLOT_VALUES};
ghost use Rattle.inp_model.specs.Description.{is_slot_code};
ghost use Rattle.inp_recon.specs.Cells.{slot_count, cell_of};
ghost use Rattle.inp_recon.specs.View.{IsSizedFor};
ghost use Rattle.inp_reader.specs.Reader.{axes_among, plain_axes};
ghost use Rattle.inp_report.specs.Words.{LINE_FEED, flags_text};
ghost use Rattle.inp_report.specs.Entries.{axis_entry};
ghost use Rattle.inp_report.specs.Views.{kind_line, values_text, slot_line, slots_text, view_text};

use crate::bits::push_flags;
use crate::words::{push_numbered, push_value};
use inp_bits::Bits;
use inp_caps::Caps;
use inp_model::{
    ABS_MAX, ABS_MT_SLOT, ABS_MT_TOOL_Y, ABS_MT_TOUCH_MAJOR, EV_ABS, EV_KEY, EV_LED, EV_SW,
    NoMemory,
};
use inp_recon::{Cells, View};
use inp_texts::{Page, push_signed};

#[tactic(auto, unfolding(crate::specs::Views::view_text))]
pub(crate) fn push_view(text: &mut Page, caps: &Caps, view: &View) -> Result<(), NoMemory>
    requires view { IsSizedFor caps.now.slots view.now }
    ensures pushed { OnOk result
        (text.new ≡ text.old ++ view_text caps.now view.now) }
{
    push_flags_line(text, "keys", caps, EV_KEY, &view.keys)?;
    push_flags_line(text, "switches", caps, EV_SW, &view.switches)?;
    push_flags_line(text, "leds", caps, EV_LED, &view.leds)?;
    push_axes(text, caps, &view.axes)?;
    push_slots(text, caps, view)
}

#[tactic(auto, unfolding(crate::specs::Views::kind_line))]
fn push_flags_line<const W: usize>(
    text: &mut Page,
    word: &str,
    caps: &Caps,
    kind: u16,
    flags: &Bits<W>,
) -> Result<(), NoMemory>
    requires few { W ≤ 1024 }
    ensures pushed { OnOk result
        (text.new
        ≡ text.old ++ kind_line caps.now kind (word.now ++ flags_text kind flags.now)) }
{
    if !caps.has_kind(kind) {
        return Ok(());
    }
    text.push_str(word)?;
    push_flags(text, kind, flags)?;
    text.push_str("\n")?;
    Ok(())
}

#[tactic(auto, unfolding(crate::specs::Views::kind_line))]
fn push_axes(text: &mut Page, caps: &Caps, axes: &[i32; 64]) -> Result<(), NoMemory>
    ensures pushed { OnOk result
        (text.new
        ≡ text.old
        ++ kind_line caps.now EV_ABS (codes "axes"
        ++ values_text (λ code. slice_index_or axes.now code (pos 0)) (plain_axes caps.now))) }
{
    if !caps.has_kind(EV_ABS) {
        return Ok(());
    }
    text.push_str("axes")?;
    push_axis_entries(text, caps, axes, 0, ABS_MT_SLOT)?;
    push_axis_entries(text, caps, axes, ABS_MT_TOOL_Y + 1, ABS_MAX + 1)?;
    text.push_str("\n")?;
    Ok(())
}

// Appends the values of the supported axes from `first` to before `end`.
fn push_axis_entries(
    text: &mut Page,
    caps: &Caps,
    axes: &[i32; 64],
    first: u16,
    end: u16,
) -> Result<(), NoMemory>
    requires order { first ≤ end }
    requires axes { end ≤ 64 }
    ensures pushed { OnOk result
        (text.new
        ≡ text.old
        ++ values_text (λ code. slice_index_or axes.now code (pos 0))
        (axes_among caps.now first (end - first))) }
{
    for code in first..end {
        push_axis_entry(text, caps, axes, code)?;
    }
    Ok(())
}

fn push_axis_entry(
    text: &mut Page,
    caps: &Caps,
    axes: &[i32; 64],
    code: u16,
) -> Result<(), NoMemory>
    requires code { code < 64 }
    ensures pushed { OnOk result
        (text.new
        ≡ text.old ++ axis_entry caps.now (λ code. slice_index_or axes.now code (pos 0)) code) }
{
    if caps.supports(EV_ABS, code) {
        push_value(text, code, axes[usize::from(code)])
    } else {
        Ok(())
    }
}

#[tactic(auto, unfolding(crate::specs::Views::slots_text))]
fn push_slots(text: &mut Page, caps: &Caps, view: &View) -> Result<(), NoMemory>
    requires cells { length view.now.cells ≡ SLOT_VALUES * caps.now.slots }
    ensures pushed { OnOk result
        (text.new ≡ text.old ++ slots_text caps.now view.now) }
{
    if caps.slots() == 0 {
        return Ok(());
    }
    push_current(text, view.slot)?;
    push_slot_lines(text, caps, &view.cells)
}

fn push_current(text: &mut Page, slot: i32) -> Result<(), NoMemory>
    ensures pushed { OnOk result
        (text.new ≡ text.old ++ (codes "current " ++ (signed_decimal slot ++ LINE_FEED))) }
{
    text.push_str("current ")?;
    push_signed(text, slot)?;
    text.push_str("\n")?;
    Ok(())
}

fn push_slot_lines(text: &mut Page, caps: &Caps, cells: &Cells) -> Result<(), NoMemory>
    requires cells { length cells.now ≡ SLOT_VALUES * caps.now.slots }
    ensures pushed { OnOk result
        (text.new
        ≡ text.old
        ++ flat_map (slot_line caps.now cells.now) (range_with_len 0 caps.now.slots)) }
{
    let slots = caps.slots();
    for slot in 0..slots {
        push_slot_line(text, caps, cells, slot)?;
    }
    Ok(())
}

#[tactic(auto, unfolding(crate::specs::Views::slot_line))]
fn push_slot_line(text: &mut Page, caps: &Caps, cells: &Cells, slot: u32) -> Result<(), NoMemory>
    requires slot { slot < slot_count cells.now }
    ensures pushed { OnOk result
        (text.new ≡ text.old ++ slot_line caps.now cells.now slot) }
{
    push_numbered(text, "slot ", u64::from(slot))?;
    push_slot_entries(text, caps, cells, slot)?;
    text.push_str("\n")?;
    Ok(())
}

fn push_slot_entries(text: &mut Page, caps: &Caps, cells: &Cells, slot: u32) -> Result<(), NoMemory>
    requires slot { slot < slot_count cells.now }
    ensures pushed { OnOk result
        (text.new
        ≡ text.old
        ++ values_text (cell_of cells.now slot) (axes_among caps.now ABS_MT_TOUCH_MAJOR SLOT_VALUES)) }
{
    for code in ABS_MT_TOUCH_MAJOR..ABS_MT_TOOL_Y + 1 {
        push_slot_entry(text, caps, cells, slot, code)?;
    }
    Ok(())
}

fn push_slot_entry(
    text: &mut Page,
    caps: &Caps,
    cells: &Cells,
    slot: u32,
    code: u16,
) -> Result<(), NoMemory>
    requires slot { slot < slot_count cells.now }
    requires code { is_slot_code code ≡ true }
    ensures pushed { OnOk result
        (text.new
        ≡ text.old ++ axis_entry caps.now (cell_of cells.now slot) code) }
{
    if caps.supports(EV_ABS, code) {
        push_value(text, code, cells.value(slot, code))
    } else {
        Ok(())
    }
}
