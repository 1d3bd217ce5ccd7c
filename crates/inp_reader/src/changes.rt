//! What two views differ in, at one place.
ghost use Rattle.std.specs.Prelude.{◌≡◌, ◌<◌, ◌*◌, pos, true, not, length};
ghost use Rattle.std.specs.Ordering.{int_eq};
ghost use Rattle.inp_model.specs.Description.{is_slot_code};
ghost use Rattle.inp_model.specs.Event.{is_negative, slot_event};
ghost use Rattle.inp_recon.specs.Cells.{slot_count};
ghost use Rattle.inp_reader.specs.Synthesis.{bit_event, axis_event, cell_event, is_replaced, is_changed, lift};

use inp_bits::Bits;
use inp_model::{
    ABS_MT_SLOT, ABS_MT_TOOL_Y, ABS_MT_TOUCH_MAJOR, ABS_MT_TRACKING_ID, EV_ABS, Event,
};
use inp_recon::View;

// Whether the values of two events differ.
pub(crate) fn values_differ(one: Event, other: Event) -> bool
    ensures { result ≡ not (int_eq one.value other.value) }
{
    one.value != other.value
}

// That a code is on, or off.
pub(crate) fn bit_event<const W: usize>(kind: u16, bits: &Bits<W>, code: u16) -> Event
    requires { code < 64 * W }
    ensures { result ≡ bit_event kind bits.now code }
{
    let value = if bits.get(u32::from(code)) { 1 } else { 0 };
    Event { kind, code, value }
}

// The value of an axis.
pub(crate) fn axis_event(values: &[i32; 64], code: u16) -> Event
    requires { code < 64 }
    ensures { result ≡ axis_event values.now code code }
{
    Event {
        kind: EV_ABS,
        code,
        value: values[usize::from(code)],
    }
}

// The value of a slot on an axis.
pub(crate) fn cell_event(view: &View, slot: u32, code: u16) -> Event
    requires slot { slot < slot_count view.now.cells }
    requires code { is_slot_code code ≡ true }
    ensures { result ≡ cell_event view.now.cells slot code }
{
    Event {
        kind: EV_ABS,
        code,
        value: view.cells.value(slot, code),
    }
}

// The end of a contact.
pub(crate) fn lift() -> Event
    ensures { result ≡ lift }
{
    Event {
        kind: EV_ABS,
        code: ABS_MT_TRACKING_ID,
        value: -1,
    }
}

// Whether a slot has a contact in both views, and not the same one.
pub(crate) fn is_replaced(old: &View, new: &View, slot: u32) -> bool
    requires slot { slot < slot_count old.now.cells }
    requires cells { length old.now.cells ≡ length new.now.cells }
    ensures { result ≡ is_replaced old.now new.now slot }
{
    let before = cell_event(old, slot, ABS_MT_TRACKING_ID);
    let after = cell_event(new, slot, ABS_MT_TRACKING_ID);
    !is_negative(before) && !is_negative(after) && values_differ(before, after)
}

// Whether the value of an event is negative.
fn is_negative(event: Event) -> bool
    ensures { result ≡ is_negative event }
{
    event.value < 0
}

// Whether a value of a slot differs.
pub(crate) fn is_changed(old: &View, new: &View, slot: u32) -> bool
    requires slot { slot < slot_count old.now.cells }
    requires cells { length old.now.cells ≡ length new.now.cells }
    ensures { result ≡ is_changed old.now new.now slot }
{
    for code in ABS_MT_TOUCH_MAJOR..ABS_MT_TOOL_Y + 1 {
        if values_differ(cell_event(old, slot, code), cell_event(new, slot, code)) {
            return true;
        }
    }
    false
}

// The event that makes a slot the current one.
pub(crate) fn event_of_slot(slot: u32) -> Event
    requires { slot < 256 }
    ensures { result ≡ slot_event (pos slot) }
{
    Event {
        kind: EV_ABS,
        code: ABS_MT_SLOT,
        value: slot as i32,
    }
}

// The event that makes a view's current slot the current one.
pub(crate) fn event_of_current(view: &View) -> Event
    ensures { result ≡ slot_event view.now.slot }
{
    Event {
        kind: EV_ABS,
        code: ABS_MT_SLOT,
        value: view.slot,
    }
}
