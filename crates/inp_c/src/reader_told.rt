//! What the reader of a device knows, for C.
ghost use Rattle.std.specs.Prelude.{◌≡◌, ◌≢◌, ◌*◌, ◌<◌, Some};
ghost use Rattle.inp_c.specs.Contents.{contents};
ghost use Rattle.inp_c.specs.Status.{device_status};
ghost use Rattle.inp_c.specs.ReaderTold.{view_value, flag_value, axis_value_in, value_status, slot_status, IsViewValue, IsSlotValue, IsReaderState, phase_number};

use crate::handle::Handle;
use crate::kept::Kept;
use crate::status::{BAD_ARGUMENT, BAD_HANDLE, OK};
use inp_bits::Bits;
use inp_model::{
    ABS_MAX, EV_ABS, EV_KEY, EV_LED, EV_SW, KEY_MAX, LED_MAX, SW_MAX, is_multi_touch_code,
    is_slot_code,
};
use inp_reader::Phase;
use inp_recon::View;
use std::alloc::Global;

/// The value of a key, a switch, an LED or an axis, as the reader knows it.
#[unsafe(no_mangle)]
pub extern "C" fn inputplay_reader_value(
    alloc: Global,
    handle: &mut Handle,
    kind: u16,
    code: u16,
    value: &mut i32,
) -> u32
    ensures status { result ≡ value_status (contents handle.old) kind code }
    ensures value { result ≡ OK → IsViewValue (contents handle.old) kind code value.new }
    ensures not_told { result ≢ OK → value.new ≡ value.old }
    ensures handle { contents handle.new ≡ contents handle.old }
{
    if handle.is_none() {
        return BAD_HANDLE;
    }
    let kept = handle.take(alloc);
    let status = value_in(&kept, kind, code, value);
    *handle = Handle::of(kept);
    status
}

/// The value that the reader of what is kept knows, if it is a device.
fn value_in(kept: &Kept, kind: u16, code: u16, value: &mut i32) -> u32
    ensures status { result ≡ value_status (Some kept.now) kind code }
    ensures value { result ≡ OK → IsViewValue (Some kept.now) kind code value.new }
    ensures not_told { result ≢ OK → value.new ≡ value.old }
{
    let Kept::Device(device) = kept else {
        return BAD_HANDLE;
    };
    let Some(known) = view_value(device.reader.view(), kind, code) else {
        return BAD_ARGUMENT;
    };
    *value = known;
    OK
}

/// The value of this type and code in a view, if a view has one.
fn view_value(view: &View, kind: u16, code: u16) -> Option<i32>
    ensures { result ≡ view_value view.now kind code }
{
    match kind {
        EV_KEY => flag_value(&view.keys, KEY_MAX, code),
        EV_SW => flag_value(&view.switches, SW_MAX, code),
        EV_LED => flag_value(&view.leds, LED_MAX, code),
        EV_ABS => axis_value(&view.axes, code),
        _ => None,
    }
}

/// 1 where the flag of a code is on, else 0. A code above the greatest one has no flag.
fn flag_value<const W: usize>(flags: &Bits<W>, greatest: u16, code: u16) -> Option<i32>
    requires { greatest < 64 * W }
    ensures { result ≡ flag_value flags.now greatest code }
{
    if code > greatest {
        return None;
    }
    let on = flags.get(u32::from(code));
    Some(if on { 1 } else { 0 })
}

/// The value of an axis. One whose values belong to slots has no value of its own.
fn axis_value(axes: &[i32; 64], code: u16) -> Option<i32>
    ensures { result ≡ axis_value_in axes.now code }
{
    if code > ABS_MAX || is_multi_touch_code(code) {
        return None;
    }
    Some(axes[code as usize])
}

/// The value of a slot on an axis, as the reader knows it.
#[unsafe(no_mangle)]
pub extern "C" fn inputplay_reader_slot_value(
    alloc: Global,
    handle: &mut Handle,
    slot: u32,
    code: u16,
    value: &mut i32,
) -> u32
    ensures status { result ≡ slot_status (contents handle.old) slot code }
    ensures value { result ≡ OK → IsSlotValue (contents handle.old) slot code value.new }
    ensures not_told { result ≢ OK → value.new ≡ value.old }
    ensures handle { contents handle.new ≡ contents handle.old }
{
    if handle.is_none() {
        return BAD_HANDLE;
    }
    let kept = handle.take(alloc);
    let status = slot_value_in(&kept, slot, code, value);
    *handle = Handle::of(kept);
    status
}

/// The value of a slot that the reader of what is kept knows, if it is a device.
fn slot_value_in(kept: &Kept, slot: u32, code: u16, value: &mut i32) -> u32
    ensures status { result ≡ slot_status (Some kept.now) slot code }
    ensures value { result ≡ OK → IsSlotValue (Some kept.now) slot code value.new }
    ensures not_told { result ≢ OK → value.new ≡ value.old }
{
    let Kept::Device(device) = kept else {
        return BAD_HANDLE;
    };
    let cells = &device.reader.view().cells;
    if slot >= cells.slot_count() || !is_slot_code(code) {
        return BAD_ARGUMENT;
    }
    *value = cells.value(slot, code);
    OK
}

/// The reader's client, its phase and the current slot of its view.
#[unsafe(no_mangle)]
pub extern "C" fn inputplay_reader_state(
    alloc: Global,
    handle: &mut Handle,
    client: &mut u32,
    phase: &mut u32,
    slot: &mut i32,
) -> u32
    ensures status { result ≡ device_status (contents handle.old) }
    ensures state { result ≡ OK
        → IsReaderState (contents handle.old) client.new phase.new slot.new }
    ensures not_told { result ≢ OK
        → (client.new ≡ client.old) × (phase.new ≡ phase.old) × (slot.new ≡ slot.old) }
    ensures handle { contents handle.new ≡ contents handle.old }
{
    if handle.is_none() {
        return BAD_HANDLE;
    }
    let kept = handle.take(alloc);
    let status = state_in(&kept, client, phase, slot);
    *handle = Handle::of(kept);
    status
}

/// The state of the reader of what is kept, if it is a device.
fn state_in(kept: &Kept, client: &mut u32, phase: &mut u32, slot: &mut i32) -> u32
    ensures status { result ≡ device_status (Some kept.now) }
    ensures state { result ≡ OK → IsReaderState (Some kept.now) client.new phase.new slot.new }
    ensures not_told { result ≢ OK
        → (client.new ≡ client.old) × (phase.new ≡ phase.old) × (slot.new ≡ slot.old) }
{
    let Kept::Device(device) = kept else {
        return BAD_HANDLE;
    };
    *client = device.reader.client();
    *phase = phase_number(device.reader.phase());
    *slot = device.reader.view().slot;
    OK
}

/// The number of a phase.
fn phase_number(phase: Phase) -> u32
    ensures { result ≡ phase_number phase }
{
    match phase {
        Phase::Plain => 0,
        Phase::Needed => 1,
        Phase::Handing => 2,
    }
}
