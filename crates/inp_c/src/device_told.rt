//! What a device has now, for C.
ghost use Rattle.std.specs.Prelude.{◌≡◌, ◌≢◌, Some};
ghost use Rattle.inp_c.specs.Contents.{contents};
ghost use Rattle.inp_c.specs.Status.{device_status};
ghost use Rattle.inp_c.specs.DeviceTold.{state_status, axis_status, cell_status, is_state_kind, AreOnBits, IsToldAxis, IsToldCell, IsToldRepeat};

use crate::c_repeat::{CRepeat, c_repeat};
use crate::handle::Handle;
use crate::kept::Kept;
use crate::status::{BAD_ARGUMENT, BAD_HANDLE, OK};
use inp_model::{ABS_MAX, AxisInfo, EV_KEY, EV_LED, EV_SND, EV_SW, is_slot_code};
use std::alloc::Global;

/// Which codes of `EV_KEY`, `EV_SW`, `EV_LED` or `EV_SND` are on. Bit i of the 768 is that of code i.
#[unsafe(no_mangle)]
pub extern "C" fn inputplay_device_state(
    alloc: Global,
    handle: &mut Handle,
    kind: u16,
    words: &mut [u64; 12],
) -> u32
    ensures status { result ≡ state_status (contents handle.old) kind }
    ensures told { result ≡ OK → AreOnBits (contents handle.old) kind words.new }
    ensures not_told { result ≢ OK → words.new ≡ words.old }
    ensures handle { contents handle.new ≡ contents handle.old }
{
    if handle.is_none() {
        return BAD_HANDLE;
    }
    let kept = handle.take(alloc);
    let status = state_in(&kept, kind, words);
    *handle = Handle::of(kept);
    status
}

/// Which codes of a type are on, if what is kept is a device.
fn state_in(kept: &Kept, kind: u16, words: &mut [u64; 12]) -> u32
    ensures status { result ≡ state_status (Some kept.now) kind }
    ensures told { result ≡ OK → AreOnBits (Some kept.now) kind words.new }
    ensures not_told { result ≢ OK → words.new ≡ words.old }
{
    let Kept::Device(device) = kept else {
        return BAD_HANDLE;
    };
    if !is_state_kind(kind) {
        return BAD_ARGUMENT;
    }
    *words = device.udev.udev.bits(kind);
    OK
}

/// Whether the codes of a type are on or off.
fn is_state_kind(kind: u16) -> bool
    ensures { result ≡ is_state_kind kind }
{
    kind == EV_KEY || kind == EV_SW || kind == EV_LED || kind == EV_SND
}

/// An axis as it was described last, with its present value.
#[unsafe(no_mangle)]
pub extern "C" fn inputplay_device_axis(
    alloc: Global,
    handle: &mut Handle,
    code: u16,
    info: &mut AxisInfo,
) -> u32
    ensures status { result ≡ axis_status (contents handle.old) code }
    ensures told { result ≡ OK → IsToldAxis (contents handle.old) code info.new }
    ensures not_told { result ≢ OK → info.new ≡ info.old }
    ensures handle { contents handle.new ≡ contents handle.old }
{
    if handle.is_none() {
        return BAD_HANDLE;
    }
    let kept = handle.take(alloc);
    let status = axis_in(&kept, code, info);
    *handle = Handle::of(kept);
    status
}

/// An axis of what is kept, if it is a device.
fn axis_in(kept: &Kept, code: u16, info: &mut AxisInfo) -> u32
    ensures status { result ≡ axis_status (Some kept.now) code }
    ensures told { result ≡ OK → IsToldAxis (Some kept.now) code info.new }
    ensures not_told { result ≢ OK → info.new ≡ info.old }
{
    let Kept::Device(device) = kept else {
        return BAD_HANDLE;
    };
    if code > ABS_MAX {
        return BAD_ARGUMENT;
    }
    *info = device.udev.udev.axis(code);
    OK
}

/// The value of a slot on an axis.
#[unsafe(no_mangle)]
pub extern "C" fn inputplay_device_slot(
    alloc: Global,
    handle: &mut Handle,
    slot: u32,
    code: u16,
    value: &mut i32,
) -> u32
    ensures status { result ≡ cell_status (contents handle.old) slot code }
    ensures told { result ≡ OK → IsToldCell (contents handle.old) slot code value.new }
    ensures not_told { result ≢ OK → value.new ≡ value.old }
    ensures handle { contents handle.new ≡ contents handle.old }
{
    if handle.is_none() {
        return BAD_HANDLE;
    }
    let kept = handle.take(alloc);
    let status = cell_in(&kept, slot, code, value);
    *handle = Handle::of(kept);
    status
}

/// The value of a slot of what is kept, if it is a device.
fn cell_in(kept: &Kept, slot: u32, code: u16, value: &mut i32) -> u32
    ensures status { result ≡ cell_status (Some kept.now) slot code }
    ensures told { result ≡ OK → IsToldCell (Some kept.now) slot code value.new }
    ensures not_told { result ≢ OK → value.new ≡ value.old }
{
    let Kept::Device(device) = kept else {
        return BAD_HANDLE;
    };
    if slot >= device.caps().slots() || !is_slot_code(code) {
        return BAD_ARGUMENT;
    }
    *value = device.udev.udev.slot_value(slot, code);
    OK
}

/// The autorepeat of a device: its settings, and its timer.
#[unsafe(no_mangle)]
pub extern "C" fn inputplay_device_repeat(
    alloc: Global,
    handle: &mut Handle,
    repeat: &mut CRepeat,
) -> u32
    ensures status { result ≡ device_status (contents handle.old) }
    ensures told { result ≡ OK → IsToldRepeat (contents handle.old) repeat.new }
    ensures not_told { result ≢ OK → repeat.new ≡ repeat.old }
    ensures handle { contents handle.new ≡ contents handle.old }
{
    if handle.is_none() {
        return BAD_HANDLE;
    }
    let kept = handle.take(alloc);
    let status = repeat_in(&kept, repeat);
    *handle = Handle::of(kept);
    status
}

/// The autorepeat of what is kept, if it is a device.
fn repeat_in(kept: &Kept, repeat: &mut CRepeat) -> u32
    ensures status { result ≡ device_status (Some kept.now) }
    ensures told { result ≡ OK → IsToldRepeat (Some kept.now) repeat.new }
    ensures not_told { result ≢ OK → repeat.new ≡ repeat.old }
{
    let Kept::Device(device) = kept else {
        return BAD_HANDLE;
    };
    *repeat = c_repeat(device.udev.udev.repeat());
    OK
}
