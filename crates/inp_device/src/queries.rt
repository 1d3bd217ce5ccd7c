//! What queries answer, from what the core keeps.
ghost use Rattle.std.specs.Prelude.{◌≡◌, ◌≤◌, ◌<◌, true, pos, List, length};
ghost use Rattle.inp_model.specs.declared.step.Step.{Step};
ghost use Rattle.inp_model.specs.Description.{Description, is_slot_code};
ghost use Rattle.inp_model.specs.State.{cell};
ghost use Rattle.inp_model.specs.Raw.{raw};
ghost use Rattle.inp_model.specs.Reply.{bitmap_of, code_on, present_value, axis_answer};
ghost use Rattle.inp_frames.specs.Core.{CoreStandsFor};
ghost use Rattle.inp_device.specs.Queries.{HasBits, repeat_after};

use crate::bitmap::bitmap_of;
use crate::repeat::Repeat;
use inp_caps::Caps;
use inp_frames::Core;
use inp_model::{
    ABS_MAX, ABS_MT_SLOT, AxisInfo, EV_ABS, EV_KEY, EV_LED, EV_SW, NO_INFO, is_multi_touch_code,
};

/// The codes of a type of keys, switches, LEDs or sounds that are on: bit i for the code i, 64 a word.
pub fn bits(core: &Core, kind: u16) -> [u64; 12]
    requires kind { HasBits kind }
    ensures bits { (d : Description) (past : List Step) → CoreStandsFor d past core.now
        → result ≡ bitmap_of (code_on d (raw d past) kind) }
{
    let state = core.state();
    if kind == EV_KEY {
        return bitmap_of(state.keys());
    }
    if kind == EV_SW {
        return bitmap_of(state.switches());
    }
    if kind == EV_LED {
        return bitmap_of(state.leds());
    }
    bitmap_of(state.sounds())
}

/// An axis as it was described last, with its present value. All numbers of an axis that is not supported are 0.
pub fn axis(core: &Core, caps: &Caps, code: u16) -> AxisInfo
    requires within { code ≤ ABS_MAX }
    ensures axis { (past : List Step) → CoreStandsFor caps.now past core.now
        → result ≡ axis_answer caps.now (raw caps.now past) code }
{
    if !caps.supports(EV_ABS, code) {
        return NO_INFO;
    }
    let mut info = core.state().info(code);
    info.value = present_value(core, code);
    info
}

/// The present value of an axis: of `ABS_MT_SLOT` the slot announced last, and 0 of the axes whose values belong to
/// slots.
fn present_value(core: &Core, code: u16) -> i32
    requires within { code ≤ ABS_MAX }
    ensures value { (d : Description) (past : List Step) → CoreStandsFor d past core.now
        → result ≡ present_value d (raw d past) code }
{
    if code == ABS_MT_SLOT {
        core.slots().announced()
    } else if is_multi_touch_code(code) {
        0
    } else {
        core.state().axis(code)
    }
}

/// The value of a slot on the axis with this code.
pub fn slot_value(core: &Core, slot: u32, code: u16) -> i32
    requires slot { slot < length core.now.slots.slots }
    requires code { is_slot_code code ≡ true }
    ensures value { (d : Description) (past : List Step) → CoreStandsFor d past core.now
        → result ≡ cell d (raw d past) (pos slot) code }
{
    core.slots().value(slot, code)
}

/// The settings of the autorepeat, and its timer.
pub fn repeat(core: &Core) -> Repeat
    ensures repeat { (d : Description) (past : List Step) → CoreStandsFor d past core.now
        → result ≡ repeat_after d past }
{
    let state = core.state();
    Repeat {
        delay: state.delay(),
        period: state.period(),
        timer: core.timer(),
    }
}
