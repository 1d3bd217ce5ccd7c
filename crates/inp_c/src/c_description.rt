//! The description of a device, as C has it.
ghost use Rattle.std.specs.Prelude.{◌≡◌, ◌*◌, ◌<◌, ◌≤◌, length, map, true};
ghost use Rattle.inp_model.specs.declared.limits.TheConstants.{FILTERS_MAX};
ghost use Rattle.inp_record.specs.Words.{are_micros};
ghost use Rattle.inp_caps.specs.Builder.{with_filter, filter_answer};
ghost use Rattle.inp_c.specs.DescriptionOfC.{has_bit, set_codes, with_calls, description_of_c};
ghost use Rattle.inp_c.specs.DescriptionOfC.{kind_call, code_call, axis_call, number_calls, filter_calls};
ghost use Rattle.inp_c.specs.DescriptionOfC.{slots_call, hint_call, log_call, offsets_call, call_if_given};
ghost use Rattle.inp_c.specs.DescriptionOfC.{filter_call, gathered};

use crate::c_filter::{CFilter, filter_of};
use inp_caps::{Caps, CapsBuilder, CapsRefused};
use inp_model::{AxisInfo, EV_KEY, EV_LED, EV_MSC, EV_REL, EV_SND, EV_SW, FILTERS_MAX, Filter};
use std::mem::size_of;

/// The description of a device: its codes as the bits that evdev answers, its axes, its numbers and its filters.
#[repr(C)]
#[derive(Clone, Copy)]
pub struct CDescription {
    /// Types beside those of the codes.
    pub types: u64,
    /// The keys.
    pub keys: [u64; 12],
    /// The relative axes.
    pub relatives: u64,
    /// The axes.
    pub axes: u64,
    /// The codes of `EV_MSC`.
    pub miscs: u64,
    /// The switches.
    pub switches: u64,
    /// The lights.
    pub leds: u64,
    /// The sounds.
    pub sounds: u64,
    /// The axes, by their codes.
    pub infos: [AxisInfo; 64],
    /// How many slots there are, 0 for none.
    pub slots: u32,
    /// How many events a frame may gather, 0 for 16.
    pub hint: u32,
    /// How many steps the history may have, 0 for 1,048,576.
    pub log: u32,
    /// How many filters there are.
    pub filter_count: u32,
    /// How far the realtime clock is ahead.
    pub realtime: u64,
    /// How far the boottime clock is ahead.
    pub boottime: u64,
    /// The filters.
    pub filters: [CFilter; 8],
}

const _: () = prove!(size_of::<CDescription>() == 1848);

/// The description that C gave, or why no device has it.
pub(crate) fn description_of(c: &CDescription) -> Result<Caps, CapsRefused>
    ensures { result ≡ description_of_c c.now }
{
    let builder = with_types(CapsBuilder::new(), &[c.types])?;
    let builder = with_codes(builder, EV_KEY, &c.keys)?;
    let builder = with_codes(builder, EV_REL, &[c.relatives])?;
    let builder = with_codes(builder, EV_MSC, &[c.miscs])?;
    let builder = with_codes(builder, EV_SW, &[c.switches])?;
    let builder = with_codes(builder, EV_LED, &[c.leds])?;
    let builder = with_codes(builder, EV_SND, &[c.sounds])?;
    let builder = with_axes(builder, &[c.axes], &c.infos)?;
    let builder = with_numbers(builder, c)?;
    let builder = with_filters(builder, &c.filters, c.filter_count)?;
    Ok(builder.build())
}

/// With each type whose bit is set.
fn with_types(mut builder: CapsBuilder, words: &[u64]) -> Result<CapsBuilder, CapsRefused>
    requires { length words.now ≤ 12 }
    ensures { result ≡ with_calls builder (map kind_call (set_codes words.now)) }
{
    for kind in 0..64 * words.len() {
        if has_bit(words, kind) {
            builder = with_type(builder, kind as u16)?;
        }
    }
    Ok(builder)
}

/// With each code of a type whose bit is set.
fn with_codes(
    mut builder: CapsBuilder,
    kind: u16,
    words: &[u64],
) -> Result<CapsBuilder, CapsRefused>
    requires { length words.now ≤ 12 }
    ensures { result ≡ with_calls builder (map (code_call kind) (set_codes words.now)) }
{
    for code in 0..64 * words.len() {
        if has_bit(words, code) {
            builder = with_code(builder, kind, code as u16)?;
        }
    }
    Ok(builder)
}

/// With each axis whose bit is set.
fn with_axes(
    mut builder: CapsBuilder,
    words: &[u64],
    infos: &[AxisInfo],
) -> Result<CapsBuilder, CapsRefused>
    requires one { length words.now ≤ 1 }
    requires there { 64 * length words.now ≤ length infos.now }
    ensures { result ≡ with_calls builder (map (axis_call infos.now) (set_codes words.now)) }
{
    for code in 0..64 * words.len() {
        if has_bit(words, code) {
            builder = with_axis(builder, code, infos)?;
        }
    }
    Ok(builder)
}

/// Whether the bit of a code is set: bit k of word w is the code 64 * w + k.
fn has_bit(words: &[u64], code: usize) -> bool
    requires { code < 64 * length words.now }
    ensures { result ≡ has_bit words.now code }
{
    (words[code / 64] >> (code % 64)) & 1 == 1
}

fn with_type(mut builder: CapsBuilder, kind: u16) -> Result<CapsBuilder, CapsRefused>
    ensures { result ≡ kind_call kind builder }
{
    builder.kind(kind)?;
    Ok(builder)
}

fn with_code(mut builder: CapsBuilder, kind: u16, code: u16) -> Result<CapsBuilder, CapsRefused>
    ensures { result ≡ code_call kind code builder }
{
    builder.code(kind, code)?;
    Ok(builder)
}

fn with_axis(
    mut builder: CapsBuilder,
    code: usize,
    infos: &[AxisInfo],
) -> Result<CapsBuilder, CapsRefused>
    requires fits { code < 64 }
    requires there { code < length infos.now }
    ensures { result ≡ axis_call infos.now code builder }
{
    builder.axis(code as u16, infos[code])?;
    Ok(builder)
}

/// With the numbers of slots, of a frame's events and of steps, and the offsets of the clocks.
fn with_numbers(builder: CapsBuilder, c: &CDescription) -> Result<CapsBuilder, CapsRefused>
    ensures { result ≡ with_calls builder (number_calls c.now) }
{
    let builder = with_slots(builder, c.slots)?;
    let builder = with_hint(builder, c.hint)?;
    let builder = with_log(builder, c.log)?;
    with_offsets(builder, c.realtime, c.boottime)
}

fn with_slots(mut builder: CapsBuilder, count: u32) -> Result<CapsBuilder, CapsRefused>
    ensures { result ≡ with_calls builder (call_if_given slots_call count) }
{
    if count > 0 {
        builder.slots(count)?;
    }
    Ok(builder)
}

fn with_hint(mut builder: CapsBuilder, count: u32) -> Result<CapsBuilder, CapsRefused>
    ensures { result ≡ with_calls builder (call_if_given hint_call count) }
{
    if count > 0 {
        builder.hint(count)?;
    }
    Ok(builder)
}

fn with_log(mut builder: CapsBuilder, count: u32) -> Result<CapsBuilder, CapsRefused>
    ensures { result ≡ with_calls builder (call_if_given log_call count) }
{
    if count > 0 {
        builder.log(count)?;
    }
    Ok(builder)
}

fn with_offsets(
    mut builder: CapsBuilder,
    realtime: u64,
    boottime: u64,
) -> Result<CapsBuilder, CapsRefused>
    ensures { result ≡ offsets_call realtime boottime builder }
{
    builder.offsets(realtime, boottime)?;
    Ok(builder)
}

/// With so many of these filters, of which there are at most eight.
fn with_filters(
    mut builder: CapsBuilder,
    filters: &[CFilter],
    count: u32,
) -> Result<CapsBuilder, CapsRefused>
    requires { FILTERS_MAX ≤ length filters.now }
    ensures { result ≡ with_calls builder (filter_calls filters.now count) }
{
    if count > FILTERS_MAX {
        return Err(CapsRefused::BadFilter);
    }
    let given = &filters[..count as usize];
    for filter in given {
        builder = with_filter_of_c(builder, filter)?;
    }
    Ok(builder)
}

/// With a filter of C, if there is such a filter.
fn with_filter_of_c(builder: CapsBuilder, c: &CFilter) -> Result<CapsBuilder, CapsRefused>
    ensures { result ≡ filter_call c.now builder }
{
    match filter_of(c) {
        Some(filter) => with_filter(builder, filter),
        None => Err(CapsRefused::BadFilter),
    }
}

fn with_filter(mut builder: CapsBuilder, filter: Filter) -> Result<CapsBuilder, CapsRefused>
    requires { are_micros filter ≡ true }
    ensures { result ≡ gathered (filter_answer builder filter) (with_filter builder filter) }
{
    match filter {
        Filter::Eat { kind, code } => builder.eat(kind, code)?,
        Filter::Norepeat => builder.norepeat()?,
        Filter::Chord { first, second } => builder.chord(first, second)?,
        Filter::Bounce { code, micros } => builder.bounce(code, micros)?,
    }
    Ok(builder)
}
