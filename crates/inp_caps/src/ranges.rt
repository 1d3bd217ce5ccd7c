//! What a description can have.
ghost use Rattle.std.specs.Prelude.{◌≡◌, ◌&&◌, ◌||◌, not, nat_eq, pos, int_lt};
ghost use Rattle.std.specs.Ordering.{int_eq};
ghost use Rattle.inp_model.specs.Description.{is_kind, is_bad_axis, is_multi_touch_code, greatest_code, is_filter_code, is_filter};
ghost use Rattle.inp_caps.specs.Builder.{is_code};

use inp_model::{
    ABS_MAX, ABS_MT_SLOT, ABS_MT_TRACKING_ID, AxisInfo, BOUNCE_MAX, EV_ABS, EV_KEY, EV_LED, EV_MSC,
    EV_REL, EV_REP, EV_SND, EV_SW, EV_SYN, FUZZ_MAX, Filter, KEY_MAX, LED_MAX, MSC_MAX, REL_MAX,
    REP_MAX, SND_MAX, SW_MAX, SYN_DROPPED, is_multi_touch_code,
};

// Whether a device can have the type.
pub(crate) fn is_kind(kind: u16) -> bool
    ensures { result ≡ is_kind kind }
{
    kind <= EV_SW || kind == EV_LED || kind == EV_SND || kind == EV_REP
}

// Whether a device can have the code, of a type other than `EV_SYN` and `EV_ABS`.
pub(crate) fn is_code(kind: u16, code: u16) -> bool
    ensures { result ≡ is_code kind code }
{
    match kind {
        EV_KEY => code >= 1 && code <= KEY_MAX,
        EV_REL => code <= REL_MAX,
        EV_MSC => code <= MSC_MAX,
        EV_SW => code <= SW_MAX,
        EV_LED => code <= LED_MAX,
        EV_SND => code <= SND_MAX,
        EV_REP => code <= REP_MAX,
        _ => false,
    }
}

// Whether no axis with this code has such data.
pub(crate) fn is_bad_axis(code: u16, info: AxisInfo) -> bool
    ensures { result ≡ is_bad_axis code info }
{
    has_bad_fuzz(info) || has_bad_value(code, info) || has_needless_fuzz(code, info)
}

fn has_bad_fuzz(info: AxisInfo) -> bool
    ensures { result ≡ (int_lt info.fuzz (pos 0) || int_lt FUZZ_MAX info.fuzz) }
{
    info.fuzz < 0 || info.fuzz > FUZZ_MAX
}

fn has_bad_value(code: u16, info: AxisInfo) -> bool
    ensures { result ≡ (is_multi_touch_code code && not (int_eq info.value (pos 0))) }
{
    is_multi_touch_code(code) && info.value != 0
}

// Neither the number of a slot nor a tracking id is smoothed.
fn has_needless_fuzz(code: u16, info: AxisInfo) -> bool
    ensures { result ≡ ((nat_eq code ABS_MT_SLOT || nat_eq code ABS_MT_TRACKING_ID)
        && not (int_eq info.fuzz (pos 0))) }
{
    (code == ABS_MT_SLOT || code == ABS_MT_TRACKING_ID) && info.fuzz != 0
}

// Whether there can be such a filter.
pub(crate) fn is_filter(filter: Filter) -> bool
    ensures { result ≡ is_filter filter }
{
    match filter {
        Filter::Eat { kind, code } => is_filter_code(kind, code),
        Filter::Norepeat => true,
        Filter::Chord { first, second } => {
            is_filter_code(EV_KEY, first) && is_filter_code(EV_KEY, second) && first != second
        }
        Filter::Bounce { code, micros } => {
            is_filter_code(EV_KEY, code) && micros >= 1 && micros <= BOUNCE_MAX
        }
    }
}

// Whether a filter may speak of the code.
fn is_filter_code(kind: u16, code: u16) -> bool
    ensures { result ≡ is_filter_code kind code }
{
    is_kind(kind) && kind != EV_SYN && code <= greatest_code(kind) && !(kind == EV_KEY && code == 0)
}

// The greatest code of a type.
fn greatest_code(kind: u16) -> u16
    ensures { result ≡ greatest_code kind }
{
    match kind {
        EV_KEY => KEY_MAX,
        EV_REL => REL_MAX,
        EV_ABS => ABS_MAX,
        EV_MSC => MSC_MAX,
        EV_SW => SW_MAX,
        EV_LED => LED_MAX,
        EV_SND => SND_MAX,
        EV_REP => REP_MAX,
        _ => SYN_DROPPED,
    }
}
