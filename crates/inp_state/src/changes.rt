//! What an event changes in one part of a state, and the value under which it is passed, if it is.
ghost use Rattle.std.specs.Prelude.{◌≡◌, ◌<◌, pos, not, if◌then◌else◌, length, slice_set, slice_index_or, false, Some, None};
ghost use Rattle.std.specs.Ordering.{int_eq};
ghost use Rattle.inp_model.specs.Event.{is_repeat, is_set, is_negative};
ghost use Rattle.inp_model.specs.Passed.{differ};
ghost use Rattle.inp_model.specs.Defuzz.{defuzz};

use inp_bits::Bits;
use inp_caps::defuzz;
use inp_model::Event;

// A key: an autorepeat changes nothing and is passed.
pub(crate) fn set_key(keys: &mut Bits<12>, event: Event) -> Option<i32>
    requires { event.code < 768 }
    ensures keys { keys.new
        ≡ (if is_repeat event then keys.old else slice_set keys.old event.code (is_set event)) }
    ensures passed { result ≡ (if is_repeat event then Some event.value
        else if differ (slice_index_or keys.old event.code false) (is_set event)
        then Some event.value else None) }
    ensures len { length keys.old ≡ 768 }
{
    let code = u32::from(event.code);
    let was_down = keys.get(code);
    if event.is_repeat() {
        return Some(event.value);
    }
    keys.set(code, event.is_set());
    passed_if(was_down != event.is_set(), event)
}

// A switch or the like.
pub(crate) fn set_bit(bits: &mut Bits<1>, event: Event) -> Option<i32>
    requires { event.code < 64 }
    ensures bits { bits.new ≡ slice_set bits.old event.code (is_set event) }
    ensures passed { result
        ≡ (if differ (slice_index_or bits.old event.code false) (is_set event)
        then Some event.value else None) }
    ensures len { length bits.old ≡ 64 }
{
    let turned = is_turned(bits, event);
    bits.set(u32::from(event.code), event.is_set());
    passed_if(turned, event)
}

// Whether the event turns it on or off.
fn is_turned(bits: &Bits<1>, event: Event) -> bool
    requires { event.code < 64 }
    ensures turned { result ≡ differ (slice_index_or bits.now event.code false) (is_set event) }
    ensures len { length bits.now ≡ 64 }
{
    bits.get(u32::from(event.code)) != event.is_set()
}

// An axis, which moves as far as its fuzz allows.
pub(crate) fn move_axis(axes: &mut [i32; 64], fuzz: i32, event: Event) -> Option<i32>
    requires { event.code < 64 }
    ensures axes { axes.new
        ≡ slice_set axes.old event.code
        (defuzz event.value (slice_index_or axes.old event.code (pos 0)) fuzz) }
    ensures passed { let before = slice_index_or axes.old event.code (pos 0) in
        let after = defuzz event.value before fuzz in
        result ≡ (if int_eq before after then None else Some after) }
{
    let before = axes[usize::from(event.code)];
    let after = defuzz(event.value, before, fuzz);
    axes[usize::from(event.code)] = after;
    if before == after { None } else { Some(after) }
}

// A setting of the autorepeat, which is never negative.
pub(crate) fn set_setting(setting: &mut i32, event: Event) -> Option<i32>
    ensures setting { setting.new ≡ (if is_negative event then setting.old else event.value) }
    ensures passed { result ≡ (if int_eq setting.old (if is_negative event then setting.old
        else event.value) then None else Some event.value) }
{
    if !is_changed(*setting, event) {
        return None;
    }
    *setting = event.value;
    Some(event.value)
}

// Whether the event changes the setting.
fn is_changed(setting: i32, event: Event) -> bool
    ensures { result
        ≡ not (int_eq setting (if is_negative event then setting else event.value)) }
{
    event.value >= 0 && event.value != setting
}

// The value of the event, if it is passed.
pub(crate) fn passed_if(passes: bool, event: Event) -> Option<i32>
    ensures { result ≡ (if passes then Some event.value else None) }
{
    if passes { Some(event.value) } else { None }
}
