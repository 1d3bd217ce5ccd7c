//! What is done with a raw event.
ghost use Rattle.std.specs.Prelude.{◌≡◌, List, ◌∷◌, length, unwrap_or};
ghost use Rattle.inp_model.specs.RawItem.{RawItem, Occurred};
ghost use Rattle.inp_model.specs.Passed.{passes_as};
ghost use Rattle.inp_caps.specs.Disposition.{flags_of, flags_after};
ghost use Rattle.inp_state.specs.State.{StateStandsFor};
ghost use Rattle.inp_slots.specs.Slots.{SlotsStandFor};

use inp_caps::{Caps, Disposition};
use inp_model::Event;
use inp_slots::Slots;
use inp_state::State;

/// Handles a raw event: the state or the slots take it in. Says what is done with it, with the value to pass.
pub(crate) fn apply(
    state: &mut State,
    slots: &mut Slots,
    caps: &Caps,
    event: Event,
) -> (Disposition, i32)
    requires count { length slots.old.slots ≡ caps.now.slots }
    ensures state { (r : List RawItem) → StateStandsFor caps.now r state.old
        → StateStandsFor caps.now (Occurred event ∷ r) state.new }
    ensures slots { (r : List RawItem) → SlotsStandFor caps.now r slots.old
        → SlotsStandFor caps.now (Occurred event ∷ r) slots.new }
    ensures disposition { (r : List RawItem) → StateStandsFor caps.now r state.old
        → SlotsStandFor caps.now r slots.old
        → flags_of result.0 ≡ flags_after caps.now r event }
    ensures value { (r : List RawItem) → StateStandsFor caps.now r state.old
        → SlotsStandFor caps.now r slots.old
        → result.1 ≡ unwrap_or (passes_as caps.now r event) event.value }
    ensures count { length slots.new.slots ≡ length slots.old.slots }
    ensures at_frame { slots.new.at_frame ≡ slots.old.at_frame }
{
    if event.is_multi_touch() {
        slots.apply(caps, event.code, event.value)
    } else {
        state.apply(caps, event)
    }
}
