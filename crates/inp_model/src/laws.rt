//! What follows from the definitions alone.
ghost use Rattle.std.specs.Prelude.{List, ◌∷◌};
ghost use Rattle.inp_model.specs.declared.injected.Injected.{Injected};
ghost use Rattle.inp_model.specs.declared.stamped.Stamped.{Stamped};
ghost use Rattle.inp_model.specs.Evdev.{EvdevView};
ghost use Rattle.inp_model.specs.Injection.{IsInjectAll, calls_of};
ghost use Rattle.inp_model.specs.Leaves.{AreCalls};

/// What a call leaves that injects events, at least one, is what calls leave that inject them one by one, up to the
/// first that is refused. It does nothing: its contract is the point.
pub fn injected_events_are_calls()
    ensures calls { (before after : EvdevView) (first : Stamped) (events : List Stamped)
        (injected : Injected) → IsInjectAll before after (first ∷ events) injected
        → AreCalls before after
        (calls_of before.description.log_limit injected.from (first ∷ events)) }
{}
