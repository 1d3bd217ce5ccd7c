//! The raw events that the core makes itself.
ghost use Rattle.std.specs.Prelude.{◌≡◌, ◌<◌, ◌^◌, pos};
ghost use Rattle.inp_model.specs.Event.{core_report, slot_event};
ghost use Rattle.inp_model.specs.Raw.{key_event, lift_event};

use inp_model::{ABS_MT_TRACKING_ID, EV_ABS, EV_KEY, EV_SYN, Event, SYN_REPORT};

// The report at the end of a frame that the core ends.
pub(crate) fn core_report() -> Event
    ensures { result ≡ core_report }
{
    Event {
        kind: EV_SYN,
        code: SYN_REPORT,
        value: 1,
    }
}

// The autorepeat of a key.
pub(crate) fn key_repeat(key: u16) -> Event
    ensures { result ≡ key_event key 2 }
{
    Event {
        kind: EV_KEY,
        code: key,
        value: 2,
    }
}

// The release of a key.
pub(crate) fn key_release(key: u16) -> Event
    ensures { result ≡ key_event key 0 }
{
    Event {
        kind: EV_KEY,
        code: key,
        value: 0,
    }
}

// The event that names a slot.
pub(crate) fn slot_event(slot: u32) -> Event
    requires { slot < 2 ^ 31 }
    ensures { result ≡ slot_event (pos slot) }
{
    Event::of_slot(slot as i32)
}

// The end of the contact in the slot that was named last.
pub(crate) fn lift_event() -> Event
    ensures { result ≡ lift_event }
{
    Event {
        kind: EV_ABS,
        code: ABS_MT_TRACKING_ID,
        value: -1,
    }
}
