//! What is sent to a device made by requests, until its owner takes it.
ghost use Rattle.std.specs.Prelude.{◌≡◌, if◌then◌else◌, None};
ghost use Rattle.inp_device.specs.Device.{event_brought};
ghost use Rattle.inp_uinput.specs.KeptBeside.{with_sent};

use circular_buffer::HeapCircularBuffer;
use inp_model::{Event, Step};

// Keeps an event that was sent, if one was, behind those that wait for the owner. Where the ring is full the oldest one
// goes.
#[inline(always)]
pub(crate) fn keep(waiting: &mut HeapCircularBuffer<Event>, sent: Option<Event>)
    ensures kept { waiting.new ≡ with_sent sent waiting.old }
{
    if let Some(event) = sent {
        waiting.push_back(event);
    }
}

// The event that a step sent, by whether the one that it brought from outside goes to the device.
#[inline(always)]
pub(crate) fn sent_by(step: Step, goes: bool) -> Option<Event>
    ensures sent { result ≡ (if goes then event_brought step else None) }
{
    match step {
        Step::Inject { event, .. } | Step::Write { event, .. } if goes => Some(event),
        _ => None,
    }
}
