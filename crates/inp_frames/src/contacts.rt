//! Which slots have a contact.
ghost use Rattle.std.specs.Prelude.{◌≡◌, ◌<◌, ◌≤◌, ℕ, false, length, slice_index_or};
ghost use Rattle.inp_model.specs.declared.limits.TheConstants.{SLOTS_MAX};
ghost use Rattle.inp_frames.specs.HandledEvents.{has_contact_at};

use inp_bits::Bits;
use inp_model::ABS_MT_TRACKING_ID;
use inp_slots::Slots;

// The slots that have a contact, of so many slots.
pub(crate) fn contacts_of(slots: &Slots, count: u32) -> Bits<4>
    requires count { length slots.now.slots ≡ count }
    requires range { count ≤ SLOTS_MAX }
    ensures there { (slot : ℕ) → slot < count
        → slice_index_or result slot false ≡ has_contact_at slots.now slot }
    ensures past { (slot : ℕ) → count ≤ slot → slice_index_or result slot false ≡ false }
    ensures len { length result ≡ 256 }
{
    let mut contacts = Bits::new();
    for slot in 0..count {
        contacts.set(slot, has_contact(slots, slot));
    }
    contacts
}

// Whether the slot has a contact: a tracking id that is not negative.
fn has_contact(slots: &Slots, slot: u32) -> bool
    requires { slot < length slots.now.slots }
    ensures { result ≡ has_contact_at slots.now slot }
{
    slots.value(slot, ABS_MT_TRACKING_ID) >= 0
}
