//! The slots.
ghost use Rattle.std.specs.Prelude.{◌≡◌, ◌≤◌, ◌<◌, ℕ, pos, true, if◌then◌else◌, List, [], ◌∷◌, length, unwrap_or, IfOk};
ghost use Rattle.inp_model.specs.declared.event.TheConstants.{EV_ABS};
ghost use Rattle.inp_model.specs.declared.multi_touch.TheConstants.{SLOT_VALUES};
ghost use Rattle.inp_model.specs.declared.event.Event.{Event};
ghost use Rattle.inp_model.specs.RawItem.{RawItem, Occurred};
ghost use Rattle.inp_model.specs.Description.{Description, is_multi_touch_code, is_slot_code};
ghost use Rattle.inp_model.specs.State.{staged, cell};
ghost use Rattle.inp_model.specs.Passed.{passes_as, announced};
ghost use Rattle.inp_caps.specs.Disposition.{flags_of, flags_after};
ghost use Rattle.inp_slots.specs.Slots.{SlotsStandFor, slot_value, touch};
ghost use Rattle.inp_slots.specs.Changes.{is_slot_there, slot_named, staged_slot, moved, change, is_announced};

use crate::slot::Slot;
use bitflags::Flags;
use inp_caps::{Caps, Disposition};
use inp_model::{ABS_MT_SLOT, EV_ABS, NoMemory, SLOTS_MAX};
use std::alloc::Global;
use std::marker::Model;

/// The slots of a multi-touch device: each contact's values, and which slot is staged and which announced.
///
/// It keeps the last values of each slot and no list of events, in 56 bytes a slot. It belongs to the description whose
/// number of slots [`Slots::new`] was given; with another one no clause says anything. A device without slots has one
/// of these too, which keeps nothing and passes each value on.
#[derive(Debug, Drop)]
pub struct Slots {
    slots: Vec<Slot>,
    staged: usize,
    announced: usize,
    at_frame: usize,
}

impl Model for Slots {
    ghost use Rattle.inp_slots.specs.Slots.{SlotValues};

    ghost Value = { SlotValues };

    ghost use Rattle.inp_slots.specs.Kept.{values, IsSlots};

    ghost view = { values };

    ghost invariant = { IsSlots };
}

impl Slots {
    /// So many slots, 1 to 256 or 0 for none: no contact in any of them, slot 0 staged and announced.
    ///
    /// It takes the memory for all slots. `NoMemory` comes where memory is short.
    pub fn new(alloc: Global, count: u32) -> Result<Slots, NoMemory>
        requires range { count ≤ SLOTS_MAX }
        ensures fresh { IfOk result (λ slots. (d : Description) → d.slots ≡ count
            → SlotsStandFor d [] slots) }
        ensures count { IfOk result (λ slots. length slots.slots ≡ count) }
        ensures at_frame { IfOk result (λ slots. slots.at_frame ≡ pos 0) }
    {
        let slots = vec![in alloc; Slot::no_contact(); count as usize]?;
        Ok(Slots {
            slots,
            staged: 0,
            announced: 0,
            at_frame: 0,
        })
    }

    /// Takes a raw multi-touch event, and says what is done with it, with the value to pass (the kernel's
    /// `input_handle_abs_event`).
    ///
    /// `ABS_MT_SLOT` stages a slot, if there is one of this number, and is not passed. A value moves that of the staged
    /// slot as far as the axis's fuzz allows, and is passed where that changes it. It is passed as what the slot takes,
    /// and with `SLOT` where the staged slot was not the announced one, which it is from then on. Without slots each
    /// value is passed as it is, and kept nowhere. A code that is not supported is ignored. The value of an event that
    /// is not passed is its own.
    pub fn apply(&mut self, caps: &Caps, code: u16, value: i32) -> (Disposition, i32)
        requires multi_touch { is_multi_touch_code code ≡ true }
        requires count { length self.old.slots ≡ caps.now.slots }
        ensures stands { (r : List RawItem) → SlotsStandFor caps.now r self.old
            → SlotsStandFor caps.now (Occurred (touch code value) ∷ r) self.new }
        ensures disposition { (r : List RawItem) → SlotsStandFor caps.now r self.old
            → flags_of result.0 ≡ flags_after caps.now r (touch code value) }
        ensures value { (r : List RawItem) → SlotsStandFor caps.now r self.old
            → result.1 ≡ unwrap_or (passes_as caps.now r (touch code value)) value }
        ensures count { length self.new.slots ≡ length self.old.slots }
        ensures at_frame { self.new.at_frame ≡ self.old.at_frame }
    {
        if !caps.supports(EV_ABS, code) {
            return (Disposition::empty(), value);
        }
        if code == ABS_MT_SLOT {
            self.stage(value);
            return (Disposition::empty(), value);
        }
        if self.slots.is_empty() {
            return (Disposition::TO_HANDLERS, value);
        }
        match self.move_value(code, value, caps.axis(code).fuzz) {
            Some(taken) => (self.announce(), taken),
            None => (Disposition::empty(), value),
        }
    }

    // Stages the slot of this number, if there is one.
    fn stage(&mut self, slot: i32)
        ensures { self.new ≡ slot_named self.old slot }
    {
        if slot < 0 {
            return;
        }
        let slot = slot as usize;
        if slot < self.slots.len() {
            self.staged = slot;
        }
    }

    // Moves a value of the staged slot, and gives it where it changed.
    fn move_value(&mut self, code: u16, value: i32, fuzz: i32) -> Option<i32>
        requires code { is_slot_code code ≡ true }
        requires slots { 0 < length self.old.slots }
        ensures slots { self.new ≡ moved self.old code value fuzz }
        ensures change { result ≡ change (staged_slot self.old) code value fuzz }
        ensures staged { is_slot_there self.old self.old.staged ≡ true }
        ensures len { length (staged_slot self.old) ≡ SLOT_VALUES }
    {
        let slot = &mut self.slots[self.staged];
        slot.move_value(code, value, fuzz)
    }

    // Announces the staged slot with a value that is passed, and says what is done with the value.
    fn announce(&mut self) -> Disposition
        ensures slots { self.new ≡ record self.old { announced = self.old.staged } }
        ensures disposition { flags_of result ≡ (if is_announced self.old then 1 else 5) }
    {
        if self.announced == self.staged {
            return Disposition::TO_HANDLERS;
        }
        self.announced = self.staged;
        Disposition::TO_HANDLERS.union(Disposition::SLOT)
    }

    /// A frame was passed: the slot announced now is the one that it ended with.
    pub fn frame_passed(&mut self)
        ensures at_frame { self.new ≡ record self.old { at_frame = self.old.announced } }
    {
        self.at_frame = self.announced;
    }

    /// The slot that the next values belong to.
    pub fn staged(&self) -> i32
        ensures value { result ≡ self.now.staged }
        ensures staged { (d : Description) (r : List RawItem) → SlotsStandFor d r self.now
            → result ≡ staged d r }
    {
        self.staged as i32
    }

    /// The slot that was announced last.
    pub fn announced(&self) -> i32
        ensures value { result ≡ self.now.announced }
        ensures announced { (d : Description) (r : List RawItem) → SlotsStandFor d r self.now
            → result ≡ announced d r }
    {
        self.announced as i32
    }

    /// The slot that was announced when the last frame was passed, 0 before any.
    pub fn at_frame(&self) -> i32
        ensures value { result ≡ self.now.at_frame }
    {
        self.at_frame as i32
    }

    /// The value of a slot on the axis with this code.
    pub fn value(&self, slot: u32, code: u16) -> i32
        requires slot { slot < length self.now.slots }
        requires code { is_slot_code code ≡ true }
        ensures value { result ≡ slot_value self.now slot code }
        ensures cell { (d : Description) (r : List RawItem) → SlotsStandFor d r self.now
            → result ≡ cell d r (pos slot) code }
    {
        self.slots[slot as usize].value(code)
    }
}
