//! The builder of descriptions.
ghost use Rattle.std.specs.Prelude.{◌≡◌, ◌≤◌, ◌&&◌, ◌||◌, nat_le, nat_lt, if◌then◌else◌, Ok, Err, OnOk, OnErr};
ghost use Rattle.inp_model.specs.Description.{is_kind, is_bad_axis, IsDescription, syn_alone};
ghost use Rattle.inp_caps.specs.declared.caps_refused.CapsRefused.{CapsRefused};
ghost use Rattle.inp_model.specs.declared.filter.Filter.TheVariants.{Eat, Norepeat, Chord, Bounce};
ghost use Rattle.inp_caps.specs.Builder.{is_code, with_kind, with_code, with_axis, with_filter, filter_answer, built};

use crate::ranges::{is_bad_axis, is_code, is_filter, is_kind};
use crate::{Caps, CapsRefused};
use inp_model::{
    ABS_MAX, AxisInfo, BOUNCE_MAX, EV_ABS, FILTERS_MAX, Filter, HINT_MAX, HINT_MIN, LOG_MAX,
    MOMENT_MAX, SLOTS_MAX,
};
use std::marker::Model;

/// Gathers the description of a device.
///
/// It begins with `EV_SYN` alone, no slots, a hint of 16, a log limit of 1,048,576 and offsets of 0. Each call adds to
/// that, or is refused and changes nothing. A contract sees it as the description that was gathered so far.
#[derive(Debug, Drop)]
pub struct CapsBuilder {
    caps: Caps,
}

impl Model for CapsBuilder {
    ghost use Rattle.inp_model.specs.Description.{Description};

    ghost Value = { Description };

    ghost view = { λ b. b.caps };
}

impl CapsBuilder {
    /// A builder of a device with `EV_SYN` alone.
    pub fn new() -> CapsBuilder
        ensures fresh { result ≡ syn_alone }
    {
        CapsBuilder {
            caps: Caps::syn_alone(),
        }
    }

    /// Adds a type. `EV_REP` comes with both of its codes, any other type with none.
    ///
    /// `BadCode` comes where it is none of `EV_SYN`, `EV_KEY`, `EV_REL`, `EV_ABS`, `EV_MSC`, `EV_SW`, `EV_LED`,
    /// `EV_SND` and `EV_REP`.
    pub fn kind(&mut self, kind: u16) -> Result<(), CapsRefused>
        ensures answer { result ≡ (if is_kind kind then Ok tt else Err CapsRefused.BadCode) }
        ensures ok { OnOk result (self.new ≡ with_kind self.old kind) }
        ensures err { OnErr result (self.new ≡ self.old) }
    {
        if !is_kind(kind) {
            return Err(CapsRefused::BadCode);
        }
        self.caps.add_kind(kind);
        Ok(())
    }

    /// Adds a code, and its type.
    ///
    /// `BadCode` comes where the type is `EV_SYN`, `EV_ABS` or no type of a device, where the code is above the type's
    /// greatest, and at code 0 of `EV_KEY`.
    pub fn code(&mut self, kind: u16, code: u16) -> Result<(), CapsRefused>
        ensures answer { result ≡ (if is_code kind code then Ok tt else Err CapsRefused.BadCode) }
        ensures ok { OnOk result (self.new ≡ with_code (with_kind self.old kind) kind code) }
        ensures err { OnErr result (self.new ≡ self.old) }
    {
        if !is_code(kind, code) {
            return Err(CapsRefused::BadCode);
        }
        self.caps.add_kind(kind);
        self.caps.add_code(kind, code);
        Ok(())
    }

    /// Adds an axis and `EV_ABS`, or describes the axis anew.
    ///
    /// `BadCode` comes where the code is above `ABS_MAX`. Else `BadAxis` comes where the fuzz is not in 0 to 2^30,
    /// where a multi-touch axis has a value other than 0, and where `ABS_MT_SLOT` or `ABS_MT_TRACKING_ID` has a fuzz.
    pub fn axis(&mut self, code: u16, info: AxisInfo) -> Result<(), CapsRefused>
        ensures answer { result ≡ (if nat_lt ABS_MAX code then Err CapsRefused.BadCode
            else if is_bad_axis code info then Err CapsRefused.BadAxis else Ok tt) }
        ensures ok { OnOk result (self.new ≡ with_axis (with_kind self.old EV_ABS) code info) }
        ensures err { OnErr result (self.new ≡ self.old) }
    {
        if code > ABS_MAX {
            return Err(CapsRefused::BadCode);
        }
        if is_bad_axis(code, info) {
            return Err(CapsRefused::BadAxis);
        }
        self.caps.add_kind(EV_ABS);
        self.caps.add_axis(code, info);
        Ok(())
    }

    /// Adds a filter that eats every event of the type and code.
    ///
    /// `BadCode` comes where the type is `EV_SYN` or no type of a device, where the code is above the type's greatest,
    /// and at code 0 of `EV_KEY`. The device need not support the code. Else `BadFilter` comes at a ninth filter.
    pub fn eat(&mut self, kind: u16, code: u16) -> Result<(), CapsRefused>
        ensures answer { result ≡ filter_answer self.old (Eat kind code) }
        ensures ok { OnOk result (self.new ≡ with_filter self.old (Eat kind code)) }
        ensures err { OnErr result (self.new ≡ self.old) }
    {
        self.add(Filter::Eat { kind, code })
    }

    /// Adds a filter that eats every autorepeat. `BadFilter` comes at a ninth filter.
    pub fn norepeat(&mut self) -> Result<(), CapsRefused>
        ensures answer { result ≡ filter_answer self.old Norepeat }
        ensures ok { OnOk result (self.new ≡ with_filter self.old Norepeat) }
        ensures err { OnErr result (self.new ≡ self.old) }
    {
        self.add(Filter::Norepeat)
    }

    /// Adds a filter that eats the holds of the second key that start while the first one is down.
    ///
    /// `BadCode` comes where one of them is no key from 1 to `KEY_MAX`, and where they are the same. The device need
    /// not support them. Else `BadFilter` comes at a ninth filter.
    pub fn chord(&mut self, first: u16, second: u16) -> Result<(), CapsRefused>
        ensures answer { result ≡ filter_answer self.old (Chord first second) }
        ensures ok { OnOk result (self.new ≡ with_filter self.old (Chord first second)) }
        ensures err { OnErr result (self.new ≡ self.old) }
    {
        self.add(Filter::Chord { first, second })
    }

    /// Adds a filter that eats the holds of a key that start less than so many microseconds, 1 to `BOUNCE_MAX`, after a
    /// release that it did not eat.
    ///
    /// `BadCode` comes where the code is no key from 1 to `KEY_MAX`; the device need not support it. Else `BadFilter`
    /// comes at a ninth filter.
    pub fn bounce(&mut self, code: u16, micros: u32) -> Result<(), CapsRefused>
        requires range { (1 ≤ micros) × (micros ≤ BOUNCE_MAX) }
        ensures answer { result ≡ filter_answer self.old (Bounce code micros) }
        ensures ok { OnOk result (self.new ≡ with_filter self.old (Bounce code micros)) }
        ensures err { OnErr result (self.new ≡ self.old) }
    {
        self.add(Filter::Bounce { code, micros })
    }

    // Adds a filter after the others.
    fn add(&mut self, filter: Filter) -> Result<(), CapsRefused>
        ensures answer { result ≡ filter_answer self.old filter }
        ensures ok { OnOk result (self.new ≡ with_filter self.old filter) }
        ensures err { OnErr result (self.new ≡ self.old) }
    {
        if !is_filter(filter) {
            return Err(CapsRefused::BadCode);
        }
        if self.caps.filter_count() == FILTERS_MAX {
            return Err(CapsRefused::BadFilter);
        }
        self.caps.add_filter(filter);
        Ok(())
    }

    /// Sets the number of multi-touch slots. `BadSlots` comes outside 1 to 256.
    pub fn slots(&mut self, count: u32) -> Result<(), CapsRefused>
        ensures answer { result ≡ (if nat_le 1 count && nat_le count SLOTS_MAX then Ok tt
            else Err CapsRefused.BadSlots) }
        ensures ok { OnOk result (self.new ≡ record self.old { slots = count }) }
        ensures err { OnErr result (self.new ≡ self.old) }
    {
        if count < 1 || count > SLOTS_MAX {
            return Err(CapsRefused::BadSlots);
        }
        self.caps.set_slots(count);
        Ok(())
    }

    /// Sets how many events a frame may gather before it is cut. `BadHint` comes outside 2 to 512.
    pub fn hint(&mut self, count: u32) -> Result<(), CapsRefused>
        ensures answer { result ≡ (if nat_le HINT_MIN count && nat_le count HINT_MAX
            then Ok tt else Err CapsRefused.BadHint) }
        ensures ok { OnOk result (self.new ≡ record self.old { hint = count }) }
        ensures err { OnErr result (self.new ≡ self.old) }
    {
        if count < HINT_MIN || count > HINT_MAX {
            return Err(CapsRefused::BadHint);
        }
        self.caps.set_hint(count);
        Ok(())
    }

    /// Sets how many steps a history may have. `BadLog` comes outside 1 to 8,388,608.
    pub fn log(&mut self, count: u32) -> Result<(), CapsRefused>
        ensures answer { result
            ≡ (if nat_le 1 count && nat_le count LOG_MAX then Ok tt else Err CapsRefused.BadLog) }
        ensures ok { OnOk result (self.new ≡ record self.old { log_limit = count }) }
        ensures err { OnErr result (self.new ≡ self.old) }
    {
        if count < 1 || count > LOG_MAX {
            return Err(CapsRefused::BadLog);
        }
        self.caps.set_log(count);
        Ok(())
    }

    /// Sets how far the realtime and the boottime clock are ahead of the monotonic one, in microseconds. `BadOffset`
    /// comes where one is above `MOMENT_MAX`.
    pub fn offsets(&mut self, realtime: u64, boottime: u64) -> Result<(), CapsRefused>
        ensures answer { result ≡ (if nat_le realtime MOMENT_MAX && nat_le boottime MOMENT_MAX
            then Ok tt else Err CapsRefused.BadOffset) }
        ensures ok { OnOk result (self.new
            ≡ record self.old { realtime = realtime; boottime = boottime }) }
        ensures err { OnErr result (self.new ≡ self.old) }
    {
        if realtime > MOMENT_MAX || boottime > MOMENT_MAX {
            return Err(CapsRefused::BadOffset);
        }
        self.caps.set_offsets(realtime, boottime);
        Ok(())
    }

    /// The same builder again, with what was gathered so far. It takes no memory.
    pub fn copy(&self) -> CapsBuilder
        ensures same { result ≡ self.now }
    {
        CapsBuilder {
            caps: self.caps.copy(),
        }
    }

    /// The description that was gathered.
    ///
    /// With slots it has `EV_ABS`, `ABS_MT_SLOT` and `ABS_MT_TRACKING_ID` besides. Where these two axes were not
    /// described they go from 0 to the last slot and from 0 to 65,535 (this project's choice).
    pub fn build(self) -> Caps
        ensures built { result ≡ built self }
        ensures description { IsDescription result }
    {
        let mut caps = self.caps;
        if caps.slots() > 0 {
            caps.add_slot_axes();
        }
        caps
    }
}
