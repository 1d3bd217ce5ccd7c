//! The description of a device.
ghost use Rattle.std.specs.Prelude.{◌≡◌, ◌<◌, ◌≤◌, true, false, length, slice_get, slice_index_or, ◌∷◌, replicate, IfSome};
ghost use Rattle.inp_model.specs.Description.{has_kind, has_code, supports, info, ring, offset, is_kind, is_bad_axis, is_filter, IsDescription, syn_alone};
ghost use Rattle.inp_caps.specs.Builder.{with_kind, with_code, with_axis, with_default_axis, with_slot_axes, with_filter, is_code};

use inp_bits::Bits;
use inp_model::{
    ABS_MAX, ABS_MT_SLOT, ABS_MT_TRACKING_ID, AxisInfo, Clock, EV_ABS, EV_KEY, EV_LED, EV_MSC,
    EV_REL, EV_REP, EV_SND, EV_SW, EV_SYN, FILTERS_MAX, Filter, HINT_MAX, HINT_MIN, LOG_MAX,
    MOMENT_MAX, NO_INFO, REP_MAX, SLOTS_MAX, SYN_DROPPED,
};
use std::marker::Model;
use std::mem::size_of;

/// The hint of events per frame where none is given (this project's choice).
const HINT_DEFAULT: u32 = 16;

/// The log limit where none is given (this project's choice).
const LOG_DEFAULT: u32 = 1_048_576;

/// The greatest tracking id that a device with slots describes, where it describes none (this project's choice).
const TRACKING_ID_MAX: i32 = 65_535;

/// No filter: each place for one holds the same, and none is in use.
const NO_FILTERS: [Filter; FILTERS_MAX as usize] = [Filter::Norepeat; FILTERS_MAX as usize];

const _: () = prove!(size_of::<Caps>() == 1784);

/// The description of a device: which types and codes it supports, its axes, its filters, and its numbers.
///
/// Made by [`CapsBuilder::build`](crate::CapsBuilder::build). It is plain data of 1,784 bytes, takes no memory
/// and never changes. A contract sees it as a `Description` of `inp_model`.
#[derive(Debug, Drop)]
pub struct Caps {
    kinds: Bits<1>,
    keys: Bits<12>,
    relatives: Bits<1>,
    axes: Bits<1>,
    miscs: Bits<1>,
    switches: Bits<1>,
    leds: Bits<1>,
    sounds: Bits<1>,
    infos: [AxisInfo; 64],
    filters: [Filter; FILTERS_MAX as usize],
    filter_count: u32,
    slots: u32,
    hint: u32,
    log: u32,
    realtime: u64,
    boottime: u64,
}

impl Model for Caps {
    ghost use Rattle.inp_model.specs.Description.{Description};

    ghost Value = { Description };

    ghost use Rattle.inp_caps.specs.Caps.{description, IsCaps};

    ghost view = { description };

    ghost invariant = { IsCaps };
}

impl Caps {
    /// Whether the type is supported. `EV_SYN` always is.
    pub fn has_kind(&self, kind: u16) -> bool
        ensures kind { result ≡ has_kind self.now kind }
        ensures description { IsDescription self.now }
    {
        code_at(&self.kinds, kind)
    }

    /// Whether the code of the type is supported. `EV_SYN` has the codes 0 to 3, and `EV_REP`, where it is
    /// supported, has both of its codes.
    #[inline]
    pub fn supports(&self, kind: u16, code: u16) -> bool
        ensures supported { result ≡ supports self.now kind code }
        ensures description { IsDescription self.now }
    {
        self.has_kind(kind) && self.has_code(kind, code)
    }

    // Whether the code is among those of its type.
    fn has_code(&self, kind: u16, code: u16) -> bool
        ensures code { result ≡ has_code self.now kind code }
        ensures description { IsDescription self.now }
    {
        match kind {
            EV_SYN => code <= SYN_DROPPED,
            EV_KEY => key_at(&self.keys, code),
            EV_REL => code_at(&self.relatives, code),
            EV_ABS => code_at(&self.axes, code),
            EV_MSC => code_at(&self.miscs, code),
            EV_SW => code_at(&self.switches, code),
            EV_LED => code_at(&self.leds, code),
            EV_SND => code_at(&self.sounds, code),
            EV_REP => code <= REP_MAX,
            _ => false,
        }
    }

    /// The axis with this code, which is at most `ABS_MAX`, with the value that it has before any event. All numbers
    /// of an axis that was not described are 0.
    pub fn axis(&self, code: u16) -> AxisInfo
        requires within { code ≤ ABS_MAX }
        ensures axis { result ≡ info self.now code }
        ensures good { is_bad_axis code result ≡ false }
    {
        self.infos[usize::from(code)]
    }

    /// The filter with this number, from 0 in the order in which they are given events, or None where there are no more
    /// than so many.
    pub fn filter(&self, index: u32) -> Option<Filter>
        ensures filter { result ≡ slice_get self.now.filters index }
        ensures range { length self.now.filters ≤ FILTERS_MAX }
        ensures good { IfSome result (λ f. is_filter f ≡ true) }
    {
        if index < self.filter_count {
            Some(self.filters[index as usize])
        } else {
            None
        }
    }

    /// The number of multi-touch slots, 1 to 256, or 0 for none.
    pub fn slots(&self) -> u32
        ensures slots { result ≡ self.now.slots }
        ensures range { result ≤ SLOTS_MAX }
    {
        self.slots
    }

    /// How many events a frame may gather before it is cut, 2 to 512.
    pub fn hint(&self) -> u32
        ensures hint { result ≡ self.now.hint }
        ensures range { (HINT_MIN ≤ result) × (result ≤ HINT_MAX) }
    {
        self.hint
    }

    /// How many steps a history may have, 1 to 8,388,608.
    pub fn log(&self) -> u32
        ensures log { result ≡ self.now.log_limit }
        ensures range { (1 ≤ result) × (result ≤ LOG_MAX) }
    {
        self.log
    }

    /// How far the clock is ahead of the moments of the steps, in microseconds, at most `MOMENT_MAX`. The offset of
    /// the monotonic clock is 0.
    pub fn offset(&self, clock: Clock) -> u64
        ensures offset { result ≡ offset self.now clock }
        ensures range { result ≤ MOMENT_MAX }
    {
        match clock {
            Clock::Realtime => self.realtime,
            Clock::Monotonic => 0,
            Clock::Boottime => self.boottime,
        }
    }

    /// The number of places of a client's ring, 64 to 4,096: the least power of two that is at least 64 and at least
    /// eight times the hint (evdev's `evdev_compute_buffer_size`).
    pub fn ring(&self) -> u32
        ensures ring { result ≡ ring self.now }
        ensures range { (64 ≤ result) × (result ≤ 4096) }
    {
        (8 * self.hint).max(64).next_power_of_two()
    }

    // EV_SYN alone.
    pub(crate) fn syn_alone() -> Caps
        ensures { result ≡ syn_alone }
    {
        Caps {
            kinds: syn_kind(),
            keys: no_keys(),
            relatives: no_codes(),
            axes: no_codes(),
            miscs: no_codes(),
            switches: no_codes(),
            leds: no_codes(),
            sounds: no_codes(),
            infos: [NO_INFO; 64],
            filters: NO_FILTERS,
            filter_count: 0,
            slots: 0,
            hint: HINT_DEFAULT,
            log: LOG_DEFAULT,
            realtime: 0,
            boottime: 0,
        }
    }

    // Adds a type.
    pub(crate) fn add_kind(&mut self, kind: u16)
        requires { is_kind kind ≡ true }
        ensures { self.new ≡ with_kind self.old kind }
    {
        self.kinds.set(u32::from(kind), true);
    }

    // Adds a code to those of its type, which need not be supported.
    pub(crate) fn add_code(&mut self, kind: u16, code: u16)
        requires { is_code kind code ≡ true }
        ensures { self.new ≡ with_code self.old kind code }
    {
        let index = u32::from(code);
        match kind {
            EV_KEY => self.keys.set(index, true),
            EV_REL => self.relatives.set(index, true),
            EV_MSC => self.miscs.set(index, true),
            EV_SW => self.switches.set(index, true),
            EV_LED => self.leds.set(index, true),
            EV_SND => self.sounds.set(index, true),
            _ => {}
        }
    }

    // Adds an axis, or describes it anew.
    pub(crate) fn add_axis(&mut self, code: u16, info: AxisInfo)
        requires code { code ≤ ABS_MAX }
        requires good { is_bad_axis code info ≡ false }
        ensures added { self.new ≡ with_axis self.old code info }
        ensures description { IsDescription self.new }
    {
        self.axes.set(u32::from(code), true);
        self.infos[usize::from(code)] = info;
    }

    // How many filters there are.
    pub(crate) fn filter_count(&self) -> u32
        ensures count { result ≡ length self.now.filters }
        ensures range { result ≤ FILTERS_MAX }
    {
        self.filter_count
    }

    // Adds a filter after the others, of which there are fewer than eight.
    pub(crate) fn add_filter(&mut self, filter: Filter)
        requires room { length self.old.filters < FILTERS_MAX }
        requires good { is_filter filter ≡ true }
        ensures added { self.new ≡ with_filter self.old filter }
        ensures description { IsDescription self.new }
    {
        self.filters[self.filter_count as usize] = filter;
        self.filter_count += 1;
    }

    // Adds an axis from 0 to the maximum, unless it was described.
    fn add_default_axis(&mut self, code: u16, maximum: i32)
        requires { code ≤ ABS_MAX }
        ensures added { self.new ≡ with_default_axis self.old code maximum }
        ensures description { IsDescription self.new }
    {
        if !self.has_code(EV_ABS, code) {
            self.add_axis(code, AxisInfo { maximum, ..NO_INFO });
        }
    }

    // Adds what a device with slots needs.
    pub(crate) fn add_slot_axes(&mut self)
        requires { 0 < self.old.slots }
        ensures added { self.new ≡ with_slot_axes self.old }
        ensures description { IsDescription self.new }
    {
        let last_slot = (self.slots() - 1) as i32;
        self.add_kind(EV_ABS);
        self.add_default_axis(ABS_MT_SLOT, last_slot);
        self.add_default_axis(ABS_MT_TRACKING_ID, TRACKING_ID_MAX);
    }

    pub(crate) fn set_slots(&mut self, count: u32)
        requires { count ≤ SLOTS_MAX }
        ensures { self.new ≡ record self.old { slots = count } }
    {
        self.slots = count;
    }

    pub(crate) fn set_hint(&mut self, count: u32)
        requires { (HINT_MIN ≤ count) × (count ≤ HINT_MAX) }
        ensures { self.new ≡ record self.old { hint = count } }
    {
        self.hint = count;
    }

    pub(crate) fn set_log(&mut self, count: u32)
        requires { (1 ≤ count) × (count ≤ LOG_MAX) }
        ensures { self.new ≡ record self.old { log_limit = count } }
    {
        self.log = count;
    }

    pub(crate) fn set_offsets(&mut self, realtime: u64, boottime: u64)
        requires { (realtime ≤ MOMENT_MAX) × (boottime ≤ MOMENT_MAX) }
        ensures { self.new ≡ record self.old { realtime = realtime; boottime = boottime } }
    {
        self.realtime = realtime;
        self.boottime = boottime;
    }

    /// The same description again. It takes no memory.
    pub fn copy(&self) -> Caps
        ensures same { result ≡ self.now }
        ensures description { IsDescription result }
    {
        Caps {
            kinds: self.kinds,
            keys: self.keys,
            relatives: self.relatives,
            axes: self.axes,
            miscs: self.miscs,
            switches: self.switches,
            leds: self.leds,
            sounds: self.sounds,
            infos: self.infos,
            filters: self.filters,
            filter_count: self.filter_count,
            slots: self.slots,
            hint: self.hint,
            log: self.log,
            realtime: self.realtime,
            boottime: self.boottime,
        }
    }
}

// Whether the key is among these; none is past the end.
fn key_at(keys: &Bits<12>, code: u16) -> bool
    requires { length keys.now ≡ 768 }
    ensures { result ≡ slice_index_or keys.now code false }
{
    code < 768 && keys.get(u32::from(code))
}

// Whether the code is among these; none is past the end.
fn code_at(codes: &Bits<1>, code: u16) -> bool
    requires { length codes.now ≡ 64 }
    ensures { result ≡ slice_index_or codes.now code false }
{
    code < 64 && codes.get(u32::from(code))
}

// The types of a device of which nothing was said.
fn syn_kind() -> Bits<1>
    ensures { result ≡ true ∷ replicate 63 false }
{
    let mut kinds = no_codes();
    kinds.set(u32::from(EV_SYN), true);
    kinds
}

fn no_keys() -> Bits<12>
    ensures { result ≡ replicate 768 false }
{
    Bits::new()
}

fn no_codes() -> Bits<1>
    ensures { result ≡ replicate 64 false }
{
    Bits::new()
}
