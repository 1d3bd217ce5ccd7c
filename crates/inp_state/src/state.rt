//! The present state.
ghost use Rattle.std.specs.Prelude.{◌≡◌, ◌≤◌, ℕ, pos, List, [], ◌∷◌, false, slice_index_or, unwrap_or};
ghost use Rattle.inp_model.specs.declared.event.Event.{Event};
ghost use Rattle.inp_model.specs.RawItem.{RawItem, Occurred, Described};
ghost use Rattle.inp_model.specs.Description.{Description, info, no_info};
ghost use Rattle.inp_model.specs.Event.{is_multi_touch};
ghost use Rattle.inp_model.specs.State.{key_down, switch_on, led_on, sound_on, axis_info, axis_value, repeat_setting};
ghost use Rattle.inp_model.specs.Passed.{passes_as};
ghost use Rattle.inp_caps.specs.Disposition.{flags_of, flags_after};
ghost use Rattle.inp_state.specs.State.{StateStandsFor, flags_by};

use crate::changes::{move_axis, passed_if, set_bit, set_key, set_setting};
use bitflags::Flags;
use inp_bits::Bits;
use inp_caps::{Caps, Disposition};
use inp_model::{
    ABS_MAX, AxisInfo, EV_ABS, EV_KEY, EV_LED, EV_MSC, EV_REL, EV_REP, EV_SND, EV_SW, EV_SYN,
    Event, REP_DELAY, REP_PERIOD, SYN_CONFIG, SYN_DROPPED,
};
use std::marker::Model;

/// The time before a key's first repeat, in milliseconds, until it is set (the kernel's default).
const FIRST_DELAY: i32 = 250;

/// The time between repeats, in milliseconds, until it is set (the kernel's default).
const FIRST_PERIOD: i32 = 33;

/// The present state of a device's keys, switches, LEDs, sounds, axes and autorepeat.
///
/// It keeps the last value of each and no list of events, in about 1,900 bytes. It belongs to the description that
/// [`State::new`] was given; with another one no clause says anything.
#[derive(Debug, Drop)]
pub struct State {
    keys: Bits<12>,
    switches: Bits<1>,
    leds: Bits<1>,
    sounds: Bits<1>,
    axes: [i32; 64],
    // The value in one is the one that it was described with.
    infos: [AxisInfo; 64],
    delay: i32,
    period: i32,
}

impl Model for State {
    ghost use Rattle.inp_state.specs.State.{Values};

    ghost Value = { Values };

    ghost view = { λ s. record {
      keys = s.keys;
      switches = s.switches;
      leds = s.leds;
      sounds = s.sounds;
      axes = s.axes;
      infos = s.infos;
      delay = s.delay;
      period = s.period;
    } };
}

impl State {
    /// The state before any event: nothing is down or on, and each axis has its described value.
    pub fn new(caps: &Caps) -> State
        ensures fresh { StateStandsFor caps.now [] result }
    {
        State {
            keys: Bits::new(),
            switches: Bits::new(),
            leds: Bits::new(),
            sounds: Bits::new(),
            axes: described_values(caps),
            infos: descriptions(caps),
            delay: FIRST_DELAY,
            period: FIRST_PERIOD,
        }
    }

    /// Takes a raw event, and says what is done with it, with the value to pass (the kernel's `input_get_disposition`).
    ///
    /// An axis event is passed as the value that the axis takes, and any other as it is. The value of an event that is
    /// not passed is its own. Multi-touch events are not for this call, so `SLOT` is never set.
    pub fn apply(&mut self, caps: &Caps, event: Event) -> (Disposition, i32)
        requires no_slot { is_multi_touch event ≡ false }
        ensures stands { (r : List RawItem) → StateStandsFor caps.now r self.old
            → StateStandsFor caps.now (Occurred event ∷ r) self.new }
        ensures disposition { (r : List RawItem) → StateStandsFor caps.now r self.old
            → flags_of result.0 ≡ flags_after caps.now r event }
        ensures value { (r : List RawItem) → StateStandsFor caps.now r self.old
            → result.1 ≡ unwrap_or (passes_as caps.now r event) event.value }
    {
        let passed = self.change(caps, event);
        (
            disposition(event, passed.is_some()),
            passed.unwrap_or(event.value),
        )
    }

    // Takes a raw event, and gives the value under which it is passed, if it is.
    fn change(&mut self, caps: &Caps, event: Event) -> Option<i32>
        requires no_slot { is_multi_touch event ≡ false }
        ensures stands { (r : List RawItem) → StateStandsFor caps.now r self.old
            → StateStandsFor caps.now (Occurred event ∷ r) self.new }
        ensures passes { (r : List RawItem) → StateStandsFor caps.now r self.old
            → result ≡ passes_as caps.now r event }
    {
        if event.kind == EV_SYN {
            return passed_if(event.code < SYN_DROPPED, event);
        }
        if !caps.supports(event.kind, event.code) {
            return None;
        }
        match event.kind {
            EV_KEY => set_key(&mut self.keys, event),
            EV_REL => passed_if(event.is_set(), event),
            EV_ABS => {
                let fuzz = self.infos[usize::from(event.code)].fuzz;
                move_axis(&mut self.axes, fuzz, event)
            }
            EV_SW => set_bit(&mut self.switches, event),
            EV_LED => set_bit(&mut self.leds, event),
            EV_SND => {
                set_bit(&mut self.sounds, event);
                Some(event.value)
            }
            EV_REP if event.code == REP_DELAY => set_setting(&mut self.delay, event),
            EV_REP => set_setting(&mut self.period, event),
            _ => Some(event.value),
        }
    }

    /// Describes the axis with this code anew, which is at most `ABS_MAX` (evdev's `EVIOCSABS`).
    ///
    /// The axis has the value of the description from now on, and moves by its fuzz. Nothing else changes, and nothing
    /// is passed. The value may be outside of minimum and maximum. It is not for a multi-touch axis, whose values
    /// belong to slots; the caller sees to that.
    pub fn describe(&mut self, code: u16, info: AxisInfo)
        requires within { code ≤ ABS_MAX }
        ensures stands { (d : Description) (r : List RawItem) → StateStandsFor d r self.old
            → StateStandsFor d (Described code info ∷ r) self.new }
    {
        self.axes[usize::from(code)] = info.value;
        self.infos[usize::from(code)] = info;
    }

    /// Which keys are down, by their codes.
    pub fn keys(&self) -> &Bits<12>
        ensures value { result.now ≡ self.now.keys }
        ensures keys { (d : Description) (r : List RawItem) → StateStandsFor d r self.now → (code : ℕ)
            → slice_index_or result.now code false ≡ key_down d r code }
    {
        &self.keys
    }

    /// Which switches are on, by their codes.
    pub fn switches(&self) -> &Bits<1>
        ensures value { result.now ≡ self.now.switches }
        ensures switches { (d : Description) (r : List RawItem) → StateStandsFor d r self.now
            → (code : ℕ) → slice_index_or result.now code false ≡ switch_on d r code }
    {
        &self.switches
    }

    /// Which LEDs are on, by their codes.
    pub fn leds(&self) -> &Bits<1>
        ensures value { result.now ≡ self.now.leds }
        ensures leds { (d : Description) (r : List RawItem) → StateStandsFor d r self.now → (code : ℕ)
            → slice_index_or result.now code false ≡ led_on d r code }
    {
        &self.leds
    }

    /// Which sounds are on, by their codes.
    pub fn sounds(&self) -> &Bits<1>
        ensures value { result.now ≡ self.now.sounds }
        ensures sounds { (d : Description) (r : List RawItem) → StateStandsFor d r self.now → (code : ℕ)
            → slice_index_or result.now code false ≡ sound_on d r code }
    {
        &self.sounds
    }

    /// The value of the axis with this code, which is at most `ABS_MAX`. A multi-touch axis keeps its described value.
    pub fn axis(&self, code: u16) -> i32
        requires within { code ≤ ABS_MAX }
        ensures value { result ≡ slice_index_or self.now.axes code (pos 0) }
        ensures axis { (d : Description) (r : List RawItem) → StateStandsFor d r self.now
            → result ≡ axis_value d r code }
    {
        self.axes[usize::from(code)]
    }

    /// The description of the axis with this code, which is at most `ABS_MAX`, with its present value.
    pub fn info(&self, code: u16) -> AxisInfo
        requires within { code ≤ ABS_MAX }
        ensures value { result ≡ record (slice_index_or self.now.infos code no_info) {
          value = slice_index_or self.now.axes code (pos 0);
        } }
        ensures info { (d : Description) (r : List RawItem) → StateStandsFor d r self.now
            → result ≡ record (axis_info d r code) { value = axis_value d r code } }
    {
        AxisInfo {
            value: self.axes[usize::from(code)],
            ..self.infos[usize::from(code)]
        }
    }

    /// The time before a key's first repeat, in milliseconds.
    pub fn delay(&self) -> i32
        ensures value { result ≡ self.now.delay }
        ensures delay { (d : Description) (r : List RawItem) → StateStandsFor d r self.now
            → result ≡ repeat_setting d r REP_DELAY }
    {
        self.delay
    }

    /// The time between repeats, in milliseconds.
    pub fn period(&self) -> i32
        ensures value { result ≡ self.now.period }
        ensures period { (d : Description) (r : List RawItem) → StateStandsFor d r self.now
            → result ≡ repeat_setting d r REP_PERIOD }
    {
        self.period
    }
}

// The described values of all axes.
fn described_values(caps: &Caps) -> [i32; 64]
    ensures { (code : ℕ) → code ≤ ABS_MAX
        → slice_index_or result code (pos 0) ≡ (info caps.now code).value }
{
    let mut values = [0; 64];
    for code in 0..64u16 {
        values[usize::from(code)] = caps.axis(code).value;
    }
    values
}

// The descriptions of all axes.
fn descriptions(caps: &Caps) -> [AxisInfo; 64]
    ensures { (code : ℕ) → code ≤ ABS_MAX → slice_index_or result code no_info ≡ info caps.now code }
{
    let mut infos = [caps.axis(0); 64];
    for code in 0..64u16 {
        infos[usize::from(code)] = caps.axis(code);
    }
    infos
}

// What is done with an event, by whether it is passed.
fn disposition(event: Event, is_passed: bool) -> Disposition
    ensures { flags_of result ≡ flags_by is_passed event }
{
    if !is_passed {
        return Disposition::empty();
    }
    match event.kind {
        EV_SYN if event.is_report() => Disposition::TO_HANDLERS.union(Disposition::FLUSH),
        EV_SYN if event.code == SYN_CONFIG => Disposition::TO_HANDLERS.union(
            Disposition::TO_DEVICE,
        ),
        EV_LED | EV_SND | EV_MSC | EV_REP => Disposition::TO_HANDLERS.union(Disposition::TO_DEVICE),
        _ => Disposition::TO_HANDLERS,
    }
}
