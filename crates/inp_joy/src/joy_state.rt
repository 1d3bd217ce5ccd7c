//! What a joystick client keeps, and what it does.
ghost use Rattle.std.specs.Prelude.{◌≡◌, ◌≤◌, ◌<◌, ◌+◌, true, false, [], ◌++◌, length, slice_get, Some, None, IfSome};
ghost use Rattle.std.specs.Ordering.{int_eq};
ghost use Rattle.inp_reader.specs.Effort.{effort, IsLess, is_idle};
ghost use Rattle.inp_reader.specs.LeftEvdev.{LeavesMade, agains_after_next};
ghost use Rattle.inp_reader.specs.Reader.{next_talk};
ghost use Rattle.inp_reader.specs.FollowsTalk.{FollowsTalk};
ghost use Rattle.inp_reader.specs.TrueView.{AnswerShows};
ghost use Rattle.inp_reader.specs.ReaderPlace.{IsAlone, is_needed, has_opened};
ghost use Rattle.inp_joy.specs.Codes.{number_among, startup_len};
ghost use Rattle.inp_joy.specs.Joy.{startup, startup_buttons, startup_axes, with_startup, without_startup, is_startup_over, is_long, hand_out_record, joy_record_of, record_of_key, record_of_axis, last_value, joying_after_event, joying_after_next, joying_after_start, sync_turn, event_turn, next_in_startup, record_or_turn, turn_talk, joy_start, gives};
ghost use Rattle.inp_joy.specs.JoyState.{kept_joying, IsJoyState, answer_of_turn, turn_of_end, is_end, IsTurnEndLess, agains_after_turn, ReaderCalls, TurnEndShows, TurnEndPictures, HasTurned, StateStands};
ghost use Rattle.inp_joy.specs.Picture.{seen_as};
ghost use Rattle.inp_joy.specs.Reads.{IsPictured, IsJoyRead, IsReadLess, ReadPictures, agains_after_read};

use crate::code_list::CodeList;
use crate::joy_record::within_16_bits;
use crate::stops::joy_read_of;
use crate::turn_end::TurnEnd;
use crate::views::{cut_axis_of, is_down};
use crate::{JoyRead, JoyRecord, Picture};
use inp_model::{EV_ABS, EV_KEY, Evdev, Taken};
use inp_reader::{CallsMade, Mode, Next, Phase, Reader, Started};

/// How many accepted calls end a read that came to no answer (this project's choice).
const LONG: usize = 64;

const _: () = prove!(LONG == 64);

/// All that a joystick client keeps.
#[derive(Drop)]
pub(crate) struct JoyState {
    /// The codes of the buttons, by their numbers.
    pub(crate) buttons: CodeList,
    /// The codes of the axes, by their numbers.
    pub(crate) axes: CodeList,
    /// Who reads the device.
    pub(crate) reader: Reader,
    /// How many records of the startup were handed out.
    pub(crate) handed: usize,
    /// What the records since the startup began tell.
    pub(crate) picture: Picture,
    /// The calls of the last `start` or `read`, at most 128 (this project's choice).
    pub(crate) made: CallsMade<128>,
}

impl JoyState {
    // The startup record of a button.
    fn startup_button(&self, number: usize) -> JoyRecord
        requires state { IsJoyState self.now.reader.description self.now }
        requires within { number < length self.now.buttons }
        ensures found { slice_get
            (startup_buttons self.now.reader.description self.now.reader.reading.view) number
            ≡ Some result }
        ensures number { result.number < 64 }
    {
        let code = self.buttons.get(number);
        JoyRecord::startup_button(number as u8, is_down(self.reader.view(), code))
    }

    // The startup record of an axis.
    fn startup_axis(&self, number: usize) -> JoyRecord
        requires state { IsJoyState self.now.reader.description self.now }
        requires within { number < length self.now.axes }
        ensures found { slice_get
            (startup_axes self.now.reader.description self.now.reader.reading.view) number
            ≡ Some result }
        ensures number { result.number < 64 }
    {
        let code = self.axes.get(number);
        JoyRecord::startup_axis(number as u8, cut_axis_of(self.reader.view(), code))
    }

    // The next record of the startup, if one is left.
    fn startup_record(&self) -> Option<JoyRecord>
        requires state { IsJoyState self.now.reader.description self.now }
        ensures found { result
            ≡ slice_get (startup self.now.reader.description self.now.reader.reading.view)
            self.now.handed }
        ensures number { IfSome result (λ joy_record. joy_record.number < 64) }
    {
        let buttons = self.buttons.len();
        if self.handed < buttons {
            return Some(self.startup_button(self.handed));
        }
        let axis = self.handed - buttons;
        if axis < self.axes.len() {
            Some(self.startup_axis(axis))
        } else {
            None
        }
    }

    // How many records a startup has.
    fn startup_len(&self) -> usize
        requires { IsJoyState self.now.reader.description self.now }
        ensures { result ≡ startup_len self.now.reader.description }
    {
        self.buttons.len() + self.axes.len()
    }

    // A startup begins.
    fn begin_startup(&mut self)
        ensures joying { kept_joying self.new ≡ with_startup self.old.reader.reading }
        ensures rest { self.new ≡ record self.old { handed = 0; picture = self.new.picture } }
    {
        self.handed = 0;
        self.picture = Picture::blank();
    }

    // The record of a key event, if it gives one.
    fn button_record(&self, event: Taken) -> Option<JoyRecord>
        ensures found { result ≡ record_of_key (number_among event.event.code self.now.buttons) event }
        ensures number { IfSome result (λ joy_record. joy_record.number < 64) }
    {
        let Some(number) = self.buttons.number_among(event.event.code) else {
            return None;
        };
        if event.event.is_repeat() {
            None
        } else {
            Some(JoyRecord::of_button(number as u8, event))
        }
    }

    // Whether a value of an axis is the one that was handed out last.
    fn is_last_value(&self, number: usize, value: i16) -> bool
        requires { number < 64 }
        ensures { result ≡ int_eq value (last_value (seen_as self.now.picture) number) }
    {
        value == self.picture.axes[number]
    }

    // The record of an axis event, if it gives one.
    fn axis_record(&self, event: Taken) -> Option<JoyRecord>
        ensures found { result
            ≡ record_of_axis (seen_as self.now.picture)
            (number_among event.event.code self.now.axes) event }
        ensures number { IfSome result (λ joy_record. joy_record.number < 64) }
    {
        let Some(number) = self.axes.number_among(event.event.code) else {
            return None;
        };
        if self.is_last_value(number, within_16_bits(event.event.value)) {
            None
        } else {
            Some(JoyRecord::of_axis(number as u8, event))
        }
    }

    // The record of an event, if it gives one.
    fn event_record(&self, event: Taken) -> Option<JoyRecord>
        requires state { IsJoyState self.now.reader.description self.now }
        ensures found { result
            ≡ joy_record_of self.now.reader.description (seen_as self.now.picture) event }
        ensures number { IfSome result (λ joy_record. joy_record.number < 64) }
    {
        match event.event.kind {
            EV_KEY => self.button_record(event),
            EV_ABS => self.axis_record(event),
            _ => None,
        }
    }

    // Hands out a record.
    fn hand(&mut self, joy_record: JoyRecord) -> TurnEnd
        requires { joy_record.number < 64 }
        ensures turn { turn_of_end result (kept_joying self.new)
            ≡ gives (hand_out_record (kept_joying self.old) joy_record) }
        ensures rest { self.new ≡ record self.old { picture = self.new.picture } }
    {
        self.picture.take(joy_record);
        TurnEnd::Hands { joy_record }
    }

    // After an event of the reader.
    fn after_event(&mut self, event: Taken) -> TurnEnd
        requires state { IsJoyState self.old.reader.description self.old }
        ensures turn { turn_of_end result (kept_joying self.new)
            ≡ joying_after_event self.old.reader.description (kept_joying self.old) event }
        ensures rest { self.new ≡ record self.old { picture = self.new.picture } }
    {
        if event.event.is_report() {
            let read = JoyRead::Frame { place: event.place };
            return TurnEnd::Stops { read };
        }
        match self.event_record(event) {
            Some(joy_record) => self.hand(joy_record),
            None => TurnEnd::GoesOn,
        }
    }

    // After an answer of the reader that lost no events.
    fn after_next(&mut self, next: Next) -> TurnEnd
        requires state { IsJoyState self.old.reader.description self.old }
        ensures turn { turn_of_end result (kept_joying self.new)
            ≡ joying_after_next self.old.reader.description (kept_joying self.old) next }
        ensures rest { self.new ≡ record self.old { picture = self.new.picture } }
    {
        match next {
            Next::Success { event } => self.after_event(event),
            _ => match joy_read_of(next) {
                Some(read) => TurnEnd::Stops { read },
                None => TurnEnd::GoesOn,
            },
        }
    }

    // Asks the reader for its next event, and keeps the calls that it made.
    fn next<E: Evdev>(&mut self, dev: &mut E, mode: Mode) -> Next
        requires description { (E.told dev.old).description ≡ self.old.reader.description }
        requires state { IsJoyState self.old.reader.description self.old }
        requires few { length self.old.made + 55 ≤ 128 }
        ensures says { FollowsTalk (E.told dev.old) (E.told dev.new) self.old.made self.new.made
            (next_talk self.old.reader.description mode self.old.reader.reading)
            (result, self.new.reader.reading) }
        ensures calls { ReaderCalls (E.told dev.old) (E.told dev.new) self.old.made self.new.made
            self.old.reader.description self.old.reader.reading self.new.reader.reading
            (AnswerShows (E.told dev.new) self.new.reader result) }
        ensures agains { (E.told dev.new).agains ≡ agains_after_next result (E.told dev.old).agains }
        ensures less { is_idle mode self.old.reader.reading.phase ≡ false → IsLess result
            (effort (E.told dev.new) self.new.reader.reading)
            (effort (E.told dev.old) self.old.reader.reading) }
        ensures rest { self.new
            ≡ record self.old { reader = self.new.reader; made = self.new.made } }
        ensures state { IsJoyState self.old.reader.description self.new }
        ensures few { length self.new.made ≤ length self.old.made + 55 }
        ensures one { is_needed self.old.reader.reading.phase ≡ false
            → length self.new.made ≤ length self.old.made + 1 }
    {
        let next = self.reader.next(dev, mode);
        self.made.add_all(self.reader.made());
        next
    }

    // Makes the reader synchronise; then a startup begins.
    fn synchronise<E: Evdev>(&mut self, dev: &mut E) -> TurnEnd
        requires description { (E.told dev.old).description ≡ self.old.reader.description }
        requires state { IsJoyState self.old.reader.description self.old }
        requires needed { is_needed self.old.reader.reading.phase ≡ true }
        requires few { length self.old.made + 55 ≤ 128 }
        ensures says { FollowsTalk (E.told dev.old) (E.told dev.new) self.old.made self.new.made
            (sync_turn self.old.reader.description (kept_joying self.old))
            (turn_of_end result (kept_joying self.new)) }
        ensures calls { ReaderCalls (E.told dev.old) (E.told dev.new) self.old.made self.new.made
            self.old.reader.description self.old.reader.reading self.new.reader.reading
            (TurnEndShows (E.told dev.new) self.new.reader result) }
        ensures agains { (E.told dev.new).agains ≡ agains_after_turn result (E.told dev.old).agains }
        ensures less { IsTurnEndLess result
            (effort (E.told dev.new) self.new.reader.reading)
            (effort (E.told dev.old) self.old.reader.reading) }
        ensures state { IsJoyState self.old.reader.description self.new }
        ensures few { length self.new.made ≤ length self.old.made + 55 }
    {
        let next = self.next(dev, Mode::Sync);
        if let Some(read) = joy_read_of(next) {
            return TurnEnd::Stops { read };
        }
        self.begin_startup();
        TurnEnd::GoesOn
    }

    // Asks the reader for its next event; where events were lost it synchronises.
    fn take_event<E: Evdev>(&mut self, dev: &mut E) -> TurnEnd
        requires description { (E.told dev.old).description ≡ self.old.reader.description }
        requires state { IsJoyState self.old.reader.description self.old }
        requires plain { is_needed self.old.reader.reading.phase ≡ false }
        requires few { length self.old.made < 64 }
        ensures says { FollowsTalk (E.told dev.old) (E.told dev.new) self.old.made self.new.made
            (event_turn self.old.reader.description (kept_joying self.old))
            (turn_of_end result (kept_joying self.new)) }
        ensures calls { ReaderCalls (E.told dev.old) (E.told dev.new) self.old.made self.new.made
            self.old.reader.description self.old.reader.reading self.new.reader.reading
            (TurnEndShows (E.told dev.new) self.new.reader result) }
        ensures agains { (E.told dev.new).agains ≡ agains_after_turn result (E.told dev.old).agains }
        ensures less { IsTurnEndLess result
            (effort (E.told dev.new) self.new.reader.reading)
            (effort (E.told dev.old) self.old.reader.reading) }
        ensures state { IsJoyState self.old.reader.description self.new }
        ensures few { length self.new.made ≤ length self.old.made + 56 }
    {
        let next = self.next(dev, Mode::Normal);
        match next {
            Next::Dropped { .. } => self.synchronise(dev),
            _ => self.after_next(next),
        }
    }

    // Hands out the next record of the startup.
    fn hand_startup(&mut self, joy_record: JoyRecord) -> TurnEnd
        requires state { IsJoyState self.old.reader.description self.old }
        requires left { slice_get
            (startup self.old.reader.description self.old.reader.reading.view) self.old.handed
            ≡ Some joy_record }
        requires number { joy_record.number < 64 }
        ensures turn { turn_of_end result (kept_joying self.new)
            ≡ gives (hand_out_record (next_in_startup (kept_joying self.old)) joy_record) }
        ensures rest { self.new
            ≡ record self.old { handed = self.old.handed + 1; picture = self.new.picture } }
        ensures state { IsJoyState self.old.reader.description self.new }
    {
        self.handed += 1;
        self.hand(joy_record)
    }

    // A turn where no record of the startup is left.
    fn go_on<E: Evdev>(&mut self, dev: &mut E) -> TurnEnd
        requires description { (E.told dev.old).description ≡ self.old.reader.description }
        requires state { IsJoyState self.old.reader.description self.old }
        requires few { length self.old.made < 64 }
        ensures says { FollowsTalk (E.told dev.old) (E.told dev.new) self.old.made self.new.made
            (record_or_turn self.old.reader.description (kept_joying self.old) None)
            (turn_of_end result (kept_joying self.new)) }
        ensures calls { ReaderCalls (E.told dev.old) (E.told dev.new) self.old.made self.new.made
            self.old.reader.description self.old.reader.reading self.new.reader.reading
            (TurnEndShows (E.told dev.new) self.new.reader result) }
        ensures agains { (E.told dev.new).agains ≡ agains_after_turn result (E.told dev.old).agains }
        ensures less { IsTurnEndLess result
            (effort (E.told dev.new) self.new.reader.reading)
            (effort (E.told dev.old) self.old.reader.reading) }
        ensures state { IsJoyState self.old.reader.description self.new }
        ensures few { length self.new.made ≤ 128 }
    {
        if self.is_needed() {
            self.synchronise(dev)
        } else {
            self.take_event(dev)
        }
    }

    // A turn of a read.
    fn turn<E: Evdev>(&mut self, dev: &mut E) -> TurnEnd
        requires description { (E.told dev.old).description ≡ self.old.reader.description }
        requires state { IsJoyState self.old.reader.description self.old }
        requires pictured { IsPictured self.old.reader.description (kept_joying self.old) }
        requires short { is_startup_over self.old.reader.description (kept_joying self.old) ≡ true
            → length self.old.made < 64 }
        requires few { length self.old.made ≤ 128 }
        ensures says { FollowsTalk (E.told dev.old) (E.told dev.new) self.old.made self.new.made
            (turn_talk self.old.reader.description (kept_joying self.old))
            (turn_of_end result (kept_joying self.new)) }
        ensures calls { ReaderCalls (E.told dev.old) (E.told dev.new) self.old.made self.new.made
            self.old.reader.description self.old.reader.reading self.new.reader.reading
            (TurnEndPictures (E.told dev.new) self.old.reader.description
            (kept_joying self.new) result) }
        ensures agains { (E.told dev.new).agains ≡ agains_after_turn result (E.told dev.old).agains }
        ensures less { IsTurnEndLess result
            (effort (E.told dev.new) self.new.reader.reading)
            (effort (E.told dev.old) self.old.reader.reading) }
        ensures state { IsJoyState self.old.reader.description self.new }
        ensures pictured { IsPictured self.old.reader.description (kept_joying self.new) }
        ensures few { length self.new.made ≤ 128 }
    {
        match self.startup_record() {
            Some(joy_record) => self.hand_startup(joy_record),
            None => self.go_on(dev),
        }
    }

    // Whether no other turn follows.
    fn is_end(&self, outcome: TurnEnd) -> bool
        requires { IsJoyState self.now.reader.description self.now }
        ensures { result
            ≡ is_end self.now.reader.description outcome (kept_joying self.now)
            (length self.now.made) }
    {
        match outcome {
            TurnEnd::GoesOn => self.startup_len() <= self.handed && self.made.len() >= LONG,
            _ => true,
        }
    }

    // Turns until one gives an answer, or until the read is long.
    fn take_turns<E: Evdev>(&mut self, dev: &mut E) -> TurnEnd
        requires description { (E.told dev.old).description ≡ self.old.reader.description }
        requires state { IsJoyState self.old.reader.description self.old }
        requires pictured { IsPictured self.old.reader.description (kept_joying self.old) }
        requires anew { self.old.made ≡ [] }
        ensures says { HasTurned (E.told dev.old) (E.told dev.new)
            self.old.reader.description (kept_joying self.old) self.new.made
            (answer_of_turn result (kept_joying self.new)) }
        ensures calls { ReaderCalls (E.told dev.old) (E.told dev.new) [] self.new.made
            self.old.reader.description self.old.reader.reading self.new.reader.reading
            (TurnEndPictures (E.told dev.new) self.old.reader.description
            (kept_joying self.new) result) }
        ensures agains { (E.told dev.new).agains ≡ agains_after_turn result (E.told dev.old).agains }
        ensures less { IsTurnEndLess result
            (effort (E.told dev.new) self.new.reader.reading)
            (effort (E.told dev.old) self.old.reader.reading) }
        ensures state { IsJoyState self.old.reader.description self.new }
        ensures pictured { IsPictured self.old.reader.description (kept_joying self.new) }
        ensures few { length self.new.made ≤ 128 }
    {
        loop {
            let outcome = self.turn(dev);
            if self.is_end(outcome) {
                return outcome;
            }
        }
    }

    // Reads: the record, where there is one, goes to `out`.
    pub(crate) fn read<E: Evdev>(&mut self, dev: &mut E, out: &mut [u8; 8]) -> JoyRead
        requires description { (E.told dev.old).description ≡ self.old.reader.description }
        requires state { IsJoyState self.old.reader.description self.old }
        requires pictured { IsPictured self.old.reader.description (kept_joying self.old) }
        ensures says { IsJoyRead (E.told dev.old) (E.told dev.new)
            self.old.reader.description (kept_joying self.old) (kept_joying self.new) self.new.made
            result out.old out.new }
        ensures calls { ReaderCalls (E.told dev.old) (E.told dev.new) [] self.new.made
            self.old.reader.description self.old.reader.reading self.new.reader.reading
            (ReadPictures (E.told dev.new) self.old.reader.description (kept_joying self.new) result) }
        ensures agains { (E.told dev.new).agains ≡ agains_after_read result (E.told dev.old).agains }
        ensures less { IsReadLess result
            (effort (E.told dev.new) self.new.reader.reading)
            (effort (E.told dev.old) self.old.reader.reading) }
        ensures state { IsJoyState self.old.reader.description self.new }
        ensures pictured { IsPictured self.old.reader.description (kept_joying self.new) }
        ensures few { length self.new.made ≤ 128 }
    {
        self.made.clear();
        match self.take_turns(dev) {
            TurnEnd::Hands { joy_record } => {
                *out = joy_record.bytes();
                JoyRead::Record
            }
            TurnEnd::Stops { read } => read,
            TurnEnd::GoesOn => JoyRead::More,
        }
    }

    // A startup begins where the reader opened a client; where its queries were refused in part no record is left.
    fn after_start(&mut self, started: Started)
        requires state { IsJoyState self.old.reader.description self.old }
        ensures joying { kept_joying self.new
            ≡ joying_after_start self.old.reader.description (kept_joying self.old) started }
        ensures rest { self.new
            ≡ record self.old { handed = self.new.handed; picture = self.new.picture } }
        ensures handed { self.new.handed ≤ startup_len self.old.reader.description }
    {
        match started {
            Started::Opened { .. } => self.begin_startup(),
            Started::Refused { .. } => {
                if self.is_needed() {
                    self.handed = self.startup_len();
                }
            }
        }
    }

    // Whether the reader is to synchronise.
    fn is_needed(&self) -> bool
        ensures { result ≡ is_needed self.now.reader.reading.phase }
    {
        matches!(self.reader.phase(), Phase::Needed)
    }

    // Starts the reader.
    pub(crate) fn start<E: Evdev>(&mut self, dev: &mut E) -> Started
        requires description { (E.told dev.old).description ≡ self.old.reader.description }
        requires state { IsJoyState self.old.reader.description self.old }
        requires pictured { IsPictured self.old.reader.description (kept_joying self.old) }
        ensures says { FollowsTalk (E.told dev.old) (E.told dev.new) [] self.new.made
            (joy_start self.old.reader.description (kept_joying self.old))
            (result, kept_joying self.new) }
        ensures left { LeavesMade (E.told dev.old) (E.told dev.new) self.new.made }
        ensures agains { (E.told dev.new).agains ≡ (E.told dev.old).agains }
        ensures opened { has_opened result ≡ true
            → IsAlone (E.told dev.old) (E.told dev.new) self.new.reader.reading.client self.new.made
            → StateStands (E.told dev.new) self.new }
        ensures stands { StateStands (E.told dev.old) self.old
            → IsAlone (E.told dev.old) (E.told dev.new) self.new.reader.reading.client self.new.made
            → StateStands (E.told dev.new) self.new }
        ensures state { IsJoyState self.old.reader.description self.new }
        ensures pictured { IsPictured self.old.reader.description (kept_joying self.new) }
        ensures few { length self.new.made ≤ 64 }
    {
        self.made.clear();
        let started = self.reader.start(dev);
        self.made.add_all(self.reader.made());
        self.after_start(started);
        started
    }
}
