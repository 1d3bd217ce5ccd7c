//! What the lines of a record depend on: the lines before them.
ghost use Rattle.std.specs.Prelude.{◌≡◌, ◌+◌, ◌<◌, ◌≤◌, [], ◌∷◌, length, true, false, if◌then◌else◌, is_some, option_map, unwrap_or, replicate, IfOk, OnOk};
ghost use Rattle.std.specs.List.{list_any};
ghost use Rattle.std.specs.Str.{bytes_eq};
ghost use Rattle.inp_actors.specs.Record.{IsRecord};
ghost use Rattle.inp_record.specs.ItemsBefore.{ItemsBefore, context_of, no_given, IsWithinCounts, streams_in, is_later};
ghost use Rattle.inp_record.specs.Meaning.{is_twice, is_too_many, is_later_command, has_too_many_slots, has_all, IsLineEntered, closed, record_of_context};
ghost use Rattle.inp_caps.specs.Builder.{with_filter, filter_answer};
ghost use Rattle.inp_record.specs.Words.{has_micros};
ghost use Rattle.inp_record.specs.declared.item.Item.TheVariants as items;

use crate::Cause;
use crate::item::Item;
use crate::line_fault::LineFault;
use crate::place::Place;
use inp_actors::{
    ActorText, Actors, Command, DeviceText, Devices, Line, Lines, Name, Record, Role, Streams,
};
use inp_caps::{CapsBuilder, CapsRefused};
use inp_model::{AxisInfo, Filter, Items, NoMemory};
use std::alloc::Global;
use std::mem;

/// The greatest number of devices of a record (this project's choice).
pub(crate) const DEVICES_MAX: usize = 8;

const _: () = prove!(DEVICES_MAX == 2 * 4);

/// The greatest number of sources of a device (this project's choice).
pub(crate) const SOURCES_MAX: u32 = 8;

const _: () = prove!(SOURCES_MAX == 2 * 4);

/// The greatest number of clients, taps and joysticks of a device together (this project's choice).
pub(crate) const READERS_MAX: u32 = 128;

const _: () = prove!(READERS_MAX == 2 * 64);

/// The greatest number of owners of a device (this project's choice).
pub(crate) const OWNERS_MAX: u32 = 1;

const _: () = prove!(OWNERS_MAX + OWNERS_MAX == 2);

/// The greatest number of streams of a record (this project's choice).
pub(crate) const STREAMS_MAX: u32 = 16;

const _: () = prove!(STREAMS_MAX == 2 * 8);

/// The greatest number of slots of a device under version 1 (this project's choice).
pub(crate) const SLOTS_OF_VERSION_1: u32 = 64;

const _: () = prove!(SLOTS_OF_VERSION_1 == 2 * 32);

/// What the lines of the latest device gave.
#[derive(Drop)]
pub(crate) struct Given {
    pub(crate) hint: bool,
    pub(crate) log: bool,
    pub(crate) slots: bool,
    pub(crate) realtime: Option<u64>,
    pub(crate) boottime: Option<u64>,
    pub(crate) axes: Items<u16>,
}

/// What the lines so far mean for the next one.
#[derive(Drop)]
pub(crate) struct Context {
    /// Where the next line stands.
    pub(crate) place: Place,
    /// The version that the header names, 1 before it.
    pub(crate) version: u32,
    /// The name of the latest device.
    pub(crate) name: Option<Name>,
    /// Whether it is made by requests.
    pub(crate) requested: bool,
    /// Its description so far.
    pub(crate) builder: CapsBuilder,
    /// What its lines gave.
    pub(crate) given: Given,
    /// How many sources it has.
    pub(crate) sources: u32,
    /// How many clients, taps and joysticks it has.
    pub(crate) readers: u32,
    /// How many owners it has.
    pub(crate) owners: u32,
    /// The devices before it.
    pub(crate) devices: Devices,
    /// All actors so far.
    pub(crate) actors: Actors,
    /// All action lines so far.
    pub(crate) lines: Lines,
    /// How many streams these take.
    pub(crate) streams: u32,
}

impl Context {
    /// Before the first line, with an empty list for the action lines.
    pub(crate) fn new(alloc: Global, lines: Lines) -> Context
        requires empty { lines ≡ [] }
        ensures context { result ≡ context_of [] }
        ensures room { IsWithinCounts result }
    {
        Context {
            place: Place::Start,
            version: 1,
            name: None,
            requested: false,
            builder: CapsBuilder::new(),
            given: Given::new(alloc),
            sources: 0,
            readers: 0,
            owners: 0,
            devices: Items::new(alloc),
            actors: Items::new(alloc),
            lines,
            streams: 0,
        }
    }

    /// Enters the meaning of a line, unless no description can have what it says.
    pub(crate) fn enter(&mut self, alloc: Global, item: Item) -> Result<(), LineFault>
        requires room { IsWithinCounts self.old }
        requires enough { is_too_many self.old item ≡ false }
        requires micros { has_micros item ≡ true }
        ensures entered { (past : ItemsBefore) → self.old ≡ context_of past
            → IsLineEntered result past item self.new }
        ensures actors { OnOk result (length self.new.actors ≤ length self.old.actors + 1) }
        ensures room { OnOk result (IsWithinCounts self.new) }
    {
        match item {
            Item::Header { version } => self.begin(version),
            Item::Device { requested, name } => self.add_device(alloc, requested, name),
            Item::Actor { role, name } => self.add_actor(role, name),
            Item::Action { actor, command } => self.add_line(actor, command),
            Item::Hint { count } => self.set_hint(count),
            Item::Log { count } => self.set_log(count),
            Item::Realtime { offset } => self.set_realtime(offset),
            Item::Boottime { offset } => self.set_boottime(offset),
            Item::Slots { count } => self.set_slots(count),
            Item::Kind { kind } => self.add_kind(kind),
            Item::Code { kind, code } => self.add_code(kind, code),
            Item::Axis { code, info } => self.add_axis(code, info),
            Item::Filter { filter } => self.add_filter(filter),
        }
    }

    fn begin(&mut self, version: u32) -> Result<(), LineFault>
        ensures entered { (past : ItemsBefore) → self.old ≡ context_of past
            → IsLineEntered result past (items.Header version) self.new }
        ensures room { OnOk result (IsWithinCounts self.old → IsWithinCounts self.new) }
        ensures actors { OnOk result (self.new.actors ≡ self.old.actors) }
    {
        self.version = version;
        self.place = Place::Headed;
        Ok(())
    }

    fn set_hint(&mut self, count: u32) -> Result<(), LineFault>
        ensures entered { (past : ItemsBefore) → self.old ≡ context_of past
            → IsLineEntered result past (items.Hint count) self.new }
        ensures room { OnOk result (IsWithinCounts self.old → IsWithinCounts self.new) }
        ensures actors { OnOk result (self.new.actors ≡ self.old.actors) }
    {
        if let Err(why) = self.builder.hint(count) {
            return Err(LineFault::Refused(Cause::Caps(why)));
        }
        self.given.hint = true;
        self.place = Place::Describing;
        Ok(())
    }

    fn set_log(&mut self, count: u32) -> Result<(), LineFault>
        ensures entered { (past : ItemsBefore) → self.old ≡ context_of past
            → IsLineEntered result past (items.Log count) self.new }
        ensures room { OnOk result (IsWithinCounts self.old → IsWithinCounts self.new) }
        ensures actors { OnOk result (self.new.actors ≡ self.old.actors) }
    {
        if let Err(why) = self.builder.log(count) {
            return Err(LineFault::Refused(Cause::Caps(why)));
        }
        self.given.log = true;
        self.place = Place::Describing;
        Ok(())
    }

    fn set_slots(&mut self, count: u32) -> Result<(), LineFault>
        ensures entered { (past : ItemsBefore) → self.old ≡ context_of past
            → IsLineEntered result past (items.Slots count) self.new }
        ensures room { OnOk result (IsWithinCounts self.old → IsWithinCounts self.new) }
        ensures actors { OnOk result (self.new.actors ≡ self.old.actors) }
    {
        if let Err(why) = self.builder.slots(count) {
            return Err(LineFault::Refused(Cause::Caps(why)));
        }
        self.given.slots = true;
        self.place = Place::Describing;
        Ok(())
    }

    fn add_kind(&mut self, kind: u16) -> Result<(), LineFault>
        ensures entered { (past : ItemsBefore) → self.old ≡ context_of past
            → IsLineEntered result past (items.Kind kind) self.new }
        ensures room { OnOk result (IsWithinCounts self.old → IsWithinCounts self.new) }
        ensures actors { OnOk result (self.new.actors ≡ self.old.actors) }
    {
        if let Err(why) = self.builder.kind(kind) {
            return Err(LineFault::Refused(Cause::Caps(why)));
        }
        self.place = Place::Describing;
        Ok(())
    }

    fn add_code(&mut self, kind: u16, code: u16) -> Result<(), LineFault>
        ensures entered { (past : ItemsBefore) → self.old ≡ context_of past
            → IsLineEntered result past (items.Code kind code) self.new }
        ensures room { OnOk result (IsWithinCounts self.old → IsWithinCounts self.new) }
        ensures actors { OnOk result (self.new.actors ≡ self.old.actors) }
    {
        if let Err(why) = self.builder.code(kind, code) {
            return Err(LineFault::Refused(Cause::Caps(why)));
        }
        self.place = Place::Describing;
        Ok(())
    }

    fn set_realtime(&mut self, offset: u64) -> Result<(), LineFault>
        requires { IsWithinCounts self.old }
        ensures entered { (past : ItemsBefore) → self.old ≡ context_of past
            → IsLineEntered result past (items.Realtime offset) self.new }
        ensures room { OnOk result (IsWithinCounts self.old → IsWithinCounts self.new) }
        ensures actors { OnOk result (self.new.actors ≡ self.old.actors) }
    {
        let boottime = self.given.boottime.unwrap_or(0);
        if let Err(why) = self.builder.offsets(offset, boottime) {
            return Err(LineFault::Refused(Cause::Caps(why)));
        }
        self.given.realtime = Some(offset);
        self.place = Place::Describing;
        Ok(())
    }

    fn set_boottime(&mut self, offset: u64) -> Result<(), LineFault>
        requires { IsWithinCounts self.old }
        ensures entered { (past : ItemsBefore) → self.old ≡ context_of past
            → IsLineEntered result past (items.Boottime offset) self.new }
        ensures room { OnOk result (IsWithinCounts self.old → IsWithinCounts self.new) }
        ensures actors { OnOk result (self.new.actors ≡ self.old.actors) }
    {
        let realtime = self.given.realtime.unwrap_or(0);
        if let Err(why) = self.builder.offsets(realtime, offset) {
            return Err(LineFault::Refused(Cause::Caps(why)));
        }
        self.given.boottime = Some(offset);
        self.place = Place::Describing;
        Ok(())
    }

    fn add_axis(&mut self, code: u16, info: AxisInfo) -> Result<(), LineFault>
        ensures entered { (past : ItemsBefore) → self.old ≡ context_of past
            → IsLineEntered result past (items.Axis code info) self.new }
        ensures room { OnOk result (IsWithinCounts self.old → IsWithinCounts self.new) }
        ensures actors { OnOk result (self.new.actors ≡ self.old.actors) }
    {
        if let Err(why) = self.builder.axis(code, info) {
            return Err(LineFault::Refused(Cause::Caps(why)));
        }
        if self.given.axes.push(code).is_err() {
            return Err(LineFault::NoMemory);
        }
        self.place = Place::Describing;
        Ok(())
    }

    fn add_filter(&mut self, filter: Filter) -> Result<(), LineFault>
        requires { has_micros (items.Filter filter) ≡ true }
        ensures entered { (past : ItemsBefore) → self.old ≡ context_of past
            → IsLineEntered result past (items.Filter filter) self.new }
        ensures room { OnOk result (IsWithinCounts self.old → IsWithinCounts self.new) }
        ensures actors { OnOk result (self.new.actors ≡ self.old.actors) }
    {
        if let Err(why) = add_filter(&mut self.builder, filter) {
            return Err(LineFault::Refused(Cause::Caps(why)));
        }
        self.place = Place::Describing;
        Ok(())
    }

    /// Puts the latest device after those before it, if there is one.
    fn close(&mut self) -> Result<(), NoMemory>
        ensures closed { OnOk result (self.new ≡ closed self.old) }
    {
        let builder = mem::replace(&mut self.builder, CapsBuilder::new());
        match self.name.take() {
            Some(name) => self.devices.push(DeviceText {
                name,
                caps: builder.build(),
                requested: self.requested,
            }),
            None => Ok(()),
        }
    }

    /// Begins a device, after those before it.
    fn add_device(&mut self, alloc: Global, requested: bool, name: Name) -> Result<(), LineFault>
        requires room { IsWithinCounts self.old }
        requires enough { is_too_many self.old (items.Device requested name) ≡ false }
        ensures entered { (past : ItemsBefore) → self.old ≡ context_of past
            → IsLineEntered result past (items.Device requested name) self.new }
        ensures actors { OnOk result (self.new.actors ≡ self.old.actors) }
        ensures room { OnOk result (IsWithinCounts self.new) }
    {
        if self.close().is_err() {
            return Err(LineFault::NoMemory);
        }
        self.place = Place::Describing;
        self.name = Some(name);
        self.requested = requested;
        self.given = Given::new(alloc);
        self.sources = 0;
        self.readers = 0;
        self.owners = 0;
        Ok(())
    }

    /// Adds an actor of the latest device.
    fn add_actor(&mut self, role: Role, name: Name) -> Result<(), LineFault>
        requires room { IsWithinCounts self.old }
        requires enough { is_too_many self.old (items.Actor role name) ≡ false }
        ensures entered { (past : ItemsBefore) → self.old ≡ context_of past
            → IsLineEntered result past (items.Actor role name) self.new }
        ensures actors { OnOk result (length self.new.actors ≤ length self.old.actors + 1) }
        ensures room { OnOk result (IsWithinCounts self.new) }
    {
        let actor = ActorText {
            name,
            role,
            device: self.devices.len() as u32,
        };
        if self.actors.push(actor).is_err() {
            return Err(LineFault::NoMemory);
        }
        match role {
            Role::Source => self.sources += 1,
            Role::Owner => self.owners += 1,
            _ => self.readers += 1,
        }
        self.place = Place::Naming;
        Ok(())
    }

    /// Adds an action.
    pub(crate) fn add_line(&mut self, actor: u32, command: Command) -> Result<(), LineFault>
        requires room { IsWithinCounts self.old }
        requires enough { is_too_many self.old (items.Action actor command) ≡ false }
        ensures entered { (past : ItemsBefore) → self.old ≡ context_of past
            → IsLineEntered result past (items.Action actor command) self.new }
        ensures actors { OnOk result (self.new.actors ≡ self.old.actors) }
        ensures room { OnOk result (IsWithinCounts self.new) }
    {
        let streams = streams_in(&command);
        if self.lines.push(Line { actor, command }).is_err() {
            return Err(LineFault::NoMemory);
        }
        self.streams += streams;
        self.place = Place::Acting;
        Ok(())
    }
}

impl Context {
    /// Whether a line says again what may be said once.
    pub(crate) fn is_twice(&self, item: &Item) -> bool
        ensures { result ≡ is_twice self.now item.now }
    {
        match item {
            Item::Device { name, .. } => self.has_device(name.bytes()),
            Item::Actor { name, .. } => self.has_actor(name.bytes()),
            Item::Hint { .. } => self.given.hint,
            Item::Log { .. } => self.given.log,
            Item::Realtime { .. } => self.given.realtime.is_some(),
            Item::Boottime { .. } => self.given.boottime.is_some(),
            Item::Slots { .. } => self.given.slots,
            Item::Axis { code, .. } => self.given.axes.as_slice().contains(code),
            _ => false,
        }
    }

    /// Whether a device has this name.
    fn has_device(&self, name: &[u8]) -> bool
        ensures { result ≡ is_twice self.now (items.Device false name.now) }
    {
        is_named(&self.name, name) || is_among_devices(self.devices.as_slice(), name)
    }

    /// Whether an actor has this name.
    fn has_actor(&self, name: &[u8]) -> bool
        ensures { result ≡ list_any (λ a. bytes_eq a.name name.now) self.now.actors }
    {
        for actor in self.actors.as_slice() {
            if actor.name.bytes() == name {
                return true;
            }
        }
        false
    }

    /// How many devices there are.
    fn device_count(&self) -> usize
        requires { IsWithinCounts self.now }
        ensures { result ≡ length self.now.devices + (if is_some self.now.name then 1 else 0) }
    {
        self.devices.len() + usize::from(self.name.is_some())
    }

    /// Whether a line is one more than there may be.
    pub(crate) fn is_too_many(&self, item: &Item) -> bool
        requires { IsWithinCounts self.now }
        ensures { result ≡ is_too_many self.now item.now }
    {
        match item {
            Item::Device { .. } => self.device_count() >= DEVICES_MAX,
            Item::Actor { role, .. } => self.has_all(*role),
            Item::Action { command, .. } => self.streams + streams_in(command) > STREAMS_MAX,
            _ => false,
        }
    }

    /// Whether a line has a command that actors do not have under the record's version.
    pub(crate) fn is_later_command(&self, item: &Item) -> bool
        ensures { result ≡ is_later_command self.now item.now }
    {
        match item {
            Item::Action { command, .. } => self.version == 1 && is_later(command),
            _ => false,
        }
    }

    /// Whether a line gives more slots than a device may have under the record's version.
    pub(crate) fn has_too_many_slots(&self, item: &Item) -> bool
        ensures { result ≡ has_too_many_slots self.now item.now }
    {
        match item {
            Item::Slots { count } => self.version == 1 && *count > SLOTS_OF_VERSION_1,
            _ => false,
        }
    }

    /// Whether the latest device can have no other actor of this role.
    fn has_all(&self, role: Role) -> bool
        ensures { result ≡ has_all self.now role }
    {
        match role {
            Role::Source => self.sources >= SOURCES_MAX,
            Role::Owner => self.owners >= OWNERS_MAX,
            _ => self.readers >= READERS_MAX,
        }
    }

    /// The record of what was entered. It takes memory for the list of its streams, which are empty.
    pub(crate) fn into_record(mut self, alloc: Global) -> Result<Record, NoMemory>
        requires { IsRecord (record_of_context self) }
        ensures { IfOk result (λ made. made ≡ record_of_context self) }
    {
        self.close()?;
        let streams = empty_streams(alloc, self.streams)?;
        let Context {
            version,
            devices,
            actors,
            lines,
            ..
        } = self;
        Ok(Record::new(version, devices, actors, lines, streams))
    }
}

/// Adds a filter to a description, after its others.
fn add_filter(builder: &mut CapsBuilder, filter: Filter) -> Result<(), CapsRefused>
    requires { has_micros (items.Filter filter) ≡ true }
    ensures answer { result ≡ filter_answer builder.old filter }
    ensures ok { OnOk result (builder.new ≡ with_filter builder.old filter) }
{
    match filter {
        Filter::Eat { kind, code } => builder.eat(kind, code),
        Filter::Norepeat => builder.norepeat(),
        Filter::Chord { first, second } => builder.chord(first, second),
        Filter::Bounce { code, micros } => builder.bounce(code, micros),
    }
}

/// So many empty streams.
fn empty_streams(alloc: Global, count: u32) -> Result<Streams, NoMemory>
    ensures { IfOk result (λ streams. streams ≡ replicate count []) }
{
    let mut streams = Items::new(alloc);
    for _i in 0..count {
        streams.push(Items::new(alloc))?;
    }
    Ok(streams)
}

/// Whether there is a name and it is this one.
fn is_named(name: &Option<Name>, wanted: &[u8]) -> bool
    ensures { result ≡ unwrap_or (option_map (λ name. bytes_eq name wanted.now) name.now) false }
{
    match name {
        Some(name) => name.bytes() == wanted,
        None => false,
    }
}

/// Whether one of these devices has this name.
fn is_among_devices(devices: &[DeviceText], name: &[u8]) -> bool
    ensures { result ≡ list_any (λ d. bytes_eq d.name name.now) devices.now }
{
    for device in devices {
        if device.name.bytes() == name {
            return true;
        }
    }
    false
}

/// How many streams a command takes.
fn streams_in(command: &Command) -> u32
    ensures value { result ≡ streams_in command.now }
    ensures one { result ≤ 1 }
{
    match command {
        Command::Stream { .. } | Command::Stream16 { .. } => 1,
        _ => 0,
    }
}

/// Whether actors have the command from version 2 on.
fn is_later(command: &Command) -> bool
    ensures { result ≡ is_later command.now }
{
    match command {
        Command::Stream16 { .. } => true,
        _ => false,
    }
}

impl Given {
    /// Nothing.
    fn new(alloc: Global) -> Given
        ensures { result ≡ no_given }
    {
        Given {
            hint: false,
            log: false,
            slots: false,
            realtime: None,
            boottime: None,
            axes: Items::new(alloc),
        }
    }
}
