//! A record.
ghost use Rattle.std.specs.Prelude.{◌≡◌, ◌<◌, ◌≤◌, length, slice_get, slice_set, Some};
ghost use Rattle.inp_model.specs.declared.stamped.TheConstants.{MOMENT_MAX};
ghost use Rattle.inp_actors.specs.Record.{IsRecord};
ghost use Rattle.inp_model.specs.Injection.{AreInTime};

use crate::{Actors, Devices, Lines};
use inp_model::{Items, Stamped};
use std::alloc::Global;
use std::marker::Model;

/// The greatest version of a record's text (this project's choice).
pub const VERSION_MAX: u32 = 2;

const _: () = prove!(VERSION_MAX == 1 + 1);

/// The events of a file, each with its moment.
pub type Stamps = Items<Stamped>;

/// The streams of a record, one for each stream command, in line order.
pub type Streams = Items<Stamps>;

/// A recorded device file. It keeps that its version is 1 or 2, that its indices are in range, and that it has at most
/// [`ACTORS_MAX`](crate::ACTORS_MAX) actors. An owner's device is made by requests and has no other owner. Each line's
/// command is one that its actor's role has, each number is one that a line may have, and there is one stream for each
/// stream command.
///
/// Contracts see it as its version and its four lists.
#[derive(Drop)]
pub struct Record {
    version: u32,
    devices: Devices,
    actors: Actors,
    lines: Lines,
    streams: Vec<Stamps>,
}

impl Model for Record {
    ghost use Rattle.inp_actors.specs.Record.{RecordView};

    ghost Value = { RecordView };

    ghost use Rattle.inp_actors.specs.Kept.{record_view, IsKeptRecord};

    ghost view = { record_view };

    ghost invariant = { IsKeptRecord };
}

impl Record {
    /// The record of this version with these lists. It takes no memory.
    pub fn new(
        version: u32,
        devices: Devices,
        actors: Actors,
        lines: Lines,
        streams: Streams,
    ) -> Record
        requires record { IsRecord (record {
          version = version;
          devices = devices;
          actors = actors;
          lines = lines;
          streams = streams;
        }) }
        ensures version { result.version ≡ version }
        ensures devices { result.devices ≡ devices }
        ensures actors { result.actors ≡ actors }
        ensures lines { result.lines ≡ lines }
        ensures streams { result.streams ≡ streams }
    {
        Record {
            version,
            devices,
            actors,
            lines,
            streams: streams.into_vec(),
        }
    }

    /// The version of its text, 1 or 2.
    pub fn version(&self) -> u32
        ensures version { result ≡ self.now.version }
        ensures range { (1 ≤ result) × (result ≤ VERSION_MAX) }
    {
        self.version
    }

    /// Its devices, in file order.
    pub fn devices(&self) -> &Devices
        ensures devices { result.now ≡ self.now.devices }
        ensures record { IsRecord self.now }
    {
        &self.devices
    }

    /// Its actors, in file order.
    pub fn actors(&self) -> &Actors
        ensures actors { result.now ≡ self.now.actors }
        ensures record { IsRecord self.now }
    {
        &self.actors
    }

    /// Its action lines, in file order.
    pub fn lines(&self) -> &Lines
        ensures lines { result.now ≡ self.now.lines }
        ensures record { IsRecord self.now }
    {
        &self.lines
    }

    /// How many streams it has: one for each stream command.
    pub fn stream_count(&self) -> usize
        ensures count { result ≡ length self.now.streams }
        ensures record { IsRecord self.now }
    {
        self.streams.len()
    }

    /// The events of the stream of this number.
    pub fn stream(&self, index: usize) -> &Stamps
        requires within { index < length self.now.streams }
        ensures stream { slice_get self.now.streams index ≡ Some result.now }
        ensures record { IsRecord self.now }
    {
        &self.streams[index]
    }

    /// The allocator of its streams.
    pub fn allocator(&self) -> Global {
        *self.streams.allocator()
    }

    /// Makes this the version of its text, 1 or 2. All else of the record stays, also what only the other version can
    /// say. It takes no memory.
    pub fn set_version(&mut self, version: u32)
        requires range { (1 ≤ version) × (version ≤ VERSION_MAX) }
        ensures version { self.new ≡ record self.old { version = version } }
    {
        self.version = version;
    }

    /// Makes these the events of the stream of this number. All else of the record stays. It takes no memory.
    pub fn set_stream(&mut self, index: usize, stamps: Stamps)
        requires within { index < length self.old.streams }
        requires in_time { AreInTime stamps }
        ensures streams { self.new.streams ≡ slice_set self.old.streams index stamps }
        ensures version { self.new.version ≡ self.old.version }
        ensures devices { self.new.devices ≡ self.old.devices }
        ensures actors { self.new.actors ≡ self.old.actors }
        ensures lines { self.new.lines ≡ self.old.lines }
    {
        self.streams[index] = stamps;
    }
}
