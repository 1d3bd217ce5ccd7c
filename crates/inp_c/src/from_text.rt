//! Devices and records made of a text, for C.
ghost use Rattle.std.specs.Prelude.{◌≡◌, ◌≢◌, ◌⊎◌, ◌≤◌, length, IfOk, Some};
ghost use Rattle.inp_c.specs.Contents.{contents};
ghost use Rattle.inp_c.specs.FromText.{IsMakingAnswer, IsDeviceMade, IsDeviceKept, IsFreshKept, LacksDevice, IsRecordMade, IsRecordKept};

use crate::handle::Handle;
use crate::kept::Kept;
use crate::kept_device::KeptDevice;
use crate::kept_record::KeptRecord;
use crate::record_text::read_text;
use crate::status::{BAD_ARGUMENT, IN_USE, NO_MEMORY, OK};
use inp_caps::Caps;
use inp_model::NoMemory;
use inp_record::Record;
use std::alloc::Global;

/// Makes the device of this number in a record's text.
#[unsafe(no_mangle)]
pub extern "C" fn inputplay_device_new(
    alloc: Global,
    text: &[u8],
    number: u32,
    handle: &mut Handle,
    line: &mut u32,
    cause: &mut u32,
) -> u32
    ensures answer { IsMakingAnswer (contents handle.old) text.now result line.new cause.new }
    ensures made { result ≡ OK → IsDeviceMade text.now number (contents handle.new) }
    ensures no_device { result ≡ BAD_ARGUMENT → LacksDevice text.now number }
    ensures not_made { result ≢ OK → contents handle.new ≡ contents handle.old }
{
    *line = 0;
    *cause = 0;
    if !handle.is_none() {
        return IN_USE;
    }
    match read_text(alloc, text, line, cause) {
        Ok(recorded) => keep_device(alloc, &recorded, number, handle),
        Err(status) => status,
    }
}

/// Keeps the device of this number in a handle that keeps nothing.
fn keep_device(alloc: Global, recorded: &Record, number: u32, handle: &mut Handle) -> u32
    ensures status { (result ≡ OK) ⊎ (result ≡ BAD_ARGUMENT) ⊎ (result ≡ NO_MEMORY) }
    ensures past_end { result ≡ BAD_ARGUMENT → length recorded.now.devices ≤ number }
    ensures made { result ≡ OK → IsDeviceKept recorded.now number (contents handle.new) }
    ensures not_made { result ≢ OK → contents handle.new ≡ contents handle.old }
{
    if number as usize >= recorded.devices().len() {
        return BAD_ARGUMENT;
    }
    match boxed_device(alloc, &recorded.devices().get(number as usize).caps) {
        Ok(kept) => {
            *handle = Handle::of(kept);
            OK
        }
        Err(NoMemory) => NO_MEMORY,
    }
}

/// A device of this description, in a box.
pub(crate) fn boxed_device(alloc: Global, caps: &Caps) -> Result<Box<Kept>, NoMemory>
    ensures { IfOk result (λ kept. IsFreshKept caps.now kept.value) }
{
    let device = KeptDevice::new(alloc, caps)?;
    boxed(alloc, Kept::Device(device))
}

/// What is to be kept, in a box.
fn boxed(alloc: Global, kept: Kept) -> Result<Box<Kept>, NoMemory>
    ensures { IfOk result (λ boxed. boxed.value ≡ kept) }
{
    match Box::new(alloc, kept) {
        Ok(boxed) => Ok(boxed),
        Err(_) => Err(NoMemory),
    }
}

/// Makes a record of its text. Its streams have no events until their bytes are given.
#[unsafe(no_mangle)]
pub extern "C" fn inputplay_record_new(
    alloc: Global,
    text: &[u8],
    handle: &mut Handle,
    line: &mut u32,
    cause: &mut u32,
) -> u32
    ensures answer { IsMakingAnswer (contents handle.old) text.now result line.new cause.new }
    ensures made { result ≡ OK → IsRecordMade text.now (contents handle.new) }
    ensures no_number { result ≢ BAD_ARGUMENT }
    ensures not_made { result ≢ OK → contents handle.new ≡ contents handle.old }
{
    *line = 0;
    *cause = 0;
    if !handle.is_none() {
        return IN_USE;
    }
    match read_text(alloc, text, line, cause) {
        Ok(recorded) => keep_record(alloc, recorded, handle),
        Err(status) => status,
    }
}

/// Keeps a record in a handle that keeps nothing.
fn keep_record(alloc: Global, recorded: Record, handle: &mut Handle) -> u32
    ensures status { (result ≡ OK) ⊎ (result ≡ NO_MEMORY) }
    ensures made { result ≡ OK → IsRecordKept recorded (contents handle.new) }
    ensures not_made { result ≢ OK → contents handle.new ≡ contents handle.old }
{
    match boxed_record(alloc, recorded) {
        Ok(kept) => {
            *handle = Handle::of(kept);
            OK
        }
        Err(NoMemory) => NO_MEMORY,
    }
}

/// A record none of whose streams has its bytes, and of which no text was made, in a box.
fn boxed_record(alloc: Global, recorded: Record) -> Result<Box<Kept>, NoMemory>
    ensures { IfOk result (λ kept. IsRecordKept recorded (Some kept.value)) }
{
    let loaded = vec![in alloc; false; recorded.stream_count()]?;
    let text = Vec::new(alloc);
    let record = KeptRecord {
        recorded,
        loaded,
        text,
    };
    boxed(alloc, Kept::Record(record))
}
