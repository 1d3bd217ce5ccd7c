//! The joystick client of a device, for C.
ghost use Rattle.std.specs.Prelude.{◌≡◌, ◌≢◌, Some};
ghost use Rattle.inp_c.specs.Contents.{contents};
ghost use Rattle.inp_c.specs.Status.{device_status};
ghost use Rattle.inp_c.specs.Joystick.{IsToldJoyStart, IsToldJoyRead, IsJoyPicture, joy_number, joy_place};

use crate::c_picture::{CPicture, c_picture};
use crate::handle::Handle;
use crate::kept::Kept;
use crate::reader::start_refusal;
use crate::status::{BAD_HANDLE, OK};
use inp_joy::JoyRead;
use std::alloc::Global;

/// Opens a client of the device for its joystick client and asks for the whole state. It tells the client, and why a
/// call was refused, or 0.
#[unsafe(no_mangle)]
pub extern "C" fn inputplay_joy_start(
    alloc: Global,
    handle: &mut Handle,
    client: &mut u32,
    why: &mut u32,
) -> u32
    ensures status { result ≡ device_status (contents handle.old) }
    ensures made { result ≡ OK
        → IsToldJoyStart (contents handle.old) (contents handle.new) client.new why.new }
    ensures not_made { result ≢ OK → contents handle.new ≡ contents handle.old }
    ensures not_told { result ≢ OK → (client.new ≡ client.old) × (why.new ≡ why.old) }
{
    if handle.is_none() {
        return BAD_HANDLE;
    }
    let mut kept = handle.take(alloc);
    let status = joy_start_in(&mut kept, client, why);
    *handle = Handle::of(kept);
    status
}

/// Starts the joystick client of what is kept, if it is a device.
fn joy_start_in(kept: &mut Kept, client: &mut u32, why: &mut u32) -> u32
    ensures status { result ≡ device_status (Some kept.old) }
    ensures made { result ≡ OK
        → IsToldJoyStart (Some kept.old) (Some kept.new) client.new why.new }
    ensures not_made { result ≢ OK → kept.new ≡ kept.old }
    ensures not_told { result ≢ OK → (client.new ≡ client.old) × (why.new ≡ why.old) }
{
    let Kept::Device(device) = kept else {
        return BAD_HANDLE;
    };
    let started = device.joy_start();
    *client = device.joy.client();
    *why = start_refusal(started);
    OK
}

/// The next record or answer of the device's joystick client: `told` says which answer it is.
#[unsafe(no_mangle)]
pub extern "C" fn inputplay_joy_read(
    alloc: Global,
    handle: &mut Handle,
    record_out: &mut [u8; 8],
    told: &mut u32,
    place: &mut u32,
) -> u32
    ensures status { result ≡ device_status (contents handle.old) }
    ensures made { result ≡ OK → IsToldJoyRead (contents handle.old) (contents handle.new)
        record_out.old record_out.new told.new place.new }
    ensures not_made { result ≢ OK → contents handle.new ≡ contents handle.old }
    ensures not_told { result ≢ OK → (told.new ≡ told.old) × (place.new ≡ place.old) }
    ensures no_record { result ≢ OK → record_out.new ≡ record_out.old }
{
    if handle.is_none() {
        return BAD_HANDLE;
    }
    let mut kept = handle.take(alloc);
    let status = joy_read_in(&mut kept, record_out, told, place);
    *handle = Handle::of(kept);
    status
}

/// The next record or answer of the joystick client of what is kept, if it is a device.
fn joy_read_in(kept: &mut Kept, record_out: &mut [u8; 8], told: &mut u32, place: &mut u32) -> u32
    ensures status { result ≡ device_status (Some kept.old) }
    ensures made { result ≡ OK → IsToldJoyRead (Some kept.old) (Some kept.new)
        record_out.old record_out.new told.new place.new }
    ensures not_made { result ≢ OK → kept.new ≡ kept.old }
    ensures not_told { result ≢ OK → (told.new ≡ told.old) × (place.new ≡ place.old) }
    ensures no_record { result ≢ OK → record_out.new ≡ record_out.old }
{
    let Kept::Device(device) = kept else {
        return BAD_HANDLE;
    };
    let read = device.joy_read(record_out);
    *told = joy_number(read);
    *place = joy_place(read);
    OK
}

/// The number of an answer.
fn joy_number(read: JoyRead) -> u32
    ensures { result ≡ joy_number read }
{
    match read {
        JoyRead::Record => 0,
        JoyRead::Frame { .. } => 1,
        JoyRead::Again { .. } => 2,
        JoyRead::NoDevice => 3,
        JoyRead::Closed => 4,
        JoyRead::Full { .. } => 5,
        JoyRead::More => 6,
    }
}

/// The place of the step that ended a frame, or 0.
fn joy_place(read: JoyRead) -> u32
    ensures { result ≡ joy_place read }
{
    match read {
        JoyRead::Frame { place } => place,
        _ => 0,
    }
}

/// How the buttons and axes stand, as the records of the device's joystick client tell.
#[unsafe(no_mangle)]
pub extern "C" fn inputplay_joy_picture(
    alloc: Global,
    handle: &mut Handle,
    picture: &mut CPicture,
) -> u32
    ensures status { result ≡ device_status (contents handle.old) }
    ensures picture { result ≡ OK → IsJoyPicture (contents handle.old) picture.new }
    ensures not_told { result ≢ OK → picture.new ≡ picture.old }
    ensures handle { contents handle.new ≡ contents handle.old }
{
    if handle.is_none() {
        return BAD_HANDLE;
    }
    let kept = handle.take(alloc);
    let status = picture_in(&kept, picture);
    *handle = Handle::of(kept);
    status
}

/// The picture of the joystick client of what is kept, if it is a device.
fn picture_in(kept: &Kept, picture: &mut CPicture) -> u32
    ensures status { result ≡ device_status (Some kept.now) }
    ensures picture { result ≡ OK → IsJoyPicture (Some kept.now) picture.new }
    ensures not_told { result ≢ OK → picture.new ≡ picture.old }
{
    let Kept::Device(device) = kept else {
        return BAD_HANDLE;
    };
    *picture = c_picture(*device.joy.picture());
    OK
}
