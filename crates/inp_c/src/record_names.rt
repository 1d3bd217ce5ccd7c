//! The devices and the actors of a record, for C.
ghost use Rattle.std.specs.Prelude.{◌≡◌, ◌≢◌, Some};
ghost use Rattle.inp_c.specs.Contents.{contents};
ghost use Rattle.inp_c.specs.RecordNames.{device_number_status, IsToldDevice, role_number, actor_status, IsToldActor};

use crate::bytes::copy_bytes;
use crate::handle::Handle;
use crate::kept::Kept;
use crate::status::{BAD_ARGUMENT, BAD_HANDLE, OK};
use inp_actors::Role;
use std::alloc::Global;

/// Copies the name of a record's device of this number, from 0, as many bytes as fit, and tells how many it has.
#[unsafe(no_mangle)]
pub extern "C" fn inputplay_record_device(
    alloc: Global,
    handle: &mut Handle,
    device: u32,
    out: &mut [u8],
    len: &mut usize,
) -> u32
    ensures status { result ≡ device_number_status (contents handle.old) device }
    ensures told { result ≡ OK
        → IsToldDevice (contents handle.old) device out.old out.new len.new }
    ensures not_told { result ≢ OK → (out.new ≡ out.old) × (len.new ≡ len.old) }
    ensures handle { contents handle.new ≡ contents handle.old }
{
    if handle.is_none() {
        return BAD_HANDLE;
    }
    let kept = handle.take(alloc);
    let status = device_in(&kept, device, out, len);
    *handle = Handle::of(kept);
    status
}

/// Copies the name of a device of what is kept, if it is a record.
fn device_in(kept: &Kept, device: u32, out: &mut [u8], len: &mut usize) -> u32
    ensures status { result ≡ device_number_status (Some kept.now) device }
    ensures told { result ≡ OK → IsToldDevice (Some kept.now) device out.old out.new len.new }
    ensures not_told { result ≢ OK → (out.new ≡ out.old) × (len.new ≡ len.old) }
{
    let Kept::Record(record) = kept else {
        return BAD_HANDLE;
    };
    let devices = record.recorded.devices();
    if device as usize >= devices.len() {
        return BAD_ARGUMENT;
    }
    let name = devices.get(device as usize).name.bytes();
    *len = name.len();
    copy_bytes(name, out);
    OK
}

/// Tells the role of a record's actor of this number, from 0, and the number of its device. It copies the actor's name
/// as that of a device is copied.
#[unsafe(no_mangle)]
pub extern "C" fn inputplay_record_actor(
    alloc: Global,
    handle: &mut Handle,
    actor: u32,
    role: &mut u32,
    device: &mut u32,
    out: &mut [u8],
    len: &mut usize,
) -> u32
    ensures status { result ≡ actor_status (contents handle.old) actor }
    ensures told { result ≡ OK → IsToldActor (contents handle.old) actor
        role.new device.new out.old out.new len.new }
    ensures not_told { result ≢ OK → (role.new ≡ role.old) × (device.new ≡ device.old) }
    ensures not_named { result ≢ OK → (out.new ≡ out.old) × (len.new ≡ len.old) }
    ensures handle { contents handle.new ≡ contents handle.old }
{
    if handle.is_none() {
        return BAD_HANDLE;
    }
    let kept = handle.take(alloc);
    let status = actor_in(&kept, actor, role, device, out, len);
    *handle = Handle::of(kept);
    status
}

/// Tells of an actor of what is kept, if it is a record.
fn actor_in(
    kept: &Kept,
    actor: u32,
    role: &mut u32,
    device: &mut u32,
    out: &mut [u8],
    len: &mut usize,
) -> u32
    ensures status { result ≡ actor_status (Some kept.now) actor }
    ensures told { result ≡ OK → IsToldActor (Some kept.now) actor
        role.new device.new out.old out.new len.new }
    ensures not_told { result ≢ OK → (role.new ≡ role.old) × (device.new ≡ device.old) }
    ensures not_named { result ≢ OK → (out.new ≡ out.old) × (len.new ≡ len.old) }
{
    let Kept::Record(record) = kept else {
        return BAD_HANDLE;
    };
    let actors = record.recorded.actors();
    if actor as usize >= actors.len() {
        return BAD_ARGUMENT;
    }
    let found = actors.get(actor as usize);
    let name = found.name.bytes();
    *role = role_number(found.role);
    *device = found.device;
    *len = name.len();
    copy_bytes(name, out);
    OK
}

/// The number of a role.
fn role_number(role: Role) -> u32
    ensures { result ≡ role_number role }
{
    match role {
        Role::Source => 0,
        Role::Client => 1,
        Role::Tap => 2,
        Role::Joy => 3,
        Role::Owner => 4,
    }
}
