//! Devices made of a struct, for C.
ghost use Rattle.std.specs.Prelude.{◌≡◌, ◌≢◌, ◌⊎◌, IsSomeAnd};
ghost use Rattle.inp_c.specs.Contents.{contents};
ghost use Rattle.inp_c.specs.FromStruct.{struct_status, struct_cause, IsStructKept};
ghost use Rattle.inp_c.specs.FromText.{IsFreshKept};

use crate::c_description::{CDescription, description_of};
use crate::cause::caps_number;
use crate::from_text::boxed_device;
use crate::handle::Handle;
use crate::status::{IN_USE, NO_MEMORY, OK, REFUSED};
use inp_caps::Caps;
use inp_model::NoMemory;
use std::alloc::Global;

/// Makes the device that a struct describes.
#[unsafe(no_mangle)]
pub extern "C" fn inputplay_device_of(
    alloc: Global,
    description: &CDescription,
    handle: &mut Handle,
    cause: &mut u32,
) -> u32
    ensures status { result ≢ NO_MEMORY
        → result ≡ struct_status (contents handle.old) description.now }
    ensures no_memory { result ≡ NO_MEMORY
        → struct_status (contents handle.old) description.now ≡ OK }
    ensures cause { cause.new ≡ struct_cause (contents handle.old) description.now }
    ensures made { result ≡ OK → IsStructKept description.now (contents handle.new) }
    ensures not_made { result ≢ OK → contents handle.new ≡ contents handle.old }
{
    *cause = 0;
    if !handle.is_none() {
        return IN_USE;
    }
    match description_of(description) {
        Ok(caps) => keep_described(alloc, &caps, handle),
        Err(why) => {
            *cause = caps_number(why);
            REFUSED
        }
    }
}

/// Keeps a device of this description in a handle that keeps nothing.
fn keep_described(alloc: Global, caps: &Caps, handle: &mut Handle) -> u32
    ensures status { (result ≡ OK) ⊎ (result ≡ NO_MEMORY) }
    ensures made { result ≡ OK → IsSomeAnd (contents handle.new) (IsFreshKept caps.now) }
    ensures not_made { result ≢ OK → contents handle.new ≡ contents handle.old }
{
    match boxed_device(alloc, caps) {
        Ok(kept) => {
            *handle = Handle::of(kept);
            OK
        }
        Err(NoMemory) => NO_MEMORY,
    }
}
