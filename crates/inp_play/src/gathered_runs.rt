//! The results of devices, gathered actor by actor.
ghost use Rattle.std.specs.Prelude.{◌≡◌, ◌<◌, length, map, OnOk, IfOk};
ghost use Rattle.inp_play.specs.GatheredRuns.{first_ends, HasEndMore};

use inp_model::{Items, NoMemory};
use inp_script::{DeviceEnds, Ended};
use inp_uinput::Owned;
use std::alloc::Global;

// The histories of devices that no actor works on any more, as yet without the results of actors.
pub(crate) fn histories(alloc: Global, devices: Vec<Owned>) -> Result<Vec<DeviceEnds>, NoMemory>
    ensures { IfOk result (λ gathered. gathered.items ≡ map first_ends devices.items) }
{
    let mut gathered = Vec::new(alloc);
    for device in devices {
        gathered.push(DeviceEnds {
            history: device.into_history(),
            ends: Items::new(alloc),
        })?;
    }
    Ok(gathered)
}

// Adds the result of an actor at the end of those of the device of this number.
pub(crate) fn push_end(
    gathered: &mut Vec<DeviceEnds>,
    device: usize,
    end: Ended,
) -> Result<(), NoMemory>
    requires { device < length gathered.old.items }
    ensures { OnOk result (HasEndMore gathered.old.items gathered.new.items device end) }
{
    gathered[device].ends.push(end)?;
    Ok(())
}
