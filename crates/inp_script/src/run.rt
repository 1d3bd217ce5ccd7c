//! The result of a device and of its jobs.
ghost use Rattle.std.specs.Prelude.{◌≡◌, ◌++◌, ◌∷◌, [], OnOk, IfOk};
ghost use Rattle.inp_script.specs.Ended.{jobs_among, joys_among, owners_among, played_of};

use crate::{Ended, JobEnd, JoyEnd, OwnerEnd};
use inp_model::{History, Items, NoMemory};
use std::alloc::Global;

/// The results of the jobs of a device but joysticks' and owners', in the order of their actors.
pub type Jobs = Items<JobEnd>;

/// The result of one device.
#[derive(Drop)]
pub struct Run {
    /// The steps that the device accepted, taken out of it.
    pub history: History,
    /// The results of its jobs.
    pub jobs: Jobs,
}

/// The results of the devices, in the order of the record.
pub type Runs = Items<Run>;

/// The results of joysticks, in the order of the record.
pub type JoyRuns = Items<JoyEnd>;

/// The results of owners, in the order of the record.
pub type OwnerRuns = Items<OwnerEnd>;

/// The result of one device and of all its actors.
#[derive(Drop)]
pub struct DeviceEnds {
    /// The steps that the device accepted, taken out of it.
    pub history: History,
    /// The results of its actors, in their order.
    pub ends: Items<Ended>,
}

/// The result of a record.
#[derive(Drop)]
pub struct Played {
    /// The result of each device, and of its jobs but joysticks' and owners'.
    pub runs: Runs,
    /// The results of the joysticks.
    pub joys: JoyRuns,
    /// The results of the owners.
    pub owners: OwnerRuns,
}

impl Played {
    /// The result of a record, by the results of its devices, in their order. `NoMemory` comes where memory is short
    /// for the lists.
    pub fn of(alloc: Global, devices: Vec<DeviceEnds>) -> Result<Played, NoMemory>
        ensures played { IfOk result (λ played. played ≡ played_of devices.items) }
    {
        let mut runs = Runs::new(alloc);
        let mut joys = JoyRuns::new(alloc);
        let mut owners = OwnerRuns::new(alloc);
        for device in devices {
            let DeviceEnds { history, ends } = device;
            let jobs = sort_ends(alloc, ends, &mut joys, &mut owners)?;
            runs.push(Run { history, jobs })?;
        }
        Ok(Played { runs, joys, owners })
    }
}

// The jobs among the results of a device's actors. The joysticks and the owners among them come after those of other
// devices.
fn sort_ends(
    alloc: Global,
    ends: Items<Ended>,
    joys: &mut JoyRuns,
    owners: &mut OwnerRuns,
) -> Result<Jobs, NoMemory>
    ensures jobs { IfOk result (λ jobs. jobs ≡ jobs_among ends) }
    ensures joys { IfOk result (λ _. joys.new ≡ joys.old ++ joys_among ends) }
    ensures owners { IfOk result (λ _. owners.new ≡ owners.old ++ owners_among ends) }
{
    let mut jobs = Jobs::new(alloc);
    for ended in ends.into_vec() {
        push_end(&mut jobs, joys, owners, ended)?;
    }
    Ok(jobs)
}

// Adds the result of an actor to the jobs, to those of joysticks, or to the owners.
fn push_end(
    jobs: &mut Jobs,
    joys: &mut JoyRuns,
    owners: &mut OwnerRuns,
    ended: Ended,
) -> Result<(), NoMemory>
    ensures jobs { OnOk result (jobs.new ≡ jobs.old ++ jobs_among (ended ∷ [])) }
    ensures joys { OnOk result (joys.new ≡ joys.old ++ joys_among (ended ∷ [])) }
    ensures owners { OnOk result (owners.new ≡ owners.old ++ owners_among (ended ∷ [])) }
{
    match ended {
        Ended::Job { end } => jobs.push(end),
        Ended::Joy { end } => joys.push(end),
        Ended::Owner { end } => owners.push(end),
    }
}
