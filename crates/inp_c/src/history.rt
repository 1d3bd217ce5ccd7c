//! The history of a device, for C.
ghost use Rattle.std.specs.Prelude.{◌≡◌, ◌≢◌, ◌≤◌, length, map, Some};
ghost use Rattle.inp_model.specs.Reply.{written};
ghost use Rattle.inp_c.specs.Contents.{contents};
ghost use Rattle.inp_c.specs.History.{history_status, IsToldHistory};
ghost use Rattle.inp_c.specs.ToldStep.{told_step};

use crate::c_step::CStep;
use crate::handle::Handle;
use crate::kept::Kept;
use crate::status::{BAD_ARGUMENT, BAD_HANDLE, OK};
use crate::step_told::c_step;
use inp_model::Step;
use std::alloc::Global;

/// Copies the accepted steps of a device from a place on, as many as fit. It tells how many there are from there
/// on.
#[unsafe(no_mangle)]
pub extern "C" fn inputplay_history(
    alloc: Global,
    handle: &mut Handle,
    from: usize,
    steps: &mut [CStep],
    left: &mut usize,
) -> u32
    ensures status { result ≡ history_status (contents handle.old) from }
    ensures told { result ≡ OK
        → IsToldHistory (contents handle.old) from steps.old steps.new left.new }
    ensures not_told { result ≢ OK → (steps.new ≡ steps.old) × (left.new ≡ left.old) }
    ensures handle { contents handle.new ≡ contents handle.old }
{
    if handle.is_none() {
        return BAD_HANDLE;
    }
    let kept = handle.take(alloc);
    let status = history_in(&kept, from, steps, left);
    *handle = Handle::of(kept);
    status
}

/// Copies the accepted steps of what is kept, if it is a device.
fn history_in(kept: &Kept, from: usize, steps: &mut [CStep], left: &mut usize) -> u32
    ensures status { result ≡ history_status (Some kept.now) from }
    ensures told { result ≡ OK
        → IsToldHistory (Some kept.now) from steps.old steps.new left.new }
    ensures not_told { result ≢ OK → (steps.new ≡ steps.old) × (left.new ≡ left.old) }
{
    let Kept::Device(device) = kept else {
        return BAD_HANDLE;
    };
    let history = device.history();
    if from > history.len() {
        return BAD_ARGUMENT;
    }
    let rest = &history[from..];
    let count = steps.len().min(rest.len());
    *left = rest.len();
    copy_steps(&rest[..count], steps);
    OK
}

/// Copies steps to the front of C's array.
fn copy_steps(made: &[Step], steps: &mut [CStep])
    requires { length made.now ≤ length steps.old }
    ensures { steps.new ≡ written (map told_step made.now) steps.old }
{
    for at in 0..made.len() {
        steps[at] = c_step(made[at]);
    }
}
