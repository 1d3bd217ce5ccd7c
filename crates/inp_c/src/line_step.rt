//! The step that a line of a record makes.
ghost use Rattle.std.specs.Prelude.{◌≡◌};
ghost use Rattle.inp_c.specs.Lines.{step_of_command};

use crate::c_step::CStep;
use crate::step_told::{c_step, step_by};
use inp_actors::Command;
use inp_script::step_of;

/// The number that C is told in place of a step's where a command makes none, or more than one. No step has it.
pub(crate) const NO_STEP: u32 = u32::MAX;

const _: () = prove!(NO_STEP == 4_294_967_295);

/// The step that a command makes, as C has it. Its client is 0.
pub(crate) fn step_of_command(command: &Command) -> CStep
    ensures { result ≡ step_of_command command.now }
{
    match step_of(0, command) {
        Some(step) => c_step(step),
        None => step_by(NO_STEP, 0),
    }
}
