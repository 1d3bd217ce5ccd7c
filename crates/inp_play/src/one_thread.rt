//! Playing a record on one thread.
ghost use Rattle.std.specs.Prelude.{IfOk, None};
ghost use Rattle.inp_runs.specs.Job.{ArePromised};
ghost use Rattle.inp_runs.specs.Play.{IsPlay};

use crate::player::Player;
use inp_actors::Record;
use inp_model::NoMemory;
use inp_script::Played;
use std::alloc::Global;

/// Does the lines of a record in file order, each by its actor on its device, and gives the results of the devices, of
/// the joysticks and of the owners.
///
/// It takes the memory of each device's history and feedback calls, of the actors, and of what they see. `NoMemory`
/// comes where memory is short, and nothing is given then.
pub fn play(alloc: Global, rec: &Record) -> Result<Played, NoMemory>
    ensures played { IfOk result (IsPlay rec.now) }
    ensures promised { IfOk result (ArePromised None rec.now) }
{
    let mut player = Player::new(alloc, rec)?;
    let count = rec.lines().len() as u32;
    let mut line = 0;
    while line < count {
        line += player.lines(rec, line)?;
    }
    player.finish(alloc, rec)
}
