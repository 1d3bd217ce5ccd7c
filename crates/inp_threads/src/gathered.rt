//! What the workers of a device leave.
ghost use Rattle.std.specs.Prelude.{◌≡◌, ◌≤◌, ◌<◌, ◌++◌, ◌∷◌, ◌&&◌, [], vec_len, vec_capacity, All, true};
ghost use Rattle.inp_turn.specs.Pass.{view_of};
ghost use Rattle.inp_port.specs.Port.{IsReadyAt};
ghost use Rattle.inp_threads.specs.Joined.{IsBack, AreJoined, AreWorkersDone, IsSizedWorker, AreSized, ends_of_workers};

use crate::worker::Worker;
use inp_script::Ended;
use inp_turn::Pass;
use inp_uinput::{UPort, Udev};

/// What the workers of a device left.
pub(crate) struct Gathered {
    /// All passes, joined into one.
    pub(crate) pass: Pass<Udev>,
    /// The results of their actors.
    pub(crate) ends: Vec<Ended>,
    /// Whether each of them did all its lines.
    pub(crate) is_done: bool,
}

// Joins the passes of all workers, and finishes their actors. There is room for their results, so it takes no memory.
pub(crate) fn join_workers(
    port: &UPort,
    pass: Pass<Udev>,
    workers: Vec<Worker>,
    ends: Vec<Ended>,
) -> Gathered
    requires ready { IsReadyAt port.now pass }
    requires back { All (IsBack port.now) workers.items }
    requires none { ends.items ≡ [] }
    requires room { vec_len workers ≤ vec_capacity ends }
    ensures ready { IsReadyAt port.now result.pass }
    ensures joined { AreJoined workers.items (view_of pass) (view_of result.pass) }
    ensures ends { result.ends.items ≡ ends_of_workers workers.items }
    ensures sized { AreSized workers.items }
    ensures done { result.is_done ≡ true → AreWorkersDone workers.items }
{
    let mut gathered = Gathered {
        pass,
        ends,
        is_done: true,
    };
    for worker in workers {
        gathered = add(port, gathered, worker);
    }
    gathered
}

// The same with one worker more.
fn add(port: &UPort, gathered: Gathered, worker: Worker) -> Gathered
    requires ready { IsReadyAt port.now gathered.pass }
    requires back { IsBack port.now worker }
    requires room { vec_len gathered.ends < vec_capacity gathered.ends }
    ensures ready { IsReadyAt port.now result.pass }
    ensures joined { AreJoined (worker ∷ []) (view_of gathered.pass) (view_of result.pass) }
    ensures ends { result.ends.items ≡ gathered.ends.items ++ ends_of_workers (worker ∷ []) }
    ensures capacity { vec_capacity result.ends ≡ vec_capacity gathered.ends }
    ensures sized { IsSizedWorker worker }
    ensures done { result.is_done ≡ (gathered.is_done && worker.is_done) }
{
    let Gathered {
        pass,
        mut ends,
        is_done,
    } = gathered;
    let Worker {
        actor,
        number: _,
        pass: own,
        is_done: was_done,
    } = worker;
    let pass = match own {
        Some(own) => port.join(pass, own),
        None => pass,
    };
    ends.push_reserved(actor.finish());
    Gathered {
        pass,
        ends,
        is_done: is_done && was_done,
    }
}
