//! How many events a device keeps for all its clients together, after histories worked out by hand. What each client
//! reads there is shown by the records of `tests/records`.

use crate::common::{REPORT, X, gamepad};
use inp_device::Device;
use inp_model::{Clock, EV_ABS, EV_KEY, Event, KEY_A, MOMENT_MAX, Reply, SLOT_VALUES, Step, Taken};
use std::process::Abort;
use std::test::Fail;

/// What stands in a buffer before anything is read.
const NO_EVENT: Taken = Taken {
    event: REPORT,
    time: 0,
    place: 0,
};

/// Makes a step, where the caller's buffers have room for what it gives.
fn make(
    rt: &impl Abort,
    device: &mut Device,
    step: Step,
    out: &mut [Taken],
    cells: &mut [i32],
) -> Reply {
    match step {
        Step::Inject { now, .. }
        | Step::Tick { now }
        | Step::Write { now, .. }
        | Step::Clock { now, .. }
        | Step::Inhibit { now } => assert!(rt; now <= MOMENT_MAX),
        Step::Read { count, .. } => assert!(rt; count as usize <= out.len()),
        Step::GetSlots { .. } | Step::SyncSlots { .. } => {
            let count = device.caps().slots();
            assert!(rt; cells.len() >= (SLOT_VALUES * count) as usize);
        }
        Step::Open
        | Step::Close { .. }
        | Step::Discard { .. }
        | Step::GetKeys { .. }
        | Step::GetSwitches { .. }
        | Step::GetLeds { .. }
        | Step::GetSounds { .. }
        | Step::GetAxis { .. }
        | Step::SetAxis { .. }
        | Step::Grab { .. }
        | Step::Ungrab { .. }
        | Step::Mask { .. }
        | Step::Revoke { .. }
        | Step::Uninhibit
        | Step::End => {}
    }
    device.step(step, out, cells)
}

/// The key A is pressed.
const PRESS: Step = Step::Inject {
    event: Event {
        kind: EV_KEY,
        code: KEY_A,
        value: 1,
    },
    now: 0,
};

/// It is released.
const RELEASE: Step = Step::Inject {
    event: Event {
        kind: EV_KEY,
        code: KEY_A,
        value: 0,
    },
    now: 0,
};

/// It repeats, which is passed whether it is down or not.
const REPEAT: Step = Step::Inject {
    event: Event {
        kind: EV_KEY,
        code: KEY_A,
        value: 2,
    },
    now: 0,
};

/// The axis X moves.
const MOVE: Step = Step::Inject {
    event: Event {
        kind: EV_ABS,
        code: X,
        value: 5,
    },
    now: 0,
};

/// The frame ends.
const END: Step = Step::Inject {
    event: REPORT,
    now: 0,
};

/// A client reads all that it may.
fn read(client: u32) -> Step {
    Step::Read { client, count: 64 }
}

/// After each of these steps so many events are kept.
fn keeps(rt: &impl Abort, device: &mut Device, rows: &[(Step, u32)]) {
    for (index, (step, stored)) in rows.iter().enumerate() {
        make(rt, device, *step, &mut [NO_EVENT; 64], &mut []);
        assert_eq!(rt; device.stored(), *stored, "after row {index}");
    }
}

/// So many frames of a repeat.
fn repeats(rt: &impl Abort, device: &mut Device, frames: u32) {
    for _ in 0..frames {
        make(rt, device, REPEAT, &mut [], &mut []);
        make(rt, device, END, &mut [], &mut []);
    }
}

#[test]
fn an_event_is_kept_once_while_a_queue_holds_it(rt: HostRuntime) -> Result<(), Fail> {
    let mut device = Device::new(rt.alloc(), gamepad()?)?;
    // The client 2 admits no key, and a report alone is left out of an empty queue.
    let no_keys = Step::Mask {
        client: 2,
        kind: EV_KEY,
        word: 0,
        bits: 0,
    };
    let rows = [
        (Step::Open, 0),
        (Step::Open, 0),
        (Step::Open, 0),
        (no_keys, 0),
        (PRESS, 0),
        (END, 2),
        (MOVE, 2),
        (RELEASE, 2),
        // Three more, for all three clients.
        (END, 5),
        // The client 1 has not read, and its query leaves it both reports and the axis.
        (read(0), 5),
        (Step::GetKeys { client: 1 }, 3),
        // The client 2 has the last frame's axis and report.
        (Step::Close { client: 1 }, 2),
        (Step::Open, 2),
        (PRESS, 2),
        // It has a report at its end, so it takes no other one.
        (END, 4),
        (read(2), 2),
        // Two more, for the client 3 alone.
        (Step::Grab { client: 3 }, 2),
        (RELEASE, 2),
        (END, 4),
    ];
    keeps(&rt, &mut device, &rows);
    Ok(())
}

#[test]
fn a_loss_is_kept_for_each_client_that_has_it(rt: HostRuntime) -> Result<(), Fail> {
    let mut device = Device::new(rt.alloc(), gamepad()?)?;
    let opens = [(Step::Open, 0), (Step::Open, 0), (Step::Open, 0)];
    keeps(&rt, &mut device, &opens);
    // The client 0 has two frames more than the clients 1 and 2.
    keeps(&rt, &mut device, &[(Step::Grab { client: 0 }, 0)]);
    repeats(&rt, &mut device, 2);
    keeps(&rt, &mut device, &[(Step::Ungrab { client: 0 }, 4)]);
    repeats(&rt, &mut device, 29);
    let rows = [
        // There are 4 and 58 of the client 0. The next report would fill its ring: 60 of the others stay, and its loss.
        (REPEAT, 62),
        (END, 61),
        (read(0), 60),
        // The client 2 loses its queue with its clock: there are 60 of the client 1, and a loss.
        (
            Step::Clock {
                client: 2,
                clock: Clock::Monotonic,
                now: 0,
            },
            61,
        ),
        (REPEAT, 61),
        (END, 63),
        // The client 1 loses all too: there are two frames, and two losses.
        (REPEAT, 63),
        (END, 6),
        (read(1), 5),
        // The client 0 has both frames.
        (read(2), 4),
        (Step::Close { client: 0 }, 0),
    ];
    keeps(&rt, &mut device, &rows);
    Ok(())
}

#[test]
fn sixty_four_clients_share_the_events_that_are_kept(rt: HostRuntime) -> Result<(), Fail> {
    let mut device = Device::new(rt.alloc(), gamepad()?)?;
    for _ in 0..64 {
        make(&rt, &mut device, Step::Open, &mut [], &mut []);
    }
    repeats(&rt, &mut device, 31);
    assert_eq!(rt; device.stored(), 62, "each event once");
    repeats(&rt, &mut device, 1);
    assert_eq!(rt; device.stored(), 65, "a loss for each, and one report");
    Ok(())
}
