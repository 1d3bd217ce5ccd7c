//! The lines of a frame.
ghost use Rattle.std.specs.Prelude.{◌≡◌, ◌+◌, ◌*◌, [], ◌∷◌, ◌++◌, map, flat_map, OnOk};
ghost use Rattle.std.specs.List.{range_with_len};
ghost use Rattle.inp_model.specs.Raw.{key_event};
ghost use Rattle.inp_make.specs.Generated.{position, value_event, at_first, finger_events, touches, frame_events, injected, follows, frame_lines, line};

use crate::BTN_TOUCH;
use inp_actors::{Command, Line, Lines};
use inp_model::{
    ABS_MT_POSITION_X, ABS_MT_POSITION_Y, ABS_MT_SLOT, ABS_MT_TRACKING_ID, EV_ABS, EV_KEY, EV_SYN,
    Event, NoMemory, SYN_REPORT,
};

/// The number of the actor `finger`, the source.
pub(crate) const FINGER: u32 = 0;

const _: () = prove!(FINGER == 0);

/// The number of the client that reads after each frame.
pub(crate) const FAST: u32 = 1;

const _: () = prove!(FAST == FINGER + 1);

/// The number of the client that reads after each tenth frame.
pub(crate) const MID: u32 = 2;

const _: () = prove!(MID == FAST + 1);

/// The number of the client that reads at the end.
pub(crate) const SLOW: u32 = 3;

const _: () = prove!(SLOW == MID + 1);

/// How many fingers touch the pad in each frame.
const FINGERS: u16 = 10;

/// The time between two frames, in microseconds (this project's choice).
const FRAME_TIME: u64 = 10_000;

// Adds the lines of a frame: its events, and then who reads them.
pub(crate) fn push_frame(lines: &mut Lines, number: u32, frame: u32) -> Result<(), NoMemory>
    ensures { OnOk result (lines.new ≡ lines.old ++ frame_lines number frame) }
{
    push_press(lines, frame)?;
    push_touches(lines, number, frame)?;
    inject(lines, frame, REPORT)?;
    push_follows(lines, frame)
}

/// What ends a frame.
const REPORT: Event = Event {
    kind: EV_SYN,
    code: SYN_REPORT,
    value: 0,
};

// Presses the button, in the first frame.
fn push_press(lines: &mut Lines, frame: u32) -> Result<(), NoMemory>
    ensures { OnOk result
        (lines.new ≡ lines.old ++ map (injected frame) (at_first frame (key_event BTN_TOUCH 1))) }
{
    if frame != 0 {
        return Ok(());
    }
    let press = Event {
        kind: EV_KEY,
        code: BTN_TOUCH,
        value: 1,
    };
    inject(lines, frame, press)
}

// Moves all fingers.
fn push_touches(lines: &mut Lines, number: u32, frame: u32) -> Result<(), NoMemory>
    ensures { OnOk result (lines.new ≡ lines.old ++ map (injected frame) (touches number frame)) }
{
    for finger in 0..FINGERS {
        push_finger(lines, number, frame, finger)?;
    }
    Ok(())
}

// Moves a finger, in its slot.
fn push_finger(lines: &mut Lines, number: u32, frame: u32, finger: u16) -> Result<(), NoMemory>
    ensures { OnOk result
        (lines.new ≡ lines.old ++ map (injected frame) (finger_events number frame finger)) }
{
    inject(lines, frame, value_event(ABS_MT_SLOT, finger))?;
    push_contact(lines, frame, finger)?;
    inject(
        lines,
        frame,
        value_event(ABS_MT_POSITION_X, x_of(number, frame, finger)),
    )?;
    inject(
        lines,
        frame,
        value_event(ABS_MT_POSITION_Y, y_of(number, frame, finger)),
    )
}

// Begins the contact of a finger, in the first frame.
fn push_contact(lines: &mut Lines, frame: u32, finger: u16) -> Result<(), NoMemory>
    ensures { let contact = value_event ABS_MT_TRACKING_ID finger in
        OnOk result (lines.new ≡ lines.old ++ map (injected frame) (at_first frame contact)) }
{
    if frame != 0 {
        return Ok(());
    }
    inject(lines, frame, value_event(ABS_MT_TRACKING_ID, finger))
}

// Lets the clients read that read after this frame.
fn push_follows(lines: &mut Lines, frame: u32) -> Result<(), NoMemory>
    ensures { OnOk result (lines.new ≡ lines.old ++ follows frame) }
{
    push_line(lines, FAST, Command::Follow)?;
    if frame % 10 != 9 {
        return Ok(());
    }
    push_line(lines, MID, Command::Follow)
}

// Adds a line by which the source injects an event of the frame.
fn inject(lines: &mut Lines, frame: u32, event: Event) -> Result<(), NoMemory>
    ensures { OnOk result (lines.new ≡ lines.old ++ injected frame event ∷ []) }
{
    let command = Command::Event {
        moment: FRAME_TIME * (u64::from(frame) + 1),
        kind: event.kind,
        code: event.code,
        value: event.value,
    };
    push_line(lines, FINGER, command)
}

// Adds a line.
pub(crate) fn push_line(lines: &mut Lines, actor: u32, command: Command) -> Result<(), NoMemory>
    ensures { OnOk result (lines.new ≡ lines.old ++ line actor command ∷ []) }
{
    lines.push(Line { actor, command })
}

// An event of an axis.
fn value_event(code: u16, value: u16) -> Event
    ensures { result ≡ value_event code value }
{
    Event {
        kind: EV_ABS,
        code,
        value: i32::from(value),
    }
}

// Where a finger is in a frame, from the left.
fn x_of(number: u32, frame: u32, finger: u16) -> u16
    ensures { result ≡ position (number + 7 * frame + 13 * finger) }
{
    position(u64::from(number) + 7 * u64::from(frame) + 13 * u64::from(finger))
}

// Where a finger is in a frame, from the top.
fn y_of(number: u32, frame: u32, finger: u16) -> u16
    ensures { result ≡ position (number + 11 * frame + 17 * finger) }
{
    position(u64::from(number) + 11 * u64::from(frame) + 17 * u64::from(finger))
}

// A position after a way, which wraps round: 1 to 4096.
fn position(way: u64) -> u16
    ensures { result ≡ position way }
{
    (way % 4096 + 1) as u16
}
