//! The one call over inputs and sinks that give and take pieces, fail at a call, or have no room.
ghost use Rattle.std.specs.Prelude.{◌≤◌};

use crate::common::{arguments, fails_of, files_of};
use crate::texts::{COMMENT, ONE_KEY, ONE_KEY_REPORT};
use crate::tool::{AMPLE, FAILED, call};
use inp_edge::{MemInput, MemSink, OpenGate};
use inp_tool::End;
use std::alloc::Global;
use std::sync::Wait;
use std::test::Fail;
use std::thread::Threads;

/// The end of a call over this file, where one read gives at most so many bytes and one write takes no more, and what
/// it wrote. The call of the input with this number fails, and the sink has so much room.
fn run<R: Threads + Wait + Sync>(
    rt: &R,
    alloc: Global,
    text: &[u8],
    piece: u32,
    fail: u64,
    room: usize,
) -> Result<(End, MemSink), Fail>
    requires some { 1 ≤ piece }
{
    let words = arguments(alloc, &["f"])?;
    let files = files_of(alloc, &[("f", text)])?;
    let mut input = MemInput::in_pieces(files, fails_of(alloc, &[fail])?, piece);
    let mut sink = MemSink::in_pieces(alloc, room, fails_of(alloc, &[])?, piece)?;
    let end = call(rt, alloc, &words, &mut input, &mut sink, &OpenGate);
    Ok((end, sink))
}

/// More calls than any of these runs makes.
const NEVER: u64 = 1_000_000;

#[test]
fn pieces_change_nothing(rt: HostRuntime) -> Result<(), Fail> {
    for text in [ONE_KEY.as_bytes(), COMMENT] {
        let (end, sink) = run(&rt, rt.alloc(), text, 1, NEVER, AMPLE)?;
        assert_eq!(rt; end.status, 0);
        assert_eq!(rt; sink.bytes(), ONE_KEY_REPORT.as_bytes());
    }
    Ok(())
}

#[test]
fn each_failing_read_is_told(rt: HostRuntime) -> Result<(), Fail> {
    // The file is begun, read in pieces of 7 bytes, and read once more to find its end.
    let calls = 2 + ONE_KEY.len().div_ceil(7) as u64;
    for fail in 0..=calls {
        let (end, sink) = run(&rt, rt.alloc(), ONE_KEY.as_bytes(), 7, fail, AMPLE)?;
        let (status, text) = if fail < calls {
            (3, FAILED)
        } else {
            (0, ONE_KEY_REPORT)
        };
        assert_eq!(rt; end.status, status, "{fail}");
        assert_eq!(rt; sink.bytes(), text.as_bytes(), "{fail}");
    }
    Ok(())
}

#[test]
fn the_front_that_has_room_is_written(rt: HostRuntime) -> Result<(), Fail> {
    let whole = ONE_KEY_REPORT.as_bytes();
    for room in 0..whole.len() {
        let (end, sink) = run(&rt, rt.alloc(), ONE_KEY.as_bytes(), 7, NEVER, room)?;
        assert_eq!(rt; (end.status, end.runs.len()), (4, 1), "{room}");
        assert_eq!(rt; sink.bytes(), &whole[..room]);
    }
    // A record that is refused leaves no runs.
    let (end, sink) = run(&rt, rt.alloc(), b"device d\n", 7, NEVER, 3)?;
    assert_eq!(rt; (end.status, end.runs.len()), (4, 0));
    assert_eq!(rt; sink.bytes(), b"inp".as_slice());
    Ok(())
}
