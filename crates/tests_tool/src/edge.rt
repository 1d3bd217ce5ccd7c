//! The edge at work: what no clause says, and each call once.

use crate::common::{input_of, sink_of};
use inp_edge::{
    Failed, FileInput, Gate, Input, Items, OpenGate, OutSink, ReadFault, Sink, read_all, write_all,
};
use std::alloc::{AllocError, Global};
use std::cell::{Cell, RefCell};
use std::fmt::Display;
use std::io::ErrorKind;
use std::rt::Files;
use std::test::Fail;
use std::{fs, io};

// Bytes that differ from their neighbours.
fn sample(alloc: Global, len: usize) -> Result<Vec<u8>, AllocError> {
    let mut bytes = Vec::with_capacity(alloc, len)?;
    for i in 0..len {
        bytes.push((i % 251) as u8)?;
    }
    Ok(bytes)
}

// How a whole read of a file of so many bytes, `a`, ends, with the number of its bytes where they are the file's, and
// how many faults there were.
fn whole_read(
    alloc: Global,
    len: usize,
    fail: u64,
    name: &str,
) -> Result<(Result<usize, ReadFault>, u64), Fail> {
    let bytes = sample(alloc, len)?;
    let mut input = input_of(alloc, &[("a", bytes.as_slice())], &[fail])?;
    let read = read_all(alloc, &mut input, name);
    Ok((
        read.map(|read| if read == bytes { len } else { usize::MAX }),
        input.faults(),
    ))
}

#[test]
fn reads_files_in_memory(rt: HostRuntime) -> Result<(), Fail> {
    // The calls are: 0 begin, and then a read of up to 4,096 bytes each. Files at the limit are read by tests/run.
    let failed = Err(ReadFault::Failed);
    let table = [
        (0, 9, "a", Ok(0), 0),
        (10_000, 9, "a", Ok(10_000), 0),
        (10_000, 0, "a", failed, 1),
        (10_000, 2, "a", failed, 1),
        (10_000, 4, "a", failed, 1),
        (10_000, 5, "a", Ok(10_000), 0),
        (10_000, 9, "b", failed, 0),
    ];
    for (len, fail, name, want, faults) in table {
        let (read, counted) = whole_read(rt.alloc(), len, fail, name)?;
        assert_eq!(rt; read, want, "{len} {fail}");
        assert_eq!(rt; counted, faults, "{len} {fail}");
    }
    Ok(())
}

// How a whole write to a sink with so much room ends, whether the sink has these bytes then, and how many faults there
// were.
fn whole_write(
    alloc: Global,
    text: &str,
    room: usize,
    fail: u64,
    written: &str,
) -> Result<(Result<(), Failed>, bool, u64), Fail> {
    let mut sink = sink_of(alloc, room, &[fail])?;
    let ended = write_all(&mut sink, text.as_bytes());
    Ok((ended, sink.bytes() == written.as_bytes(), sink.faults()))
}

#[test]
fn writes_to_memory(rt: HostRuntime) -> Result<(), Fail> {
    let table = [
        ("hello", 9, 9, Ok(()), "hello", 0),
        ("hello", 5, 9, Ok(()), "hello", 0),
        ("hello", 3, 9, Err(Failed), "hel", 1),
        ("hello", 0, 9, Err(Failed), "", 1),
        ("hello", 9, 0, Err(Failed), "", 1),
        ("", 0, 0, Ok(()), "", 0),
    ];
    for (text, room, fail, want, written, faults) in table {
        let (ended, is_written, counted) = whole_write(rt.alloc(), text, room, fail, written)?;
        assert_eq!(rt; ended, want, "{text} {room} {fail}");
        assert!(rt; is_written, "{text} {room} {fail}");
        assert_eq!(rt; counted, faults, "{text} {room} {fail}");
    }
    Ok(())
}

#[test]
fn reads_real_files(rt: HostRuntime) -> Result<(), Fail> {
    let path = "inp_edge_reads_real_files";
    let bytes = sample(rt.alloc(), 5000)?;
    fs::write(&rt, path, bytes.as_slice())?;
    let mut input = FileInput::new(&rt);
    let read = read_all(rt.alloc(), &mut input, path);
    rt.remove_file(path)?;
    assert!(rt; read? == bytes);
    assert_eq!(rt; input.faults(), 0);
    let missing = read_all(rt.alloc(), &mut input, path);
    assert_eq!(rt; missing.map(|bytes| bytes.len()), Err(ReadFault::Failed));
    assert_eq!(rt; input.faults(), 1);
    Ok(())
}

// Reads a real file, one piece of 16 bytes.
fn read_piece<I: Input>(input: &mut I) -> Result<usize, Failed> {
    input.read(&mut [0; 16])
}

#[test]
fn fails_at_each_read_of_a_folder(rt: HostRuntime) -> Result<(), Fail> {
    let mut input = FileInput::new(&rt);
    assert_eq!(rt; input.begin("."), Ok(()));
    assert_eq!(rt; input.faults(), 0);
    for faults in 1..4 {
        assert_eq!(rt; read_piece(&mut input), Err(Failed));
        assert_eq!(rt; input.faults(), faults);
    }
    let read = read_all(rt.alloc(), &mut input, ".");
    assert_eq!(rt; read.map(|bytes| bytes.len()), Err(ReadFault::Failed));
    assert_eq!(rt; input.faults(), 4);
    Ok(())
}

#[test]
fn leaves_a_file_for_a_missing_one(rt: HostRuntime) -> Result<(), Fail> {
    let path = "inp_edge_leaves_a_file_for_a_missing_one";
    fs::write(&rt, path, sample(rt.alloc(), 100)?.as_slice())?;
    let mut input = FileInput::new(&rt);
    assert_eq!(rt; read_piece(&mut input), Ok(0), "none is begun");
    assert_eq!(rt; input.begin(path), Ok(()));
    assert_eq!(rt; read_piece(&mut input), Ok(16));
    assert_eq!(rt; input.begin("no such file"), Err(Failed));
    assert_eq!(rt; read_piece(&mut input), Ok(0), "none is begun");
    assert_eq!(rt; input.faults(), 1);
    rt.remove_file(path)?;
    Ok(())
}

// A runtime that keeps what is printed, three bytes a call at most, and then has no room. It counts its calls, and the
// call of one number answers an error.
struct Tape {
    bytes: RefCell<Vec<u8>>,
    room: usize,
    calls: Cell<u64>,
    fails: u64,
}

impl Print for Tape {
    fn print<D: Display + Drop>(&self, _value: D) -> io::Result<()> {
        Err(io::Error::from(ErrorKind::Unsupported))
    }

    fn println<D: Display + Drop>(&self, _value: D) -> io::Result<()> {
        Err(io::Error::from(ErrorKind::Unsupported))
    }

    fn write_all(&self, _bytes: &[u8]) -> io::Result<()> {
        Err(io::Error::from(ErrorKind::Unsupported))
    }

    fn write_some(&self, bytes: &[u8]) -> io::Result<usize> {
        let call = self.calls.get();
        self.calls.set(call.saturating_add(1));
        if call == self.fails {
            return Err(io::Error::from(ErrorKind::Interrupted));
        }
        let mut kept = match self.bytes.try_borrow_mut() {
            Ok(kept) => kept,
            Err(_) => return Err(io::Error::from(ErrorKind::Other)),
        };
        let count = bytes.len().min(3).min(self.room.saturating_sub(kept.len()));
        kept.extend_from_slice(&bytes[..count])?;
        Ok(count)
    }
}

// How a whole write to a tape ends, whether the tape has these bytes then, how many faults there were, and how many
// calls of the runtime.
fn whole_print(
    alloc: Global,
    room: usize,
    fails: u64,
    written: &str,
) -> Result<(Result<(), Failed>, bool, u64, u64), Fail> {
    let tape = Tape {
        bytes: RefCell::new(Vec::new(alloc)),
        room,
        calls: Cell::new(0),
        fails,
    };
    let mut out = OutSink::new(&tape);
    let ended = write_all(&mut out, b"hello, tape");
    let faults = out.faults();
    let calls = tape.calls.get();
    let Tape {
        bytes,
        room: _,
        calls: _,
        fails: _,
    } = tape;
    Ok((
        ended,
        bytes.into_inner().as_slice() == written.as_bytes(),
        faults,
        calls,
    ))
}

#[test]
fn writes_to_the_standard_output(rt: HostRuntime) -> Result<(), Fail> {
    // The room, the call that answers an error, the answer, what was written, and how many calls of the runtime there
    // were. The last of these is the only one at fault.
    let failed = Err(Failed);
    let table = [
        (20, 9, Ok(()), "hello, tape", 4),
        (5, 9, failed, "hello", 3),
        (20, 0, failed, "", 1),
        (20, 1, failed, "hel", 2),
        (20, 3, failed, "hello, ta", 4),
    ];
    for (room, fails, want, written, calls) in table {
        let (ended, is_written, faults, counted) = whole_print(rt.alloc(), room, fails, written)?;
        assert_eq!(rt; ended, want, "{room} {fails}");
        assert!(rt; is_written, "{room} {fails}");
        assert_eq!(rt; faults, u64::from(want.is_err()), "{room} {fails}");
        assert_eq!(rt; counted, calls, "{room} {fails}");
    }
    Ok(())
}

fn pass<G: Gate>(gate: &G) {
    gate.before(1, 0);
}

#[test]
fn keeps_items_in_order(rt: HostRuntime) -> Result<(), Fail> {
    let mut items = Items::new(rt.alloc());
    assert!(rt; items.is_empty());
    items.push(3u8)?;
    items.push(5)?;
    assert_eq!(rt; items.len(), 2);
    assert_eq!(rt; *items.get(1), 5);
    assert_eq!(rt; items.into_vec().as_slice(), [3, 5].as_slice());
    pass(&OpenGate);
    Ok(())
}
