//! The program's one call over inputs and sinks in memory: reads that fail, a gate that is not passed, and want of memory.
//! Whole runs and each status are shown by the program itself (tests/run).

use crate::common::{arguments, input_of, sink_of};
use crate::texts::{ONE_KEY_REPORT, STREAM, STREAM_AND_BAD_LINE, STREAM_TWICE, STREAMS_REPORT};
use inp_edge::{Gate, Input, MemSink, OpenGate};
use inp_tool::{End, inputplay};
use std::alloc::Global;
use std::process::Abort;
use std::sync::Wait;
use std::sync::atomic::{AtomicU64, Ordering};
use std::test::Fail;
use std::thread::Threads;

/// Room for every text of these tests.
pub const AMPLE: usize = 1_000_000;

/// What is written where the input is at fault.
pub const FAILED: &str = "inputplay: read failed\n";

/// No calls that fail.
const NONE: &[u64] = &[];

/// The key A goes down and a frame ends, both at the moment 1000: two records of 24 bytes.
const PRESS: &[u8] = &[
    0, 0, 0, 0, 0, 0, 0, 0, 0xe8, 3, 0, 0, 0, 0, 0, 0, 1, 0, 30, 0, 1, 0, 0, 0, 0, 0, 0, 0, 0, 0,
    0, 0, 0xe8, 3, 0, 0, 0, 0, 0, 0, 0, 0, 0, 0, 0, 0, 0, 0,
];

/// The call, without what its contract says: these tests look at what it does.
pub fn call<R: Threads + Wait + Sync, I: Input, G: Gate>(
    rt: &R,
    alloc: Global,
    words: &[String],
    input: &mut I,
    sink: &mut MemSink,
    gate: &G,
) -> End {
    inputplay(rt, alloc, words, input, sink, gate)
}

/// The end of a call of these words over these files, and what it wrote.
pub fn run<R: Threads + Wait + Sync, G: Gate>(
    rt: &R,
    alloc: Global,
    texts: &[&str],
    files: &[(&str, &[u8])],
    fails: &[u64],
    gate: &G,
) -> Result<(End, MemSink), Fail> {
    let words = arguments(alloc, texts)?;
    let mut input = input_of(alloc, files, fails)?;
    let mut sink = sink_of(alloc, AMPLE, NONE)?;
    let end = call(rt, alloc, &words, &mut input, &mut sink, gate);
    Ok((end, sink))
}

/// A call of these words over these files ends with this status and this text.
fn ends<R: Threads + Wait + Abort + Sync>(
    rt: &R,
    alloc: Global,
    texts: &[&str],
    files: &[(&str, &[u8])],
    fails: &[u64],
    status: u8,
    text: &str,
) -> Result<(), Fail> {
    let (end, sink) = run(rt, alloc, texts, files, fails, &OpenGate)?;
    assert_eq!(rt; end.status, status, "{text}");
    assert_eq!(rt; sink.bytes(), text.as_bytes(), "{text}");
    Ok(())
}

#[test]
fn tells_failed_reads(rt: HostRuntime) -> Result<(), Fail> {
    // The file, the call of the input that fails, the status and the text. Each read of a record fails in `pieces`.
    let table = [
        // The stream is read after the text.
        (STREAM, 3, 3, FAILED),
        (STREAM, 5, 3, FAILED),
        (STREAM, 6, 0, ONE_KEY_REPORT),
        // A file that two lines name is read twice.
        (STREAM_TWICE, 6, 3, FAILED),
        (STREAM_TWICE, 8, 3, FAILED),
        (STREAM_TWICE, 9, 0, STREAMS_REPORT),
        // No stream is read before all lines were judged.
        (STREAM_AND_BAD_LINE, 3, 1, "inputplay: line 8: bad-line\n"),
    ];
    for (text, fail, status, want) in table {
        let files = [("f", text.as_bytes()), ("keys", PRESS)];
        ends(&rt, rt.alloc(), &["f"], &files, &[fail], status, want)?;
    }
    Ok(())
}

/// A gate that counts its calls.
#[derive(Drop)]
struct CountingGate {
    calls: AtomicU64,
}

impl Gate for CountingGate {
    ghost passed = { λ _ _ _. Unit {0} };

    fn before(&self, _job: u32, _call: u32) {
        let _before = self.calls.fetch_add(1, Ordering::SeqCst);
    }
}

// It fails where the gate is passed on one thread, where a record is migrated, or where one is made.
#[test]
fn passes_no_gate_without_threads(rt: HostRuntime) -> Result<(), Fail> {
    let gate = CountingGate {
        calls: AtomicU64::new(0),
    };
    gate.before(0, 0);
    let files = [("f", STREAM.as_bytes()), ("keys", PRESS)];
    for texts in [
        ["f"].as_slice(),
        ["--migrate", "f"].as_slice(),
        ["--make=7", "--count=20"].as_slice(),
    ] {
        let (end, _) = run(&rt, rt.alloc(), texts, &files, NONE, &gate)?;
        assert_eq!(rt; end.status, 0);
        let calls = gate.calls.load(Ordering::SeqCst);
        assert_eq!(rt; calls, 1, "the test's own call alone");
    }
    Ok(())
}

// Run with each allocation refused in turn (docs/DECISIONS.md): whichever it is, the call ends in its report or says
// that memory ran out.
#[test]
fn ends_in_its_report_or_in_want_of_memory(rt: HostRuntime) -> Result<(), Fail> {
    let files = [("f", STREAM.as_bytes()), ("keys", PRESS)];
    let (end, sink) = run(&rt, rt.alloc(), &["f"], &files, NONE, &OpenGate)?;
    let want = match end.status {
        0 => ONE_KEY_REPORT,
        5 => "inputplay: out of memory\n",
        _ => "another status",
    };
    assert_eq!(rt; sink.bytes(), want.as_bytes());
    Ok(())
}
