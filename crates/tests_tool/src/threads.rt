//! The one call on threads.

use crate::texts::{
    ALONE, ALONE_REPORT, BELL, BELL_REPORT, BELL_REPORT_LATE, FIVE_JOBS_EACH, TWO_KEYBOARDS,
    TWO_KEYBOARDS_REPORT,
};
use crate::tool::run;
use inp_edge::{Gate, OpenGate};
use std::alloc::{AllocError, Global};
use std::fmt::Write;
use std::process::Abort;
use std::sync::Wait;
use std::sync::atomic::{AtomicU64, Ordering};
use std::test::Fail;
use std::thread::Threads;

/// How often a job looks for another one before it gives up.
const LOOKS: u32 = 500_000_000;

/// A call of a job that is held until another job has come to so many calls: the job, the call, the other one, how
/// many.
type Hold = (u32, u32, usize, u64);

/// A gate at which jobs meet: each is held at its first call until all have come to theirs, and then as a table says.
#[derive(Drop)]
struct Meeting {
    /// To how many calls each job has come.
    calls: Vec<AtomicU64>,
    holds: &'static [Hold],
    gave_up: AtomicU64,
    /// How often it was told of a job that there is not.
    of_others: AtomicU64,
    /// How often it was told another number of a call than how many the job had come to before.
    miscounted: AtomicU64,
}

impl Meeting {
    /// The gate of so many jobs, from 0.
    fn new(alloc: Global, jobs: usize, holds: &'static [Hold]) -> Result<Meeting, AllocError> {
        let mut calls = Vec::new(alloc);
        for _ in 0..jobs {
            calls.push(AtomicU64::new(0))?;
        }
        Ok(Meeting {
            calls,
            holds,
            gave_up: AtomicU64::new(0),
            of_others: AtomicU64::new(0),
            miscounted: AtomicU64::new(0),
        })
    }

    /// To how many calls the job 0 has come.
    fn calls_of_first(&self) -> u64 {
        match self.calls.first() {
            Some(calls) => calls.load(Ordering::SeqCst),
            None => 0,
        }
    }

    /// Counts what it was told.
    fn count(&self, job: u32, call: u32) {
        match self.calls.get(job as usize) {
            Some(calls) => {
                let before = calls.fetch_add(1, Ordering::SeqCst);
                let is_wrong = before != u64::from(call);
                self.miscounted
                    .fetch_add(u64::from(is_wrong), Ordering::SeqCst);
            }
            None => {
                self.of_others.fetch_add(1, Ordering::SeqCst);
            }
        }
    }

    /// Waits until a job has come to so many calls, or one gave up.
    fn wait(&self, come: &AtomicU64, calls: u64) {
        for _ in 0..LOOKS {
            if come.load(Ordering::SeqCst) >= calls || self.gave_up.load(Ordering::SeqCst) == 1 {
                return;
            }
        }
        self.gave_up.store(1, Ordering::SeqCst);
    }

    /// Waits for all jobs where this is the first call of one.
    fn wait_for_all(&self, call: u32) {
        if call == 0 {
            for come in self.calls.as_slice() {
                self.wait(come, 1);
            }
        }
    }
}

impl Gate for Meeting {
    ghost passed = { λ _ _ _. Unit {0} };

    fn before(&self, job: u32, call: u32) {
        self.count(job, call);
        self.wait_for_all(call);
        for (held, at, other, calls) in self.holds {
            if *held == job
                && *at == call
                && let Some(come) = self.calls.get(*other)
            {
                self.wait(come, *calls);
            }
        }
    }
}

/// Each job came to the gate by its own number, once before each of its calls, and none waited in vain. The gate was
/// told of no other job, and of a job's calls by their numbers from 0.
fn all_came<R: Abort>(rt: &R, gate: &Meeting) {
    assert_eq!(rt;
        gate.gave_up.load(Ordering::SeqCst),
        0,
        "no job waited in vain"
    );
    assert_eq!(rt;
        gate.of_others.load(Ordering::SeqCst),
        0,
        "it was told of no other job"
    );
    assert_eq!(rt;
        gate.miscounted.load(Ordering::SeqCst),
        0,
        "once at each call, by its number"
    );
    for calls in gate.calls.as_slice() {
        assert!(rt; calls.load(Ordering::SeqCst) > 0, "each job came");
    }
}

/// Of two keyboards, each with a client (0, 2) before its source (1, 3), whose two lines are one call. A client reads
/// in vain (its call 2), and is held at its next read until the source comes to its end. The end is held until that
/// read has been made.
const FOLLOWS: &[Hold] = &[
    (1, 0, 0, 4),
    (0, 3, 1, 2),
    (1, 1, 0, 5),
    (3, 0, 2, 4),
    (2, 3, 3, 2),
    (3, 1, 2, 5),
];

// It fails where two jobs share a thread, where one device is played after another, and where each job tells the number
// 0 or one that is too high. It also fails where the gate is passed after a call or twice, where it is told of a job
// that there is not, and where a job's count does not begin with 0.
#[test]
fn jobs_of_two_devices_run_side_by_side(rt: HostRuntime) -> Result<(), Fail> {
    let gate = Meeting::new(rt.alloc(), 4, FOLLOWS)?;
    // No client stops as idle, however late its source is scheduled.
    let words = ["--threads", "--idle", "1000000000", "f"];
    let files = [("f", TWO_KEYBOARDS.as_bytes())];
    let (end, sink) = run(&rt, rt.alloc(), &words, &files, &[], &gate)?;
    all_came(&rt, &gate);
    assert_eq!(rt; end.status, 0);
    assert_eq!(rt; sink.bytes(), TWO_KEYBOARDS_REPORT.as_bytes());
    Ok(())
}

/// No call is held, but for the first one until all have come.
const NO_HOLDS: &[Hold] = &[];

/// All jobs of a record come to the gate while each is held at its first call: so many, of so many devices. How many
/// calls the first job made.
fn all_meet<R: Threads + Wait + Abort + Sync>(
    rt: &R,
    alloc: Global,
    files: &[(&str, &[u8])],
    devices: usize,
    jobs: usize,
) -> Result<u64, Fail> {
    let gate = Meeting::new(alloc, jobs, NO_HOLDS)?;
    let (end, _) = run(rt, alloc, &["--threads", "f"], files, &[], &gate)?;
    assert_eq!(rt; end.status, 0);
    assert_eq!(rt; end.runs.len(), devices);
    all_came(rt, &gate);
    Ok(gate.calls_of_first())
}

// It fails where a device has fewer threads than jobs.
#[test]
fn five_jobs_of_each_of_two_devices_run_side_by_side(rt: HostRuntime) -> Result<(), Fail> {
    let files = [("f", FIVE_JOBS_EACH.as_bytes())];
    all_meet(&rt, rt.alloc(), &files, 2, 10)?;
    Ok(())
}

/// A record of so many devices, each with a source that injects an event.
fn record_of_devices(alloc: Global, count: usize) -> Result<String, AllocError> {
    let mut text = String::from_str(alloc, "inputrecord 1\n")?;
    let mut lines = String::new(alloc);
    for number in 0..count {
        write!(
            text,
            "device d{number}\ncap EV_KEY KEY_A\nsource s{number}\n"
        )?;
        write!(lines, "do s{number} event 1000 EV_KEY KEY_A 1\n")?;
    }
    text.push_str(lines.as_str())?;
    Ok(text)
}

// It fails where there are fewer threads than devices. A record has no more than eight.
#[test]
fn three_devices_and_eight_run_side_by_side(rt: HostRuntime) -> Result<(), Fail> {
    for count in [3, 8] {
        let record = record_of_devices(rt.alloc(), count)?;
        all_meet(&rt, rt.alloc(), &[("f", record.as_bytes())], count, count)?;
    }
    Ok(())
}

/// A source (0) and an owner (1). The owner's first call is held until the event is there, and the end of the source
/// until that call has been made.
const RINGS: &[Hold] = &[(1, 0, 0, 2), (0, 1, 1, 2)];

// It fails where an owner tells another number, and where it passes the gate after a call, since its first call then
// takes nothing, or twice. Its second call is made before the source's end or after it.
#[test]
fn an_owner_passes_the_gate_before_each_call(rt: HostRuntime) -> Result<(), Fail> {
    let gate = Meeting::new(rt.alloc(), 2, RINGS)?;
    let files = [("f", BELL.as_bytes())];
    let (end, sink) = run(&rt, rt.alloc(), &["--threads", "f"], &files, &[], &gate)?;
    all_came(&rt, &gate);
    assert_eq!(rt; end.status, 0);
    let is_early = sink.bytes() == BELL_REPORT.as_bytes();
    assert!(rt; is_early || sink.bytes() == BELL_REPORT_LATE.as_bytes());
    Ok(())
}

#[test]
fn a_source_says_that_it_is_done(rt: HostRuntime) -> Result<(), Fail> {
    let words = ["--threads", "f"];
    let files = [("f", ALONE.as_bytes())];
    let (end, sink) = run(&rt, rt.alloc(), &words, &files, &[], &OpenGate)?;
    assert_eq!(rt; end.status, 0);
    assert_eq!(rt; sink.bytes(), ALONE_REPORT.as_bytes());
    Ok(())
}

/// A record of a bell with a source (0) and an owner (1): rows of so many events, and behind each row a feedback call.
fn record_of_rows(alloc: Global, rows: &[u32]) -> Result<String, AllocError> {
    let head = "inputrecord 2\nudevice bell\ncap EV_SND SND_BELL\nsource s\nowner o\n";
    let mut text = String::from_str(alloc, head)?;
    for events in rows {
        push_row(&mut text, *events)?;
    }
    Ok(text)
}

/// One row more.
fn push_row(text: &mut String, events: u32) -> Result<(), AllocError> {
    for value in 1..=events {
        writeln!(text, "do s event 1000 EV_SND SND_BELL {value}")?;
    }
    text.push_str("do o feedback 15\n")
}

/// How many lines the rows of a record have, and how many calls its source makes, of which the last one says the end.
const ROWS: [(&[u32], u64); 8] = [
    (&[0], 1),
    (&[1], 2),
    (&[15], 2),
    (&[16], 3),
    (&[31], 4),
    (&[1, 1], 3),
    (&[2, 0, 2], 3),
    (&[8, 16, 7], 5),
];

// It fails where lines go under one turn between which another actor has a line, and where lines next to each other do
// not, but for more than fifteen.
#[test]
fn lines_next_to_each_other_are_one_call(rt: HostRuntime) -> Result<(), Fail> {
    for (rows, calls) in ROWS {
        let record = record_of_rows(rt.alloc(), rows)?;
        let made = all_meet(&rt, rt.alloc(), &[("f", record.as_bytes())], 1, 2)?;
        assert_eq!(rt; made, calls, "{rows:?}");
    }
    Ok(())
}

/// Of a row of 16 events: the first call of the owner (1) is held until the source (0) has come to its second call,
/// behind 15 events. That one is held until the owner has come to its second call, and this one until the source has
/// come to its end.
const ONE_ROW: &[Hold] = &[(1, 0, 0, 2), (0, 1, 1, 2), (1, 1, 0, 3)];

/// How the report begins then.
const ONE_ROW_REPORT: &str = "device bell steps 17
source s calls 16 stop finished
owner o
feedback 15 15
fed EV_SND SND_BELL 1
";

// It fails where one turn sends more than may wait for an owner: then nobody is told the first event.
#[test]
fn an_owner_is_told_all_that_one_turn_sends(rt: HostRuntime) -> Result<(), Fail> {
    let gate = Meeting::new(rt.alloc(), 2, ONE_ROW)?;
    let record = record_of_rows(rt.alloc(), &[16, 0])?;
    let files = [("f", record.as_bytes())];
    let (end, sink) = run(&rt, rt.alloc(), &["--threads", "f"], &files, &[], &gate)?;
    all_came(&rt, &gate);
    assert_eq!(rt; end.status, 0);
    assert!(rt; sink.bytes().starts_with(ONE_ROW_REPORT.as_bytes()));
    Ok(())
}

/// A source that replays a file of events, and is done.
const LONG: &str = "inputrecord 1\ndevice k\ncap EV_KEY KEY_A\nsource s\ndo s stream events\n";

#[test]
fn a_long_stream_comes_in_few_calls(rt: HostRuntime) -> Result<(), Fail> {
    // Records of 24 bytes, each of which is a report at the moment 0: 1,024 of them come at once. The last call says
    // the end.
    let events = [0; 60_000];
    let table = [
        (&events[..24 * 1024], 2),
        (&events[..24 * 1025], 3),
        (&events[..24 * 2500], 4),
    ];
    for (bytes, calls) in table {
        let files = [("f", LONG.as_bytes()), ("events", bytes)];
        let made = all_meet(&rt, rt.alloc(), &files, 1, 1)?;
        assert_eq!(rt; made, calls, "{} bytes", bytes.len());
    }
    Ok(())
}
