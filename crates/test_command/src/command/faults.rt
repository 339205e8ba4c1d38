//! Readers and writers that fail, give or take little, or never end.
use crate::assertion::assert_same;
use crate::command::fixture::{REPORT, SMALL};
use std::alloc::Global;
use std::io;
use std::io::{ErrorKind, Read, Write};
use std::sync::Wait;
use std::thread::Threads;
use vrp_command::{NoGate, Options, Resources, RunError, Status, run, run_arguments};
use vrp_text::TextError;

// Gives its bytes, this many at a time. One of its reads fails, and the next continues behind it.
#[derive(Drop)]
struct Flaky<'a> {
    rest: &'a [u8],
    most: usize,
    reads: usize,
    failing: usize,
    kind: ErrorKind,
}

impl Read for Flaky<'_> {
    fn read(&mut self, buffer: &mut [u8]) -> io::Result<usize> {
        self.reads = self.reads.saturating_add(1);
        if self.reads == self.failing {
            return Err(io::Error::from(self.kind));
        }
        let count = self.rest.len().min(self.most).min(buffer.len());
        buffer[..count].copy_from_slice(&self.rest[..count]);
        self.rest = &self.rest[count..];
        Ok(count)
    }
}

// The small file, this many bytes at a time, of which one read fails, counted from 1.
fn small_in_parts(most: usize, failing: usize, kind: ErrorKind) -> Flaky<'static> {
    Flaky {
        rest: SMALL.as_bytes(),
        most,
        reads: 0,
        failing,
        kind,
    }
}

// Gives line feeds for ever, and counts them and its reads.
#[derive(Drop)]
struct Endless {
    given: usize,
    reads: usize,
}

impl Read for Endless {
    fn read(&mut self, buffer: &mut [u8]) -> io::Result<usize> {
        buffer.fill(b'\n');
        self.given = self.given.saturating_add(buffer.len());
        self.reads = self.reads.saturating_add(1);
        Ok(buffer.len())
    }
}

// Takes this many bytes at a time, up to its room; then it takes nothing. One of its writes fails, and the next continues
// behind it.
#[derive(Drop)]
struct Narrow {
    taken: Vec<u8>,
    most: usize,
    room: usize,
    writes: usize,
    failing: usize,
    kind: ErrorKind,
    flushes: usize,
    fails_at_flush: bool,
}

impl Write for Narrow {
    fn write(&mut self, bytes: &[u8]) -> io::Result<usize> {
        self.writes = self.writes.saturating_add(1);
        if self.writes == self.failing {
            return Err(io::Error::from(self.kind));
        }
        let left = self.room.saturating_sub(self.taken.len());
        let count = bytes.len().min(self.most).min(left);
        self.taken.extend_from_slice(&bytes[..count])?;
        Ok(count)
    }

    fn flush(&mut self) -> io::Result<()> {
        self.flushes = self.flushes.saturating_add(1);
        if self.fails_at_flush {
            return Err(io::Error::from(ErrorKind::BrokenPipe));
        }
        Ok(())
    }
}

// Takes this many bytes at a time, and never fails.
fn takes(alloc: Global, most: usize) -> Narrow {
    Narrow {
        taken: Vec::new(alloc),
        most,
        room: usize::MAX,
        writes: 0,
        failing: 0,
        kind: ErrorKind::Other,
        flushes: 0,
        fails_at_flush: false,
    }
}

#[test]
fn little_at_a_time(rt: HostRuntime) {
    // The small file has 183 bytes. Behind them the end is read once.
    for (most, reads) in [(1, 184), (7, 28), (70_000, 2)] {
        let input = small_in_parts(most, 0, ErrorKind::Other);
        let output = takes(rt.alloc(), most);
        let ended = run_over(&rt, rt.alloc(), input, output);
        assert_same(&rt, ended.outcome, Ok(Status::Proven), most);
        assert_same(&rt, ended.reads, reads, most);
        assert_same(&rt, ended.taken.as_slice(), REPORT.as_bytes(), most);
        assert_same(&rt, ended.flushes, 1, most);
    }
}

// How a run ended, how often it read and flushed, and what it wrote.
#[derive(Drop)]
struct Ended {
    outcome: Result<Status, RunError>,
    reads: usize,
    taken: Vec<u8>,
    flushes: usize,
}

fn run_over<R: Threads + Wait + Sync>(
    rt: &R,
    alloc: Global,
    mut input: Flaky<'_>,
    mut output: Narrow,
) -> Ended {
    let outcome = run(rt, alloc, Options::default(), &mut input, &mut output);
    Ended {
        outcome,
        reads: input.reads,
        taken: output.taken,
        flushes: output.flushes,
    }
}

const FAILED_READS: &[(usize, usize, ErrorKind)] = &[
    (70_000, 1, ErrorKind::Other),
    (50, 2, ErrorKind::Other),
    (50, 2, ErrorKind::Interrupted),
    (70_000, 2, ErrorKind::UnexpectedEof),
];

#[test]
fn failed_reads(rt: HostRuntime) {
    for &(most, failing, kind) in FAILED_READS {
        let input = small_in_parts(most, failing, kind);
        let output = takes(rt.alloc(), 70_000);
        let ended = run_over(&rt, rt.alloc(), input, output);
        assert_same(&rt, ended.outcome, Err(RunError::Read), failing);
        assert_same(&rt, ended.reads, failing, failing);
        assert!(rt; ended.taken.is_empty());
        assert_same(&rt, ended.flushes, 0, failing);
    }
}

#[test]
fn endless_input(rt: HostRuntime) {
    let mut input = Endless { given: 0, reads: 0 };
    let mut output = takes(rt.alloc(), 70_000);
    let outcome = run(&rt, rt.alloc(), Options::default(), &mut input, &mut output);
    assert_same(
        &rt,
        outcome,
        Err(RunError::Text(TextError::TooLong)),
        "the outcome",
    );
    assert_same(&rt, input.given, 16_777_217, "bytes");
    // 256 buffers of 65,536 bytes, and one byte more
    assert_same(&rt, input.reads, 257, "reads");
    assert!(rt; output.taken.is_empty());
}

// A report is written five bytes at a time; the second write fails, or the first, before anything was taken.
const FAILED_WRITES: &[(usize, ErrorKind, &str)] = &[
    (2, ErrorKind::BrokenPipe, "Route"),
    (2, ErrorKind::Interrupted, "Route"),
    (1, ErrorKind::Other, ""),
];

#[test]
fn failed_writes(rt: HostRuntime) {
    for &(failing, kind, written) in FAILED_WRITES {
        let mut output = takes(rt.alloc(), 5);
        output.failing = failing;
        output.kind = kind;
        let input = small_in_parts(70_000, 0, ErrorKind::Other);
        let ended = run_over(&rt, rt.alloc(), input, output);
        assert_same(&rt, ended.outcome, Err(RunError::Write), failing);
        assert_same(&rt, ended.taken.as_slice(), written.as_bytes(), failing);
    }
}

#[test]
fn writes_that_take_nothing(rt: HostRuntime) {
    for (room, written) in [(5, "Route"), (0, "")] {
        let mut output = takes(rt.alloc(), 70_000);
        output.room = room;
        let input = small_in_parts(70_000, 0, ErrorKind::Other);
        let ended = run_over(&rt, rt.alloc(), input, output);
        assert_same(&rt, ended.outcome, Err(RunError::Write), room);
        assert_same(&rt, ended.taken.as_slice(), written.as_bytes(), room);
    }
}

#[test]
fn failed_flush(rt: HostRuntime) {
    let mut output = takes(rt.alloc(), 70_000);
    output.fails_at_flush = true;
    let input = small_in_parts(70_000, 0, ErrorKind::Other);
    let ended = run_over(&rt, rt.alloc(), input, output);
    assert_same(&rt, ended.outcome, Err(RunError::Write), "the outcome");
    assert_same(&rt, ended.taken.as_slice(), REPORT.as_bytes(), "the report");
}

// The program with a reader and a writer: its words, which read and which write fails, the status, and standard error.
const TOLD: &[(&str, usize, usize, u8, &str)] = &[
    ("--", 0, 0, 0, ""),
    ("--", 1, 0, 5, "cvrp: read fault\n"),
    ("--", 0, 1, 5, "cvrp: write fault\n"),
    // if the help can't be written, nothing says so, and nothing is read
    ("--help", 1, 1, 0, ""),
];

#[test]
fn faults_are_told(rt: HostRuntime) {
    for &(word, failing_read, failing_write, status, told) in TOLD {
        let mut input = small_in_parts(70_000, failing_read, ErrorKind::Other);
        let mut output = takes(rt.alloc(), 70_000);
        output.failing = failing_write;
        let mut errors = Vec::new(rt.alloc());
        let words = [word];
        let resources = Resources::new(&rt, rt.alloc(), &NoGate);
        let ended = run_arguments(&resources, &words, &mut input, &mut output, &mut errors);
        assert_same(&rt, ended, status, (word, told));
        assert_same(&rt, errors.as_slice(), told.as_bytes(), word);
    }
}

// If the words are refused, the input is not read, and nothing is printed.
#[test]
fn refused_words_read_nothing(rt: HostRuntime) {
    let mut input = small_in_parts(70_000, 0, ErrorKind::Other);
    let mut output = takes(rt.alloc(), 70_000);
    let mut errors = Vec::new(rt.alloc());
    let resources = Resources::new(&rt, rt.alloc(), &NoGate);
    let ended = run_arguments(
        &resources,
        &["--pieces", "0"],
        &mut input,
        &mut output,
        &mut errors,
    );
    assert_same(&rt, ended, 2, "the status");
    assert_same(&rt, input.reads, 0, "reads");
    assert_same(&rt, output.writes, 0, "writes");
}
