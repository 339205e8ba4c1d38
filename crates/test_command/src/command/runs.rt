//! Runs of the program: the words, a file, and the whole outcome.
use crate::assertion::assert_same;
use crate::command::fixture::{REPORT, SMALL, with};
use crate::command::plans::{FOUR, ONE_DIRECTION, STEPS};
use crate::command::trucks::THREE;
use std::alloc::{AllocError, Global};
use std::io::Eprint;
use std::process::Abort;
use std::rt::Files;
use std::sync::Wait;
use std::sync::atomic::{AtomicU64, Ordering};
use std::thread::{Threads, yield_now};
use std::time::Clock;
use vrp_command::{Gate, NoGate, Resources, run_arguments};

// Two depots are listed, a customer's step apart.
const DEPOTS: &str =
    "TYPE : CVRP\nDIMENSION : 3\nEDGE_WEIGHT_TYPE : EUC_2D\nCAPACITY : 2\nNODE_COORD_SECTION\n1 0 0\n2 3 4\n3 6 8\nDEMAND_SECTION\n1 0\n2 0\n3 1\nDEPOT_SECTION\n1 2\n-1\nEOF\n";

// The depot alone.
const ALONE: &str =
    "TYPE : CVRP\nDIMENSION : 1\nEDGE_WEIGHT_TYPE : EUC_2D\nCAPACITY : 2\nNODE_COORD_SECTION\n1 0 0\nDEMAND_SECTION\n1 0\nDEPOT_SECTION\n1\n-1\nEOF\n";

// One customer, a step up and a step to the right.
const CORNER: &str =
    "TYPE : CVRP\nDIMENSION : 2\nEDGE_WEIGHT_TYPE : EUC_2D\nCAPACITY : 2\nNODE_COORD_SECTION\n1 0 0\n2 1 1\nDEMAND_SECTION\n1 0\n2 1\nDEPOT_SECTION\n1\n-1\nEOF\n";

// One customer, as far away as possible.
const FAR_CORNER: &str =
    "TYPE : CVRP\nDIMENSION : 2\nEDGE_WEIGHT_TYPE : EUC_2D\nCAPACITY : 2\nNODE_COORD_SECTION\n1 -100000000 -100000000\n2 100000000 100000000\nDEMAND_SECTION\n1 0\n2 1\nDEPOT_SECTION\n1\n-1\nEOF\n";

// One customer, ten steps up, by the pseudo-Euclidean weights.
const TEN_STEPS: &str =
    "TYPE : CVRP\nDIMENSION : 2\nEDGE_WEIGHT_TYPE : ATT\nCAPACITY : 2\nNODE_COORD_SECTION\n1 0 0\n2 0 10\nDEMAND_SECTION\n1 0\n2 1\nDEPOT_SECTION\n1\n-1\nEOF\n";

// Three customers, one in each truck, and six entries of a triangle.
const TRIANGLE: &str =
    "TYPE : CVRP\nDIMENSION : 4\nEDGE_WEIGHT_TYPE : EXPLICIT\nEDGE_WEIGHT_FORMAT : UPPER_ROW\nCAPACITY : 1\nEDGE_WEIGHT_SECTION\n1 2 3 4 5 6\nDEMAND_SECTION\n1 0\n2 1\n3 1\n4 1\nDEPOT_SECTION\n1\n-1\nEOF\n";

// The small file as other programs write it: line ends of two bytes, tabs, two remarks, numbers with a point.
const OTHER_SPELLING: &str =
    "NAME : A\r\nCOMMENT : three nodes\r\nCOMMENT : again\r\nTYPE : CVRP\r\nDIMENSION : 3\r\nEDGE_WEIGHT_TYPE : EUC_2D\r\nCAPACITY : 2\r\nNODE_COORD_SECTION\r\n1\t0\t0\r\n2\t3.00000\t4.0e+00\r\n3\t6\t8\r\nDEMAND_SECTION\r\n1\t0\r\n2\t1\r\n3\t1\r\nDEPOT_SECTION\r\n1\r\n-1\r\nEOF\r\n";

// Many plans of the four nodes that are a step apart cost 5; this is the first of them.
const FIVE_STEPS: &str = "Route #1: 2\nRoute #2: 3 4\nCost 5\nProven\n";

const SINGLES: &str = "Route #1: 2\nRoute #2: 3\nCost 30\nProven\n";

const TWELVE: &str = "Route #1: 2\nRoute #2: 3\nRoute #3: 4\nCost 12\nProven\n";

const FOURTEEN: &str = "Route #1: 2\nRoute #2: 3\nRoute #3: 4\nCost 14\nProven\n";

// Two depots, four customers of demand 1 each, and trucks that carry two of them.
const SIX: &str =
    "TYPE : CVRP\nDIMENSION : 6\nEDGE_WEIGHT_TYPE : EUC_2D\nCAPACITY : 2\nNODE_COORD_SECTION\n1 0 0\n2 8 0\n3 4 3\n4 8 6\n5 12 3\n6 8 2\nDEMAND_SECTION\n1 0\n2 0\n3 1\n4 1\n5 1\n6 1\nDEPOT_SECTION\n1 2\n-1\nEOF\n";

/// The exit status, and all output on standard output and standard error.
pub(crate) type End<'a> = (u8, &'a str, &'a str);

/// Asserts the outcome of the program with these words over a text.
pub(crate) fn assert_run_by<R: Abort + Files + Threads + Wait + Clock + Eprint + Sync>(
    rt: &R,
    alloc: Global,
    words: &[&str],
    text: &str,
    (status, printed, told): End<'_>,
) {
    let mut input = text.as_bytes();
    let mut output = Vec::new(alloc);
    let mut errors = Vec::new(alloc);
    let resources = Resources::new(rt, alloc, &NoGate);
    let ended = run_arguments(&resources, words, &mut input, &mut output, &mut errors);
    assert_same(rt, ended, status, words);
    assert_same(rt, output.as_slice(), printed.as_bytes(), words);
    assert_same(rt, errors.as_slice(), told.as_bytes(), words);
}

// A file, a text in it and its replacement, and the report without words.
const PLAIN_RUNS: &[(&str, &str, &str, &str)] = &[
    (SMALL, "EOF", "EOF", REPORT),
    (SMALL, "CAPACITY : 2", "CAPACITY : 1", SINGLES),
    (SMALL, "\n2 1\n", "\n2 2\n", SINGLES),
    (ALONE, "EOF", "EOF", "Cost 0\nProven\n"),
    (
        ONE_DIRECTION,
        "EOF",
        "EOF",
        "Route #1: 2 3\nCost 3\nProven\n",
    ),
    (TRIANGLE, "EOF", "EOF", TWELVE),
    (TRIANGLE, "UPPER_ROW", "LOWER_COL", TWELVE),
    (TRIANGLE, "UPPER_ROW", "LOWER_ROW", FOURTEEN),
    (TRIANGLE, "UPPER_ROW", "UPPER_COL", FOURTEEN),
    (CORNER, "EOF", "EOF", "Route #1: 2\nCost 2\nProven\n"),
    (CORNER, "EUC_2D", "CEIL_2D", "Route #1: 2\nCost 4\nProven\n"),
    (CORNER, "EUC_2D", "MAN_2D", "Route #1: 2\nCost 4\nProven\n"),
    (CORNER, "EUC_2D", "MAX_2D", "Route #1: 2\nCost 2\nProven\n"),
    (CORNER, "EUC_2D", "ATT", "Route #1: 2\nCost 2\nProven\n"),
    (TEN_STEPS, "EOF", "EOF", "Route #1: 2\nCost 8\nProven\n"),
    (
        FAR_CORNER,
        "EOF",
        "EOF",
        "Route #1: 2\nCost 565685424\nProven\n",
    ),
    (
        FAR_CORNER,
        "EUC_2D",
        "CEIL_2D",
        "Route #1: 2\nCost 565685426\nProven\n",
    ),
    (
        FAR_CORNER,
        "EUC_2D",
        "MAN_2D",
        "Route #1: 2\nCost 800000000\nProven\n",
    ),
    (
        FAR_CORNER,
        "EUC_2D",
        "MAX_2D",
        "Route #1: 2\nCost 400000000\nProven\n",
    ),
    (
        FAR_CORNER,
        "EUC_2D",
        "ATT",
        "Route #1: 2\nCost 178885440\nProven\n",
    ),
    (OTHER_SPELLING, "EOF", "EOF", REPORT),
    (SMALL, "EOF\n", "", REPORT),
    (SMALL, "-1\nEOF\n", "-1", REPORT),
    (DEPOTS, "EOF", "EOF", "Route #1: 3\nCost 20\nProven\n"),
    (FOUR, "EOF", "EOF", "Route #1: 2 3 4\nCost 20\nProven\n"),
    (THREE, "EOF", "EOF", TWELVE),
];

#[test]
fn without_words(rt: HostRuntime) {
    for &(file, old, new, report) in PLAIN_RUNS {
        assert_changed(&rt, rt.alloc(), &[], (file, old, new), (0, report, ""));
    }
}

/// Asserts the outcome of the program with these words over a file with one text replaced.
fn assert_changed<R: Abort + Files + Threads + Wait + Clock + Eprint + Sync>(
    rt: &R,
    alloc: Global,
    words: &[&str],
    (file, old, new): (&str, &str, &str),
    end: End<'_>,
) {
    let text = with(rt, alloc, file, old, new);
    assert_run_by(rt, alloc, words, text.as_str(), end);
}

// A text in the small file and its replacement, and the line on standard error.
const REFUSED: &[(&str, &str, &str)] = &[
    (
        "\n2 3 4\n",
        "\n2 3.5 4\n",
        "cvrp: line 9: number is not whole\n",
    ),
    (
        "\n2 1\n",
        "\n2 3\n",
        "cvrp: node 2: demand above capacity\n",
    ),
    (
        "CAPACITY : 2\n",
        "CAPACITY : 2\nCAPACITY : 2\n",
        "cvrp: line 7: repeated keyword\n",
    ),
    ("CAPACITY : 2\n", "", "cvrp: missing CAPACITY\n"),
    ("\n3 1\n", "\n", "cvrp: wrong count in DEMAND_SECTION\n"),
    (
        "\n2 1\n3 1\nDEPOT_SECTION\n1\n-1\nEOF\n",
        "\n2 1\n",
        "cvrp: missing DEPOT_SECTION\n",
    ),
    (SMALL, "", "cvrp: missing TYPE\n"),
    (
        "CAPACITY : 2\n",
        "CAPACITY : 2\nVEHICLES : 2\n",
        "cvrp: line 7: unknown keyword\n",
    ),
    ("EUC_2D", "GEO", "cvrp: line 5: not supported\n"),
    (
        "CAPACITY : 2\n",
        "CAPACITY : 2\n5\n",
        "cvrp: line 7: data outside a section\n",
    ),
];

// No report is written, for any words.
#[test]
fn refused_files(rt: HostRuntime) {
    for &(old, new, told) in REFUSED {
        let (file, end) = ((SMALL, old, new), (3, "", told));
        assert_changed(&rt, rt.alloc(), &[], file, end);
        assert_changed(&rt, rt.alloc(), &["--workers", "2"], file, end);
    }
}

// With any number of workers and pieces the report is the same.
#[test]
fn crews(rt: HostRuntime) {
    for workers in ["1", "2", "8"] {
        for pieces in ["1", "2", "64", "65536"] {
            assert_crew(&rt, rt.alloc(), workers, pieces);
        }
    }
}

// Asserts the reports of this many workers over this many pieces.
fn assert_crew<R: Abort + Files + Threads + Wait + Clock + Eprint + Sync>(
    rt: &R,
    alloc: Global,
    workers: &str,
    pieces: &str,
) {
    let words = ["--workers", workers, "--pieces", pieces];
    let four = "Route #1: 2 3 4\nCost 20\nProven\n";
    for (text, report) in [(SMALL, REPORT), (FOUR, four), (STEPS, FIVE_STEPS)] {
        assert_run_by(rt, alloc, &words, text, (0, report, ""));
    }
}

// The message for a user who gives a file's name.
const NO_FILE: &str =
    "error: unexpected argument 'a.vrp' found\n\nUsage: cvrp [OPTIONS] < FILE\n\nThe file comes on standard input.\n\nFor more information, try '--help'.\ncvrp: hint: a file comes on standard input, as in cvrp < a.vrp\n";

const NO_WORKERS: &str =
    "error: invalid value '0' for '--workers <THREADS>': 0 is not in 1..=64\n\nFor more information, try '--help'.\ncvrp: hint: --workers takes a whole number from 1 to 64\n";

// Words between blanks, a file, and the outcome of the program.
const BY_WORDS: &[(&str, &str, End<'static>)] = &[
    ("--", SMALL, (0, REPORT, "")),
    // given both a budget and a number of pieces: with only one of them the plan is proven
    (
        "--budget 1 --pieces 1",
        SMALL,
        (1, "Route #1: 2\nRoute #2: 3\nCost 30\nOpen 20\n", ""),
    ),
    ("--budget 1", SMALL, (0, REPORT, "")),
    ("--pieces 1", SMALL, (0, REPORT, "")),
    ("--budget 1 --pieces 65536", SMALL, (0, REPORT, "")),
    (
        "--depot 1",
        DEPOTS,
        (0, "Route #1: 3\nCost 20\nProven\n", ""),
    ),
    (
        "--depot 2",
        DEPOTS,
        (0, "Route #1: 3\nCost 10\nProven\n", ""),
    ),
    ("--depot 3", DEPOTS, (3, "", "cvrp: node 3: not a depot\n")),
    ("--trucks 2", THREE, (0, "NoPlan\n", "")),
    ("--trucks 3", THREE, (0, TWELVE, "")),
    ("--version", SMALL, (0, "cvrp 1.0.0\n", "")),
    ("a.vrp", SMALL, (2, "", NO_FILE)),
    ("--workers 0", SMALL, (2, "", NO_WORKERS)),
    // all options, and all but one: the first customers alone make four pieces, of at least 19, 20, 19 and 27; from the other
    // depot of at least 39, 37, 41 and 37
    (
        "--workers 2 --depot 2 --trucks 3 --pieces 4 --budget 4",
        SIX,
        (1, "Open 19\n", ""),
    ),
    (
        "--depot 2 --trucks 3 --pieces 4 --budget 4",
        SIX,
        (1, "Open 19\n", ""),
    ),
    (
        "--workers 2 --trucks 3 --pieces 4 --budget 4",
        SIX,
        (1, "Open 37\n", ""),
    ),
    (
        "--workers 2 --depot 2 --pieces 4 --budget 4",
        SIX,
        (
            1,
            "Route #1: 3\nRoute #2: 4\nRoute #3: 5\nRoute #4: 6\nCost 36\nOpen 19\n",
            "",
        ),
    ),
    (
        "--workers 2 --depot 2 --trucks 3 --budget 4",
        SIX,
        (0, "Route #1: 3 4\nRoute #2: 5 6\nCost 27\nProven\n", ""),
    ),
    (
        "--workers 2 --depot 2 --trucks 3 --pieces 4",
        SIX,
        (0, "Route #1: 3 4\nRoute #2: 5 6\nCost 27\nProven\n", ""),
    ),
];

#[test]
fn by_words(rt: HostRuntime) {
    for &(line, text, end) in BY_WORDS {
        assert_line(&rt, rt.alloc(), line, text, end);
    }
}

// Asserts the outcome for words between blanks.
fn assert_line<R: Abort + Files + Threads + Wait + Clock + Eprint + Sync>(
    rt: &R,
    alloc: Global,
    line: &str,
    text: &str,
    end: End<'_>,
) {
    let words: Vec<&str> = line.split(' ').collect(alloc).expect(rt, "memory");
    assert_run_by(rt, alloc, &words, text, end);
}

// How often a worker may check whether the others have begun.
const TURNS: u64 = 1_000_000;

// Holds each piece until this many have begun, or it has checked too often. A worker that is held begins no other piece.
#[derive(Drop)]
struct HoldsAll {
    wanted: u64,
    begun: AtomicU64,
    // How many pieces were released only because they had checked too often.
    let_go: AtomicU64,
}

impl Gate for HoldsAll {
    fn begins(&self, _worker: u32, _piece: u32) {
        self.begun.fetch_add(1, Ordering::SeqCst);
        for _ in 0..TURNS {
            if self.wanted <= self.begun.load(Ordering::SeqCst) {
                return;
            }
            yield_now();
        }
        self.let_go.fetch_add(1, Ordering::SeqCst);
    }
}

// Seven customers on a line, a step apart.
const LINE: &str =
    "TYPE : CVRP\nDIMENSION : 8\nEDGE_WEIGHT_TYPE : EUC_2D\nCAPACITY : 7\nNODE_COORD_SECTION\n1 0 0\n2 1 0\n3 2 0\n4 3 0\n5 4 0\n6 5 0\n7 6 0\n8 7 0\nDEMAND_SECTION\n1 0\n2 1\n3 1\n4 1\n5 1\n6 1\n7 1\n8 1\nDEPOT_SECTION\n1\n-1\nEOF\n";

// As many workers are at work at once as the words request.
#[test]
fn by_workers(rt: HostRuntime) {
    for (workers, wanted) in [("1", 1), ("2", 2), ("3", 3), ("64", 64)] {
        let words = ["--workers", workers, "--budget", "1"];
        assert_all_begin(&rt, rt.alloc(), &words, wanted);
    }
}

// One worker never counts as two, however long it waits: this test must fail.
#[test]
#[should_panic(expected = "1 is not 0")]
fn one_worker_waits_for_two(rt: HostRuntime) {
    let words = ["--workers", "1", "--budget", "1", "--pieces", "1"];
    assert_all_begin(&rt, rt.alloc(), &words, 2);
}

// Asserts that this many pieces are begun before any is released, with these words.
fn assert_all_begin<R: Abort + Files + Threads + Wait + Clock + Eprint + Sync>(
    rt: &R,
    alloc: Global,
    words: &[&str],
    wanted: u64,
) {
    let gate = HoldsAll {
        wanted,
        begun: AtomicU64::new(0),
        let_go: AtomicU64::new(0),
    };
    let mut input = LINE.as_bytes();
    let mut output = Vec::new(alloc);
    let mut errors = Vec::new(alloc);
    let resources = Resources::new(rt, alloc, &gate);
    let ended = run_arguments(&resources, words, &mut input, &mut output, &mut errors);
    assert_same(rt, ended, 1, wanted);
    assert_same(rt, gate.let_go.load(Ordering::SeqCst), 0, wanted);
}

// Sixty customers on a lattice, all of whom fit on a truck.
fn lattice(alloc: Global) -> Result<String, AllocError> {
    let mut text = String::from_str(
        alloc,
        "TYPE : CVRP\nDIMENSION : 61\nEDGE_WEIGHT_TYPE : EUC_2D\nCAPACITY : 60\nNODE_COORD_SECTION\n1 50 50\n",
    )?;
    for node in 2..62u32 {
        let (x, y) = (node * 37 % 101, node * 59 % 103);
        write!(text, "{node} {x} {y}\n")?;
    }
    text.push_str("DEMAND_SECTION\n1 0\n")?;
    for node in 2..62u32 {
        write!(text, "{node} 1\n")?;
    }
    text.push_str("DEPOT_SECTION\n1\n-1\nEOF\n")?;
    Ok(text)
}

// A search that would take days ends when its time is up, and prints what it has. Without the limit this test wouldn't end.
#[test]
fn by_seconds(rt: HostRuntime) {
    let text = lattice(rt.alloc()).expect(&rt, "memory");
    let words = ["--seconds", "1", "--workers", "2"];
    let mut input = text.as_bytes();
    let mut output = Vec::new(rt.alloc());
    let mut errors = Vec::new(rt.alloc());
    let resources = Resources::new(&rt, rt.alloc(), &NoGate);
    let ended = run_arguments(&resources, &words, &mut input, &mut output, &mut errors);
    assert_same(&rt, ended, 1, "the status");
    assert!(rt; output.starts_with(b"Route #1: ") && errors.is_empty());
}
