//! Command lines: their requests, and their refusals.
use crate::assertion::assert_same;
use clap::Error;
use std::alloc::{AllocError, Global};
use std::io;
use std::io::ErrorKind;
use std::process::Abort;
use vrp_command::{
    Format, LineFault, MAX_BUDGET, MAX_PIECES, MAX_SECONDS, MAX_WORKERS, Options, Request,
    argument_fault, end_without_run, line_status, parse_request, parse_words, unread_line_fault,
};
use vrp_model::MAX_NODES;

// The default options.
const DEFAULT: Options = Options {
    workers: 1,
    pieces: 64,
    budget: 10_000_000,
    depot: None,
    trucks: None,
};

// Asserts that these words give these options.
fn assert_options(rt: &impl Abort, alloc: Global, words: &[&str], wanted: Options) {
    match parse_words(alloc, words) {
        Ok(options) => assert_same(rt, options, wanted, words),
        Err(_) => assert!(rt; false, "{words:?} is refused"),
    }
}

// Words, and the options that they give.
const OPTIONS: &[(&[&str], Options)] = &[
    (&[], DEFAULT),
    (&["--"], DEFAULT),
    (&["--workers", "1"], DEFAULT),
    (
        &["--workers", "64"],
        Options {
            workers: MAX_WORKERS,
            ..DEFAULT
        },
    ),
    (&["--workers=2"], TWO_WORKERS),
    (&["--workers", "02"], TWO_WORKERS),
    (&["--workers", "+2"], TWO_WORKERS),
    (
        &["--pieces", "1"],
        Options {
            pieces: 1,
            ..DEFAULT
        },
    ),
    (
        &["--pieces", "65536"],
        Options {
            pieces: MAX_PIECES,
            ..DEFAULT
        },
    ),
    (
        &["--budget", "1"],
        Options {
            budget: 1,
            ..DEFAULT
        },
    ),
    (
        &["--budget", "1000000000000"],
        Options {
            budget: MAX_BUDGET,
            ..DEFAULT
        },
    ),
    (
        &["--depot", "1"],
        Options {
            depot: Some(1),
            ..DEFAULT
        },
    ),
    (
        &["--depot", "1200"],
        Options {
            depot: Some(MAX_NODES),
            ..DEFAULT
        },
    ),
    (
        &["--trucks", "1"],
        Options {
            trucks: Some(1),
            ..DEFAULT
        },
    ),
    (
        &["--trucks", "1200"],
        Options {
            trucks: Some(MAX_NODES),
            ..DEFAULT
        },
    ),
    (
        &[
            "--trucks",
            "5",
            "--depot",
            "4",
            "--budget",
            "3",
            "--pieces",
            "2",
            "--workers",
            "7",
        ],
        Options {
            workers: 7,
            pieces: 2,
            budget: 3,
            depot: Some(4),
            trucks: Some(5),
        },
    ),
];

const TWO_WORKERS: Options = Options {
    workers: 2,
    ..DEFAULT
};

#[test]
fn all_options(rt: HostRuntime) {
    for &(words, options) in OPTIONS {
        assert_options(&rt, rt.alloc(), words, options);
    }
}

// Words, and their request besides the options: the seconds, the budget, whether it is given, and whether to report progress.
const LIMITS: &[(&[&str], Option<u32>, u64, bool, bool)] = &[
    (&[], None, 10_000_000, false, false),
    (&["--seconds", "1"], Some(1), MAX_BUDGET, false, false),
    (
        &["--seconds", "1000000"],
        Some(MAX_SECONDS),
        MAX_BUDGET,
        false,
        false,
    ),
    (
        &["--seconds", "5", "--budget", "3"],
        Some(5),
        3,
        true,
        false,
    ),
    (&["--budget=10000000"], None, 10_000_000, true, false),
    (&["--progress"], None, 10_000_000, false, true),
    (
        &["--progress", "--seconds", "5"],
        Some(5),
        MAX_BUDGET,
        false,
        true,
    ),
];

// Asserts that these words make this request.
fn assert_request<'a>(rt: &impl Abort, alloc: Global, words: &'a [&'a str], wanted: Request<'a>) {
    match parse_request(alloc, words) {
        Ok(request) => assert!(rt; request == wanted, "{words:?}: {request:?}"),
        Err(_) => assert!(rt; false, "{words:?} is refused"),
    }
}

// A limit of seconds is the only limit, unless a budget is given.
#[test]
fn seconds(rt: HostRuntime) {
    for (words, seconds, budget, states_budget, progress) in LIMITS {
        let wanted = Request {
            options: Options {
                budget: *budget,
                ..DEFAULT
            },
            states_budget: *states_budget,
            seconds: *seconds,
            progress: *progress,
            ..Request::report(DEFAULT)
        };
        assert_request(&rt, rt.alloc(), words, wanted);
    }
}

// Words that name a start plan, and whether it is only checked.
const STARTS: &[(&[&str], bool)] = &[
    (&["--start", "a.sol"], false),
    (&["--start=a.sol"], false),
    (&["--start", "a.sol", "--check"], true),
    (&["--check", "--start", "a.sol"], true),
];

#[test]
fn starts(rt: HostRuntime) {
    for (words, check) in STARTS {
        let wanted = Request {
            start: Some("a.sol"),
            check: *check,
            ..Request::report(DEFAULT)
        };
        assert_request(&rt, rt.alloc(), words, wanted);
    }
}

// Words that name a form.
const FORMATS: &[(&[&str], Format)] = &[
    (&["--format", "report"], Format::Report),
    (&["--format", "sol"], Format::Solution),
    (&["--format=json"], Format::Json),
    (&["--format", "svg"], Format::Picture),
];

#[test]
fn formats(rt: HostRuntime) {
    for (words, format) in FORMATS {
        let wanted = Request {
            format: *format,
            ..Request::report(DEFAULT)
        };
        assert_request(&rt, rt.alloc(), words, wanted);
    }
}

// Asserts that these words are refused, and the beginning of the message.
fn assert_refused(rt: &impl Abort, alloc: Global, words: &[&str], begins: &str) {
    match parse_words(alloc, words) {
        Err(LineFault::Refused(text)) => {
            assert!(rt; text.as_str().starts_with(begins), "{words:?}: {text}");
            assert!(rt;
                text.as_str()
                    .ends_with("\n\nFor more information, try '--help'.\n")
            );
        }
        _ => assert!(rt; false, "{words:?} is not refused"),
    }
}

// The beginning of the message for a value of another kind or out of its range.
const INVALID: &str = "error: invalid value";

const FILE_NAMED: &str =
    "error: unexpected argument 'a.vrp' found\n\nUsage: cvrp [OPTIONS] < FILE\n\nThe file comes on standard input.\n";

// Words, and the beginning of the message that refuses them.
const REFUSED: &[(&[&str], &str)] = &[
    // A number out of its range.
    (
        &["--workers", "0"],
        "error: invalid value '0' for '--workers <THREADS>': 0 is not in 1..=64\n",
    ),
    (&["--workers", "65"], INVALID),
    (&["--pieces", "0"], INVALID),
    (&["--pieces", "65537"], INVALID),
    (&["--budget", "0"], INVALID),
    (&["--budget", "1000000000001"], INVALID),
    (&["--seconds", "0"], INVALID),
    (&["--seconds", "1000001"], INVALID),
    (&["--depot", "0"], INVALID),
    (&["--depot", "1201"], INVALID),
    (&["--trucks", "0"], INVALID),
    (&["--trucks", "1201"], INVALID),
    // Not a number, no value, or two values.
    (&["--workers", " 2"], INVALID),
    (&["--workers", "2.0"], INVALID),
    (&["--workers="], INVALID),
    (&["--workers", "-2"], "error: unexpected argument"),
    (&["--workers"], "error: a value is required"),
    (&["--work", "2"], "error: unexpected argument"),
    (
        &["--pieces", "2", "--pieces", "2"],
        "error: the argument '--pieces <PIECES>' cannot",
    ),
    // A user who gives a file's name is told that the file comes on standard input.
    (&["a.vrp"], FILE_NAMED),
    (&["--pieces", "2", "a.vrp"], FILE_NAMED),
    (&[""], "error: unexpected argument '' found\n"),
    (&["-w"], "error: unexpected argument '-w' found\n"),
    // A form that doesn't exist, and a check without a plan.
    (
        &["--format", "pdf"],
        "error: invalid value 'pdf' for '--format <FORM>'\n  [possible values: report, sol, json, svg]\n",
    ),
    (&["--format"], "error: a value is required"),
    (
        &["--check"],
        "error: the following required arguments were not provided:\n  --start <FILE>\n",
    ),
];

#[test]
fn refused_words(rt: HostRuntime) {
    for &(words, begins) in REFUSED {
        assert_refused(&rt, rt.alloc(), words, begins);
    }
}

// The help printed for these words.
fn help(rt: &impl Abort, alloc: Global, words: &[&str]) -> String {
    help_of(parse_words(alloc, words)).expect(rt, "a help")
}

fn help_of(answer: Result<Options, LineFault>) -> Option<String> {
    match answer {
        Err(LineFault::Help(text)) => Some(text),
        _ => None,
    }
}

#[test]
fn helps(rt: HostRuntime) {
    let long = help(&rt, rt.alloc(), &["--help"]);
    let short = help(&rt, rt.alloc(), &["-h"]);
    assert_same(&rt, long.as_str(), short.as_str(), "both helps");
    assert!(rt;
        long.as_str()
            .starts_with("Plans the routes of delivery trucks.")
    );
    assert!(rt; long.as_str().contains("cvrp --workers 4 < FILE\n"));
    let version = help(&rt, rt.alloc(), &["--version"]);
    assert_same(&rt, version.as_str(), "cvrp 1.0.0\n", "the version");
}

#[test]
fn helps_tell_ranges_and_defaults(rt: HostRuntime) {
    let help = help(&rt, rt.alloc(), &["--help"]);
    let default = Options::default();
    let ranges = [
        (u64::from(MAX_WORKERS), u64::from(default.workers)),
        (u64::from(MAX_PIECES), u64::from(default.pieces)),
        (MAX_BUDGET, default.budget),
    ];
    for (most, default) in ranges {
        let told = format!(in rt.alloc(); "From 1 to {most}; default {default}.\n").expect(
            &rt, "memory",
        );
        assert!(rt; help.as_str().contains(told.as_str()), "{told}");
    }
    for most in [u32::from(MAX_NODES), MAX_SECONDS] {
        let told = format!(in rt.alloc(); "From 1 to {most}; default is").expect(&rt, "memory");
        assert!(rt; help.as_str().contains(told.as_str()), "{told}");
    }
}

// The help lists the program's exit statuses, and its last line ends.
#[test]
fn helps_tell_statuses(rt: HostRuntime) {
    let help = help(&rt, rt.alloc(), &["--help"]);
    let told =
        "\nExit statuses:\n  0  Proven, NoPlan, Lawful, or this help\n  1  Open\n  2  the command line is refused\n  3  the file is refused, or the plan of --start\n  4  no memory\n  5  a read or a write failed\n";
    assert!(rt; help.as_str().contains(told));
    assert!(rt; help.as_str().ends_with("< examples/E-n51-k5.vrp\n"));
}

#[test]
fn statuses(rt: HostRuntime) {
    assert_same(
        &rt,
        line_status(&LineFault::Help(String::new(rt.alloc()))),
        0,
        "help",
    );
    assert_same(
        &rt,
        line_status(&LineFault::Refused(String::new(rt.alloc()))),
        2,
        "a refusal",
    );
    assert_same(&rt, line_status(&LineFault::OutOfMemory), 4, "no memory");
}

// Asserts the message of a fault, which prints nothing on standard output, and its status.
fn assert_told(rt: &impl Abort, alloc: Global, fault: &LineFault, status: u8, told: &str) {
    let mut output = Vec::new(alloc);
    let mut errors = Vec::new(alloc);
    assert_same(
        rt,
        end_without_run(fault, &mut output, &mut errors),
        status,
        told,
    );
    assert!(rt; output.is_empty());
    assert_same(rt, errors.as_slice(), told.as_bytes(), told);
}

// A word that is not text is refused; lack of memory is reported as such, wherever it comes.
#[test]
fn words_that_cannot_be_had(rt: HostRuntime) {
    let no_text =
        "error: an argument on the command line is no text (not UTF-8)\n\nFor more information, try '--help'.\n";
    let fault = unread_line_fault(rt.alloc(), &io::Error::from(ErrorKind::InvalidData));
    assert_told(&rt, rt.alloc(), &fault, 2, no_text);
    let no_memory = "cvrp: out of memory\n";
    let fault = unread_line_fault(rt.alloc(), &io::Error::from(ErrorKind::OutOfMemory));
    assert_told(&rt, rt.alloc(), &fault, 4, no_memory);
    let fault = argument_fault(rt.alloc(), &Error::from(AllocError));
    assert_told(&rt, rt.alloc(), &fault, 4, no_memory);
    let fault = LineFault::from(AllocError);
    assert_told(&rt, rt.alloc(), &fault, 4, no_memory);
}
