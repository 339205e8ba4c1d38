//! Requests over files in memory, and their outcomes.
ghost use Rattle.vrp_command_request.specs.Options.{AreInRange};

use crate::assertion::assert_same;
use crate::command::fixture::{REPORT, SMALL};
use crate::command::plans::STEPS;
use std::alloc::Global;
use std::io::Eprint;
use std::process::Abort;
use std::str;
use std::sync::Wait;
use std::thread::Threads;
use std::time::Clock;
use vrp_command::{
    Format, NoGate, Options, Request, RequestError, Resources, RunError, StartError, StartFile,
    Status, run_request,
};
use vrp_plan_text::SolutionError;
use vrp_text::TextError;

// The effort of a search.
#[derive(Clone, Copy)]
enum Search {
    // As much as without options.
    Default,
    // One partial plan of one piece: the plan stays open.
    Little,
}

impl Search {
    ghost use Rattle.vrp_command_request.specs.Options.{AreInRange};

    fn options(self) -> Options
        ensures { AreInRange result }
    {
        match self {
            Search::Default => Options {
                workers: 1,
                pieces: 64,
                budget: 10_000_000,
                depot: None,
                trucks: None,
            },
            Search::Little => Options {
                workers: 1,
                pieces: 1,
                budget: 1,
                depot: None,
                trucks: None,
            },
        }
    }
}

// A request: the effort, whether the start plan is only to be checked, and the output form.
#[derive(Clone, Copy)]
struct Asked(Search, bool, Format);

const PLAIN: Asked = Asked(Search::Default, false, Format::Report);

const LITTLE: Asked = Asked(Search::Little, false, Format::Report);

const CHECK: Asked = Asked(Search::Default, true, Format::Report);

const SOLUTION: Asked = Asked(Search::Default, false, Format::Solution);

const JSON_LITTLE: Asked = Asked(Search::Little, false, Format::Json);

const JSON_CHECK: Asked = Asked(Search::Default, true, Format::Json);

const PICTURE: Asked = Asked(Search::Default, false, Format::Picture);

// The file of a start plan, in memory.
#[derive(Clone, Copy)]
enum Start {
    Nothing,
    Unopened,
    Text(&'static str),
}

impl Start {
    fn file(self) -> Option<StartFile<&'static [u8]>> {
        match self {
            Start::Nothing => None,
            Start::Unopened => Some(StartFile::Unopened),
            Start::Text(text) => Some(StartFile::Opened(text.as_bytes())),
        }
    }
}

// The request, the file, the start plan, the outcome, and the output.
type Row = (
    Asked,
    &'static str,
    Start,
    Result<Status, RequestError>,
    &'static str,
);

// Two routes are the costlier plan of the small file, and the only one with capacity 1.
const TWO: Start = Start::Text("Route #1: 2\nRoute #2: 1\nCost 30\n");

const REQUESTS: &[Row] = &[
    (PLAIN, SMALL, Start::Nothing, Ok(Status::Proven), REPORT),
    (PLAIN, SMALL, TWO, Ok(Status::Proven), REPORT),
    (
        LITTLE,
        SMALL,
        Start::Nothing,
        Ok(Status::Open),
        "Route #1: 2\nRoute #2: 3\nCost 30\nOpen 20\n",
    ),
    // no printed plan costs more than the start plan
    (
        LITTLE,
        SMALL,
        Start::Text("Route #1: 2 1\n"),
        Ok(Status::Open),
        "Route #1: 2 3\nCost 20\nOpen 20\n",
    ),
    (
        CHECK,
        SMALL,
        TWO,
        Ok(Status::Lawful),
        "Route #1: 2\nRoute #2: 3\nCost 30\nLawful\n",
    ),
    // without a plan there is nothing to check
    (CHECK, SMALL, Start::Nothing, Ok(Status::Proven), REPORT),
    (
        SOLUTION,
        SMALL,
        Start::Nothing,
        Ok(Status::Proven),
        "Route #1: 1 2\nCost 20\n",
    ),
    // the pieces' bound is the best one if no other is known
    (
        JSON_LITTLE,
        SMALL,
        Start::Nothing,
        Ok(Status::Open),
        "{\"best_lower_bound\":20,\"capacity\":2,\"cost\":30,\"cost_is_least\":false,\"customers\":2,\"depot\":1,\"gap\":5000,\"lower_bound\":20,\"name\":\"A\",\"options\":{\"budget\":null,\"depot\":null,\"pieces\":1,\"seconds\":null,\"trucks\":null,\"workers\":1},\"routes\":[{\"cost\":10,\"customers\":[1],\"load\":1,\"nodes\":[2]},{\"cost\":20,\"customers\":[2],\"load\":1,\"nodes\":[3]}],\"stated_cost\":null,\"verdict\":\"Open\",\"version\":\"1.0.0\"}\n",
    ),
    // no bound is known for a plan that is only checked
    (
        JSON_CHECK,
        SMALL,
        TWO,
        Ok(Status::Lawful),
        "{\"best_lower_bound\":null,\"capacity\":2,\"cost\":30,\"cost_is_least\":null,\"customers\":2,\"depot\":1,\"gap\":null,\"lower_bound\":null,\"name\":\"A\",\"options\":{\"budget\":null,\"depot\":null,\"pieces\":64,\"seconds\":null,\"trucks\":null,\"workers\":1},\"routes\":[{\"cost\":10,\"customers\":[1],\"load\":1,\"nodes\":[2]},{\"cost\":20,\"customers\":[2],\"load\":1,\"nodes\":[3]}],\"stated_cost\":30,\"verdict\":\"Lawful\",\"version\":\"1.0.0\"}\n",
    ),
    (
        CHECK,
        SMALL,
        Start::Unopened,
        Err(RequestError::Start(StartError::Read)),
        "",
    ),
    (
        CHECK,
        SMALL,
        Start::Text("Route #1: 1\n"),
        Err(RequestError::Start(StartError::Refused(SolutionError::NotServed(2)))),
        "",
    ),
    // a fault of the file is reported first
    (
        CHECK,
        "",
        Start::Unopened,
        Err(RequestError::Run(RunError::Text(TextError::Missing(vrp_text::Key::Problem)))),
        "",
    ),
    // a file of weights has no coordinates, for any plan
    (
        PICTURE,
        STEPS,
        Start::Unopened,
        Err(RequestError::NoPoints),
        "",
    ),
];

#[test]
fn requests(rt: HostRuntime) {
    for row in REQUESTS {
        assert_request(&rt, rt.alloc(), row);
    }
}

fn assert_request<R: Abort + Threads + Wait + Clock + Eprint + Sync>(
    rt: &R,
    alloc: Global,
    (asked, text, start, wanted, printed): &Row,
) {
    let Asked(search, check, format) = *asked;
    let request = Request {
        options: search.options(),
        check,
        format,
        ..Request::report(Options::default())
    };
    let ran = run(rt, alloc, request, start.file(), text);
    assert_same(rt, ran.ended, *wanted, printed);
    assert_same(rt, ran.output.as_slice(), printed.as_bytes(), printed);
    assert!(rt; ran.errors.is_empty(), "{printed}");
}

// The outcome of a request, and its output.
#[derive(Drop)]
struct Ran {
    ended: Result<Status, RequestError>,
    output: Vec<u8>,
    errors: Vec<u8>,
}

// Runs a request over a text.
fn run<R: Abort + Threads + Wait + Clock + Eprint + Sync>(
    rt: &R,
    alloc: Global,
    request: Request<'_>,
    start: Option<StartFile<&[u8]>>,
    text: &str,
) -> Ran
    requires { AreInRange request.options }
{
    let mut input = text.as_bytes();
    let mut output = Vec::new(alloc);
    let mut errors = Vec::new(alloc);
    let resources = Resources::new(rt, alloc, &NoGate);
    let ended = run_request(
        &resources,
        request,
        start,
        &mut input,
        &mut output,
        &mut errors,
    );
    Ran {
        ended,
        output,
        errors,
    }
}

// The effort of a search, and a part of the last line of progress.
const LAST_LINES: &[(Search, &str)] = &[
    (
        Search::Default,
        " s, Proven, cost 20, lower bound 20.00, gap 0.00%",
    ),
    (Search::Little, " s, Open, cost 30"),
];

// The last line of progress has the verdict of the report.
#[test]
fn last_lines(rt: HostRuntime) {
    for &(search, wanted) in LAST_LINES {
        assert_last_line(&rt, rt.alloc(), search, wanted);
    }
}

fn assert_last_line<R: Abort + Threads + Wait + Clock + Eprint + Sync>(
    rt: &R,
    alloc: Global,
    search: Search,
    wanted: &str,
) {
    let request = Request {
        options: search.options(),
        progress: true,
        ..Request::report(Options::default())
    };
    let ran = run(rt, alloc, request, Start::Nothing.file(), SMALL);
    let told = str::from_utf8(&ran.errors).expect(rt, "text");
    assert!(rt; ran.ended.is_ok() && told.contains(wanted), "{told}");
}
