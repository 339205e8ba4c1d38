//! The options, the texts and the exit statuses, and refused allocations.
use crate::assertion::assert_same;
use crate::command::fixture::{REPORT, SMALL};
use std::alloc::Global;
use std::process::Abort;
use vrp_command::{
    Options, RequestError, RunError, StartError, Status, end, exit_status, fault_line, run,
};
use vrp_model::InstanceError;
use vrp_plan_text::SolutionError;
use vrp_text::{Key, TextError};

#[test]
fn default_options(rt: HostRuntime) {
    let options = Options {
        workers: 1,
        pieces: 64,
        budget: 10_000_000,
        depot: None,
        trucks: None,
    };
    assert_same(&rt, Options::default(), options, "the defaults");
}

// An outcome, its status, and its message on standard error.
const OUTCOMES: &[(Result<Status, RunError>, u8, &str)] = &[
    (Ok(Status::Proven), 0, ""),
    (Ok(Status::NoPlan), 0, ""),
    (Ok(Status::Open), 1, ""),
    (Ok(Status::Lawful), 0, ""),
    (
        Err(RunError::Text(TextError::TooLong)),
        3,
        "cvrp: input too long\n",
    ),
    (Err(RunError::OutOfMemory), 4, "cvrp: out of memory\n"),
    (Err(RunError::Read), 5, "cvrp: read fault\n"),
    (Err(RunError::Write), 5, "cvrp: write fault\n"),
];

#[test]
fn outcomes(rt: HostRuntime) {
    for &(outcome, status, told) in OUTCOMES {
        let mut errors = Vec::new(rt.alloc());
        assert_same(&rt, exit_status(&outcome), status, told);
        let asked = outcome.map_err(RequestError::Run);
        assert_same(&rt, end(rt.alloc(), &asked, &mut errors), status, told);
        assert_same(&rt, errors.as_slice(), told.as_bytes(), told);
    }
}

// Why a request has no answer though its file is read, the status, and the message.
const NOT_ANSWERED: &[(RequestError, u8, &str)] = &[
    (
        RequestError::Start(StartError::Read),
        5,
        "cvrp: start plan: read fault\n",
    ),
    (
        RequestError::Start(StartError::TooLong),
        3,
        "cvrp: start plan: input too long\n",
    ),
    (
        RequestError::Start(StartError::Refused(SolutionError::NotServed(2))),
        3,
        "cvrp: start plan: customer 2 is not served\n",
    ),
    (
        RequestError::Start(StartError::OutOfMemory),
        4,
        "cvrp: out of memory\n",
    ),
    (
        RequestError::NoPoints,
        3,
        "cvrp: no picture: the file has no whole coordinates for each node\n",
    ),
];

#[test]
fn not_answered(rt: HostRuntime) {
    for &(error, status, told) in NOT_ANSWERED {
        let mut errors = Vec::new(rt.alloc());
        let ended = end(rt.alloc(), &Err(error), &mut errors);
        assert_same(&rt, ended, status, told);
        assert_same(&rt, errors.as_slice(), told.as_bytes(), told);
    }
}

#[test]
fn fault_lines(rt: HostRuntime) {
    for (fault, line) in [
        (RunError::OutOfMemory, "out of memory"),
        (RunError::Read, "read fault"),
        (RunError::Write, "write fault"),
    ] {
        assert_fault_line(&rt, rt.alloc(), &fault, line);
    }
}

// Asserts the text of a fault, from `fault_line` and from its `Display`.
fn assert_fault_line(rt: &impl Abort, alloc: Global, fault: &RunError, line: &str) {
    let told = fault_line(alloc, fault).expect(rt, "memory");
    assert_same(rt, told.as_str(), line, "told");
    let printed = fault.to_string(alloc).expect(rt, "memory");
    assert_same(rt, printed.as_str(), line, "printed");
}

const REFUSAL_LINES: &[(TextError, &str)] = &[
    (TextError::DataOutside(7), "line 7: data outside a section"),
    (TextError::UnknownKeyword(10), "line 10: unknown keyword"),
    (TextError::Repeated(7), "line 7: repeated keyword"),
    (TextError::BadValue(6), "line 6: bad value"),
    (
        TextError::Unsupported(16_777_217),
        "line 16777217: not supported",
    ),
    (TextError::BadNumber(10), "line 10: bad number"),
    (TextError::NotWhole(9), "line 9: number is not whole"),
    (TextError::Missing(Key::Problem), "missing TYPE"),
    (TextError::Missing(Key::Dimension), "missing DIMENSION"),
    (TextError::Missing(Key::Capacity), "missing CAPACITY"),
    (
        TextError::Missing(Key::WeightKind),
        "missing EDGE_WEIGHT_TYPE",
    ),
    (
        TextError::Missing(Key::WeightFormat),
        "missing EDGE_WEIGHT_FORMAT",
    ),
    (
        TextError::Missing(Key::NodeCoord),
        "missing NODE_COORD_SECTION",
    ),
    (
        TextError::WrongCount(Key::EdgeWeight),
        "wrong count in EDGE_WEIGHT_SECTION",
    ),
    (
        TextError::BadNode(Key::Demand, 2),
        "bad node 2 in DEMAND_SECTION",
    ),
    (
        TextError::BadNode(Key::Depot, -7),
        "bad node -7 in DEPOT_SECTION",
    ),
    (
        TextError::Instance(InstanceError::DepotDemand(1)),
        "node 1: a depot has a demand",
    ),
    (
        TextError::Instance(InstanceError::NotADepot(3)),
        "node 3: not a depot",
    ),
    (
        TextError::Instance(InstanceError::DemandOverCapacity(2)),
        "node 2: demand above capacity",
    ),
    (TextError::TooLong, "input too long"),
    (TextError::OutOfMemory, "out of memory"),
];

// The text of a refused file is the same as the refusal's own `Display`.
#[test]
fn refusal_lines(rt: HostRuntime) {
    for &(refusal, line) in REFUSAL_LINES {
        assert_refusal_line(&rt, rt.alloc(), refusal, line);
    }
}

fn assert_refusal_line(rt: &impl Abort, alloc: Global, refusal: TextError, line: &str) {
    let fault = fault_line(alloc, &RunError::Text(refusal)).expect(rt, "memory");
    assert_same(rt, fault.as_str(), line, "the fault");
    let printed = refusal.to_string(alloc).expect(rt, "memory");
    assert_same(rt, printed.as_str(), line, "the refusal");
}

// Shows something only if an allocation is refused: run it by `rt try --test --fail-alloc N`, N from 1 on.
#[test]
fn refused_growth(rt: HostRuntime) {
    let mut written = [0u8; 29];
    let mut input = SMALL.as_bytes();
    let mut output = written.as_mut_slice();
    match run(&rt, rt.alloc(), Options::default(), &mut input, &mut output) {
        Err(RunError::OutOfMemory) => assert_same(&rt, written, [0u8; 29], "the output"),
        outcome => {
            assert_same(&rt, outcome, Ok(Status::Proven), "the outcome");
            assert_same(&rt, written.as_slice(), REPORT.as_bytes(), "the output");
        }
    }
}
