//! Runs with a limit on trucks: whole reports.
use crate::assertion::assert_same;
use crate::command::fixture::{REPORT, SMALL, run_as};
use std::alloc::Global;
use std::process::Abort;
use std::sync::Wait;
use std::thread::Threads;
use vrp_command::{MAX_BUDGET, MAX_PIECES, Options, Status};
use vrp_model::MAX_NODES;

// Three customers on a line, a step apart, with demand 2 each: no two fit on a truck.
pub(crate) const THREE: &str =
    "TYPE : CVRP\nDIMENSION : 4\nEDGE_WEIGHT_TYPE : EUC_2D\nCAPACITY : 3\nNODE_COORD_SECTION\n1 0 0\n2 0 1\n3 0 2\n4 0 3\nDEMAND_SECTION\n1 0\n2 2\n3 2\n4 2\nDEPOT_SECTION\n1\n-1\nEOF\n";

// The same customers with capacity 2: two trucks can't even carry the sum.
const HEAVY: &str =
    "TYPE : CVRP\nDIMENSION : 4\nEDGE_WEIGHT_TYPE : EUC_2D\nCAPACITY : 2\nNODE_COORD_SECTION\n1 0 0\n2 0 1\n3 0 2\n4 0 3\nDEMAND_SECTION\n1 0\n2 2\n3 2\n4 2\nDEPOT_SECTION\n1\n-1\nEOF\n";

// Two customers a step from the depot and nine steps from one another.
const APART: &str =
    "TYPE : CVRP\nDIMENSION : 3\nEDGE_WEIGHT_TYPE : EXPLICIT\nEDGE_WEIGHT_FORMAT : FULL_MATRIX\nCAPACITY : 2\nEDGE_WEIGHT_SECTION\n0 1 1 1 0 9 1 9 0\nDEMAND_SECTION\n1 0\n2 1\n3 1\nDEPOT_SECTION\n1\n-1\nEOF\n";

const ALONE: &str =
    "TYPE : CVRP\nDIMENSION : 1\nEDGE_WEIGHT_TYPE : EUC_2D\nCAPACITY : 2\nNODE_COORD_SECTION\n1 0 0\nDEMAND_SECTION\n1 0\nDEPOT_SECTION\n1\n-1\nEOF\n";

// A file, the limit on trucks, the status and the report.
type Ending<'a> = (&'a str, Option<u16>, Status, &'a str);

// The outcomes of runs, for any pieces.
const ENDINGS: &[Ending<'static>] = &[
    (THREE, Some(1), Status::NoPlan, "NoPlan\n"),
    (THREE, Some(2), Status::NoPlan, "NoPlan\n"),
    (
        THREE,
        Some(3),
        Status::Proven,
        "Route #1: 2\nRoute #2: 3\nRoute #3: 4\nCost 12\nProven\n",
    ),
    (
        APART,
        None,
        Status::Proven,
        "Route #1: 2\nRoute #2: 3\nCost 4\nProven\n",
    ),
    (
        APART,
        Some(2),
        Status::Proven,
        "Route #1: 2\nRoute #2: 3\nCost 4\nProven\n",
    ),
    (
        APART,
        Some(1),
        Status::Proven,
        "Route #1: 2 3\nCost 11\nProven\n",
    ),
    (SMALL, Some(1), Status::Proven, REPORT),
    (SMALL, Some(2), Status::Proven, REPORT),
    (SMALL, Some(MAX_NODES), Status::Proven, REPORT),
    (ALONE, Some(1), Status::Proven, "Cost 0\nProven\n"),
    (HEAVY, Some(2), Status::NoPlan, "NoPlan\n"),
];

#[test]
fn endings(rt: HostRuntime) {
    for &ending in ENDINGS {
        for pieces in [1, 2, 64, MAX_PIECES] {
            let given = (pieces, Options::default().budget);
            assert_limited(&rt, rt.alloc(), ending, given);
        }
    }
}

// What a budget of one partial plan leaves open, and what is known at once.
#[test]
fn small_budgets(rt: HostRuntime) {
    for ending in [
        // no plan yet: the arcs into the customers, a step each, and three arcs home, by walks that may come twice
        (THREE, Some(2), Status::Open, "Open 6\n"),
        (HEAVY, Some(2), Status::NoPlan, "NoPlan\n"),
        (
            THREE,
            Some(3),
            Status::Open,
            "Route #1: 2\nRoute #2: 3\nRoute #3: 4\nCost 12\nOpen 6\n",
        ),
    ] {
        assert_limited(&rt, rt.alloc(), ending, (1, 1));
    }
}

// Asserts the outcome of a run with this many pieces and this budget, and all that it writes.
fn assert_limited<R: Abort + Threads + Wait + Sync>(
    rt: &R,
    alloc: Global,
    (text, trucks, status, report): Ending<'_>,
    (pieces, budget): (u32, u64),
) {
    assert!(rt; 1 <= pieces && pieces <= MAX_PIECES);
    assert!(rt; 1 <= budget && budget <= MAX_BUDGET);
    if let Some(most) = trucks {
        assert!(rt; 1 <= most && most <= MAX_NODES);
    }
    let options = Options {
        pieces,
        budget,
        trucks,
        ..Options::default()
    };
    let (outcome, written) = run_as(rt, alloc, text.as_bytes(), options);
    assert_same(rt, outcome, Ok(status), (trucks, pieces, text));
    assert_same(
        rt,
        written.as_slice(),
        report.as_bytes(),
        (trucks, pieces, text),
    );
}
