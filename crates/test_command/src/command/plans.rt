//! The plans of small files and their verdicts, for various options.
use crate::command::fixture::{SMALL, assert_end, assert_run, with};
use std::alloc::Global;
use std::process::Abort;
use std::sync::Wait;
use std::thread::Threads;
use vrp_command::{MAX_PIECES, Options, Status};

// Three nodes with asymmetric arcs.
pub(crate) const ONE_DIRECTION: &str =
    "TYPE : CVRP\nDIMENSION : 3\nEDGE_WEIGHT_TYPE : EXPLICIT\nEDGE_WEIGHT_FORMAT : FULL_MATRIX\nCAPACITY : 2\nEDGE_WEIGHT_SECTION\n0 1 9\n9 0 1\n1 9 0\nDEMAND_SECTION\n1 0\n2 1\n3 1\nDEPOT_SECTION\n1\n-1\nEOF\n";

// Three nodes where the cheap route serves the second customer first.
const SECOND_FIRST: &str =
    "TYPE : CVRP\nDIMENSION : 3\nEDGE_WEIGHT_TYPE : EXPLICIT\nEDGE_WEIGHT_FORMAT : FULL_MATRIX\nCAPACITY : 2\nEDGE_WEIGHT_SECTION\n0 9 1\n1 0 1\n20 1 0\nDEMAND_SECTION\n1 0\n2 1\n3 1\nDEPOT_SECTION\n1\n-1\nEOF\n";

// The small file with a fourth node, which has no demand and is a step from the depot.
pub(crate) const FOUR: &str =
    "TYPE : CVRP\nDIMENSION : 4\nEDGE_WEIGHT_TYPE : EUC_2D\nCAPACITY : 2\nNODE_COORD_SECTION\n1 0 0\n2 3 4\n3 6 8\n4 0 1\nDEMAND_SECTION\n1 0\n2 1\n3 1\n4 0\nDEPOT_SECTION\n1\n-1\nEOF\n";

// The small file with demands for which the completion table would be too large: a bound searches the walks and tours.
const LARGE: &str =
    "TYPE : CVRP\nDIMENSION : 3\nEDGE_WEIGHT_TYPE : EUC_2D\nCAPACITY : 14000\nNODE_COORD_SECTION\n1 0 0\n2 3 4\n3 6 8\nDEMAND_SECTION\n1 0\n2 7001\n3 6999\nDEPOT_SECTION\n1\n-1\nEOF\n";

// All nodes at one point: every plan costs nothing.
const SAME_POINT: &str =
    "TYPE : CVRP\nDIMENSION : 3\nEDGE_WEIGHT_TYPE : EUC_2D\nCAPACITY : 2\nNODE_COORD_SECTION\n1 7 7\n2 7 7\n3 7 7\nDEMAND_SECTION\n1 0\n2 1\n3 1\nDEPOT_SECTION\n1\n-1\nEOF\n";

// Four nodes, a step from each to each: many plans cost the same.
pub(crate) const STEPS: &str =
    "TYPE : CVRP\nDIMENSION : 4\nEDGE_WEIGHT_TYPE : EXPLICIT\nEDGE_WEIGHT_FORMAT : UPPER_ROW\nCAPACITY : 2\nEDGE_WEIGHT_SECTION\n1 1 1\n1 1\n1\nDEMAND_SECTION\n1 0\n2 1\n3 1\n4 1\nDEPOT_SECTION\n1\n-1\nEOF\n";

// A change of the small file, and the report: the first plan by cost and then by word.
const CANONICAL_PLANS: &[(&str, &str, &str)] = &[
    ("EOF", "EOF", "Route #1: 2 3\nCost 20\nProven\n"),
    (
        "CAPACITY : 2",
        "CAPACITY : 1",
        "Route #1: 2\nRoute #2: 3\nCost 30\nProven\n",
    ),
    (
        "\n2 1\n",
        "\n2 2\n",
        "Route #1: 2\nRoute #2: 3\nCost 30\nProven\n",
    ),
    (SMALL, ONE_DIRECTION, "Route #1: 2 3\nCost 3\nProven\n"),
    (SMALL, SECOND_FIRST, "Route #1: 3 2\nCost 3\nProven\n"),
    (SMALL, FOUR, "Route #1: 2 3 4\nCost 20\nProven\n"),
    (
        SMALL,
        SAME_POINT,
        "Route #1: 2\nRoute #2: 3\nCost 0\nProven\n",
    ),
    (SMALL, LARGE, "Route #1: 2 3\nCost 20\nProven\n"),
    (SMALL, STEPS, "Route #1: 2\nRoute #2: 3 4\nCost 5\nProven\n"),
];

// With any number of pieces the canonical plan is found and proved.
#[test]
fn start_plans(rt: HostRuntime) {
    for &(old, new, report) in CANONICAL_PLANS {
        let text = with(&rt, rt.alloc(), SMALL, old, new);
        assert_proven(&rt, rt.alloc(), text.as_str(), report);
    }
}

fn assert_proven<R: Abort + Threads + Wait + Sync>(rt: &R, alloc: Global, text: &str, end: &str) {
    for pieces in [1, 2, 3, 64, MAX_PIECES] {
        let given = (pieces, Options::default().budget);
        assert_end(rt, alloc, text, given, Status::Proven, end);
    }
}

const SMALL_BUDGETS: &[(&str, &str, u32, u64, Status, &str)] = &[
    // two trucks, each to a customer and back, cost 30; both customers by walks of one truck cost at least 20
    (
        "EOF",
        "EOF",
        1,
        1,
        Status::Open,
        "Route #1: 2\nRoute #2: 3\nCost 30\nOpen 20\n",
    ),
    ("EOF", "EOF", 1, 2, Status::Open, "Cost 30\nOpen 20\n"),
    // the fifth is the complete word of the canonical plan again, the seventh that of the cheaper one
    ("EOF", "EOF", 1, 6, Status::Open, "Cost 30\nOpen 20\n"),
    ("EOF", "EOF", 1, 7, Status::Open, "Cost 20\nOpen 20\n"),
    ("EOF", "EOF", 1, 8, Status::Proven, "Cost 20\nProven\n"),
    ("EOF", "EOF", 1, 11, Status::Proven, "Cost 20\nProven\n"),
    // the pieces begin with the first customers: 5 paid and 15 to pay, 10 paid and 10 to pay
    ("EOF", "EOF", 2, 1, Status::Open, "Cost 30\nOpen 20\n"),
    (
        "EOF",
        "EOF",
        MAX_PIECES,
        1,
        Status::Proven,
        "Cost 20\nProven\n",
    ),
    // twice to the nearer customer, since a walk may visit it again
    (
        "CAPACITY : 2",
        "CAPACITY : 1",
        1,
        1,
        Status::Open,
        "Cost 30\nOpen 20\n",
    ),
    // cut in two, only the farther one is left to walk to: 5 paid, 5 home, and 20 there and back
    (
        "CAPACITY : 2",
        "CAPACITY : 1",
        2,
        1,
        Status::Open,
        "Cost 30\nOpen 30\n",
    ),
    // the bound is the canonical plan's cost, since another plan may cost as much
    (
        "\n2 1\n",
        "\n2 2\n",
        1,
        5,
        Status::Open,
        "Cost 30\nOpen 30\n",
    ),
    (
        "\n2 1\n",
        "\n2 2\n",
        1,
        6,
        Status::Proven,
        "Cost 30\nProven\n",
    ),
    // a customer without demand: the arcs into the customers, 4, 5 and 1, and one arc home, 1
    (SMALL, FOUR, 1, 1, Status::Open, "Cost 32\nOpen 11\n"),
    // three pieces: two are left at 12 and 16; with the last customer first no other route can be opened for the rest
    (SMALL, FOUR, 3, 1, Status::Open, "Cost 32\nOpen 12\n"),
    (SMALL, FOUR, 3, 10, Status::Open, "Cost 20\nOpen 12\n"),
    // two pieces, left at 30 and 3; then the last one is finished, and its plan costs less than 30, so the first is of no use
    (SMALL, SECOND_FIRST, 2, 1, Status::Open, "Cost 31\nOpen 3\n"),
    (
        SMALL,
        SECOND_FIRST,
        2,
        4,
        Status::Proven,
        "Cost 3\nProven\n",
    ),
];

// What a small budget leaves open. The whole tree of the small file has ten partial plans: eight are looked at.
#[test]
fn small_budgets(rt: HostRuntime) {
    for &(old, new, pieces, budget, status, end) in SMALL_BUDGETS {
        let text = with(&rt, rt.alloc(), SMALL, old, new);
        let given = (pieces, budget);
        assert_end(&rt, rt.alloc(), text.as_str(), given, status, end);
    }
}

// Without customers there is one plan, without routes.
#[test]
fn depot_alone(rt: HostRuntime) {
    let bytes =
        b"TYPE : CVRP\nDIMENSION : 1\nEDGE_WEIGHT_TYPE : EUC_2D\nCAPACITY : 2\nNODE_COORD_SECTION\n1 0 0\nDEMAND_SECTION\n1 0\nDEPOT_SECTION\n1\n-1\nEOF\n";
    let wanted = Ok(Status::Proven);
    assert_run(&rt, rt.alloc(), bytes, None, wanted, "Cost 0\nProven\n");
}
