//! Hints on standard error, beside faults and answers.
use crate::command::fixture::{REPORT, SMALL};
use crate::command::runs::{End, assert_run_by};
use crate::command::trucks::THREE;

// Two depots, and one customer.
const DEPOTS: &str =
    "TYPE : CVRP\nDIMENSION : 3\nEDGE_WEIGHT_TYPE : EUC_2D\nCAPACITY : 2\nNODE_COORD_SECTION\n1 0 0\n2 3 4\n3 6 8\nDEMAND_SECTION\n1 0\n2 0\n3 1\nDEPOT_SECTION\n2\n1\n-1\nEOF\n";

const BY_TWO: &str = "Route #1: 3\nCost 10\nProven\n";

// Words, a file, and the outcome of the program.
const RUNS: &[(&[&str], &str, End<'static>)] = &[
    (&["--explain"], SMALL, (0, REPORT, "")),
    (&[], "", (3, "", "cvrp: missing TYPE\n")),
    (
        &["--explain"],
        "",
        (
            3,
            "",
            "cvrp: missing TYPE\ncvrp: hint: the input is empty: a file is read from standard input, as in cvrp < FILE\n",
        ),
    ),
    (&["--trucks", "2"], THREE, (0, "NoPlan\n", "")),
    (
        &["--trucks", "2", "--explain"],
        THREE,
        (
            0,
            "NoPlan\n",
            "cvrp: hint: all customers demand 6, and --trucks 2 allows 6, 3 for each; but no sharing out of whole customers fits\n",
        ),
    ),
    (&[], DEPOTS, (0, BY_TWO, "")),
    (
        &["--explain"],
        DEPOTS,
        (
            0,
            BY_TWO,
            "cvrp: hint: the file lists several depots, and node 2 is used: --depot NODE chooses another\n",
        ),
    ),
    (&["--explain", "--depot", "2"], DEPOTS, (0, BY_TWO, "")),
    (&["--threads", "2"], SMALL, (0, REPORT, "")),
    (&["--time-limit", "60"], SMALL, (0, REPORT, "")),
    (&["--vehicles", "2"], SMALL, (0, REPORT, "")),
];

#[test]
fn hints(rt: HostRuntime) {
    for (words, file, end) in RUNS {
        assert_run_by(&rt, rt.alloc(), words, file, *end);
    }
}
