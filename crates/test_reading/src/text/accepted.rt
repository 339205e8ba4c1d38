//! Files in other spellings, or with other instances.
use crate::assertion::assert_same;
use crate::text::fixture::{
    MATRIX, Places, SMALL, assert_singles_cost, matrix_places, places_of, small_places, with,
};
use std::alloc::Global;
use std::process::Abort;
use vrp_model::Instance;
use vrp_text::{TextError, read};

// The small file from its end to its front.
const REVERSED: &str =
    "DEPOT_SECTION\n1\n-1\nDEMAND_SECTION\n3 1\n1 0\n2 1\nNODE_COORD_SECTION\n3 6 8\n1 0 0\n2 3 4\nCAPACITY : 2\nEDGE_WEIGHT_TYPE : EUC_2D\nDIMENSION : 3\nTYPE : CVRP\nCOMMENT : three nodes\nNAME : A";

// Two nodes, of which the first is the depot.
const TWO: &str =
    "TYPE : CVRP\nDIMENSION : 2\nEDGE_WEIGHT_TYPE : METRIC\nCAPACITY : 1\nNODE_COORD_SECTION\n1 FROM\n2 TO\nDEMAND_SECTION\n1 0\n2 1\nDEPOT_SECTION\n1\n-1\nEOF\n";

const SAME_AS_SMALL: &[(&str, &str)] = &[
    ("EOF", "EOF"),
    (SMALL, REVERSED),
    // Lines, blanks and colons.
    ("\n", "\r\n"),
    ("\n", " \t\r\r\n"),
    ("\n", "\n\n \t\r\n"),
    ("\n", "\n\t "),
    (" ", "\t"),
    (" : ", ":"),
    (" : ", " "),
    (" : ", " :"),
    ("\n1 0 0\n2 3 4\n", "\n1 0\n\n0 2 3\r\n4\n"),
    ("\n3 1\nDEPOT", "\n3\n1\nDEPOT"),
    // Remarks and values.
    (
        "COMMENT : three nodes",
        "COMMENT : one\nCOMMENT : two\nCOMMENT\nNAME\nNAME:",
    ),
    (
        "CAPACITY",
        "NODE_COORD_TYPE : TWOD\nDISPLAY_DATA_TYPE\nNODE_COORD_TYPE\nCAPACITY",
    ),
    ("CAPACITY : 2", "CAPACITY+2"),
    ("CAPACITY : 2", "CAPACITY : 2 trucks 3"),
    ("CAPACITY : 2", "CAPACITY : 20e-1"),
    ("DIMENSION : 3", "DIMENSION : +3.0E0"),
    ("CVRP", "CVRP TSP"),
    ("DEMAND_SECTION", "DEMAND_SECTION :"),
    // Numerals.
    ("2 3 4", "2 3.00000 4.0e+00"),
    ("2 3 4", "2 30E-1 +4."),
    ("2 3 4", "02 003 .4e1"),
    ("\n1 0 0\n", "\n+1 -0 .0e-5\n"),
    ("\n1 0\n", "\n1.0 -0.00\n"),
    // Depots.
    ("\n1\n-1\n", "\n1 -1\n"),
    ("\n1\n-1\n", "\n1 1\n-1\n"),
    ("\n-1\n", "\n-1.0\n"),
    ("\n-1\n", "\n-10e-1\n"),
    ("\n-1\n", "\n-1 7 -5\n1000000000 -1 0\n"),
    ("\n-1\n", "\n"),
    // Text that is ignored.
    ("EOF", "EDGE_WEIGHT_FORMAT : FUNCTION"),
    ("EOF", "EDGE_WEIGHT_FORMAT : LOWER_DIAG_COL"),
    ("EOF", "EDGE_WEIGHT_SECTION\n1 0x1 .5 \0\n: -\nEOF"),
    (
        "DEPOT_SECTION",
        "DISPLAY_DATA_SECTION\n1 x\n\n?\nDISPLAY_DATA_SECTION :\n\u{ffff}\nDEPOT_SECTION",
    ),
    // The end.
    ("EOF\n", ""),
    ("EOF\n", "EOF"),
    ("-1\nEOF\n", "-1"),
    ("EOF", "EOF : 1"),
    ("EOF", "EOF-"),
    ("EOF", "EOF\n\0\nCAPACITY : 2\nVEHICLES : 2"),
    ("EOF", "EOF\nEDGE_WEIGHT_TYPE : EXPLICIT"),
];

// The small file with one text replaced, wherever it occurs, means the same.
#[test]
fn same_as_the_small_file(rt: HostRuntime) {
    for &(old, new) in SAME_AS_SMALL {
        let instance = changed(&rt, rt.alloc(), SMALL, old, new);
        assert_same(&rt, places_of(&rt, &instance), small_places(), new);
        assert_singles_cost(&rt, rt.alloc(), &instance, 30);
    }
}

// The instance of a file with one text replaced, wherever it occurs.
fn changed(rt: &impl Abort, alloc: Global, file: &str, old: &str, new: &str) -> Instance {
    let text = with(rt, alloc, file, old, new);
    read(alloc, text.as_bytes(), None).expect(rt, new)
}

const SAME_AS_MATRIX: &[(&str, &str)] = &[
    ("EOF", "EOF"),
    ("\n0 1 2\n3 0 4\n5 6 0\n", "\n0 1\n2 3 0 4 5 6.0\n0\n"),
    // Coordinates are ignored, even before the file is known to be explicit.
    ("EOF", "NODE_COORD_SECTION\n1 x .5\n: \0"),
    ("NAME : M", "NODE_COORD_SECTION\n1 x .5\n: \0"),
    // The type may come after everything that depends on it.
    (
        MATRIX,
        "EDGE_WEIGHT_SECTION\n0 1 2\n3 0 4\n5 6 0\nEDGE_WEIGHT_FORMAT : FULL_MATRIX\nDEPOT_SECTION\n1\nDEMAND_SECTION\n1 0\n2 1\n3 1\nCAPACITY : 2\nDIMENSION : 3\nTYPE : CVRP\nEDGE_WEIGHT_TYPE : EXPLICIT",
    ),
];

// The file with a matrix, with one text replaced, means the same.
#[test]
fn same_as_the_file_with_a_matrix(rt: HostRuntime) {
    for &(old, new) in SAME_AS_MATRIX {
        let instance = changed(&rt, rt.alloc(), MATRIX, old, new);
        assert_same(&rt, places_of(&rt, &instance), matrix_places(), new);
    }
}

// Each number of a row goes to its node, in any order of the rows.
#[test]
fn rows_in_another_order(rt: HostRuntime) {
    let text =
        "TYPE : CVRP\nDIMENSION : 3\nEDGE_WEIGHT_TYPE : MAN_2D\nCAPACITY : 9\nNODE_COORD_SECTION\n3 100 20\n2 0 0\n1 -1 7\nDEMAND_SECTION\n2 0\n3 9\n1 4\nDEPOT_SECTION\n2 -1\n";
    let instance = read(rt.alloc(), text.as_bytes(), None).expect(&rt, text);
    let places = Places {
        nodes: [2, 1, 3],
        demands: [0, 4, 9],
        capacity: 9,
        weights: [8, 120, 8, 114, 120, 114],
    };
    assert_same(&rt, places_of(&rt, &instance), places, "other rows");
}

// The two points farthest apart.
const LOW: &str = "-100000000 -1e8";

const HIGH: &str = "100000000 +1e8";

const COSTS_BY_METRIC: &[(&str, &str, &str, u64)] = &[
    ("EUC_2D", "0 0", "1 1", 2),
    ("CEIL_2D", "0 0", "1 1", 4),
    ("MAN_2D", "0 0", "1 1", 4),
    ("MAX_2D", "0 0", "1 1", 2),
    ("ATT", "0 0", "1 1", 2),
    ("ATT", "0 0", "0 10", 8),
    ("EUC_2D", LOW, HIGH, 565_685_424),
    ("CEIL_2D", LOW, HIGH, 565_685_426),
    ("MAN_2D", LOW, HIGH, 800_000_000),
    ("MAX_2D", LOW, HIGH, 400_000_000),
    ("ATT", LOW, HIGH, 178_885_440),
    ("MAN_2D", "3 20", "3 -1", 42),
    ("MAX_2D", "3 20", "4 18", 4),
];

// The distances of two points, in both directions.
#[test]
fn costs_by_metric(rt: HostRuntime) {
    for &(metric, from, to, cost) in COSTS_BY_METRIC {
        let instance = two_points(&rt, rt.alloc(), metric, from, to);
        assert_singles_cost(&rt, rt.alloc(), &instance, cost);
    }
}

// Two nodes at these points.
fn two_points(rt: &impl Abort, alloc: Global, metric: &str, from: &str, to: &str) -> Instance {
    let text = with(rt, alloc, TWO, "METRIC", metric);
    let text = with(rt, alloc, text.as_str(), "FROM", from);
    changed(rt, alloc, text.as_str(), "TO", to)
}

const DEPOTS: &[(&str, Option<u16>, u16, u16, u64)] = &[
    ("1 2 -1", None, 1, 3, 20),
    ("2 1 -1 3", None, 2, 3, 10),
    ("2 1 2", None, 2, 3, 10),
    ("1 2 -1", Some(1), 1, 3, 20),
    ("1 2 -1", Some(2), 2, 3, 10),
    ("1 2 1 1", Some(2), 2, 3, 10),
];

// The depot is the first listed one, or the chosen one; another depot is neither depot nor customer.
#[test]
fn depots(rt: HostRuntime) {
    for &(listed, chosen, depot, customer, cost) in DEPOTS {
        let instance = with_depots(&rt, rt.alloc(), listed, chosen);
        assert!(rt; instance.customers() == 1, "at {listed}");
        let nodes = (instance.node(0), instance.node(1));
        assert_same(&rt, nodes, (depot, customer), listed);
        assert_singles_cost(&rt, rt.alloc(), &instance, cost);
    }
}

// The small file with these depots, where the second node has no demand.
fn with_depots(rt: &impl Abort, alloc: Global, listed: &str, chosen: Option<u16>) -> Instance {
    let text = with(rt, alloc, SMALL, "\n2 1\n", "\n2 0\n");
    let text = with(rt, alloc, text.as_str(), "\n1\n-1\n", "\nLISTED\n");
    let text = with(rt, alloc, text.as_str(), "LISTED", listed);
    read(alloc, text.as_bytes(), chosen).expect(rt, listed)
}

#[test]
fn one_node(rt: HostRuntime) {
    let text =
        "TYPE : CVRP\nDIMENSION : 1\nEDGE_WEIGHT_TYPE : EUC_2D\nCAPACITY : 1\nNODE_COORD_SECTION\n1 0 0\nDEMAND_SECTION\n1 0\nDEPOT_SECTION\n1\n-1\nEOF\n";
    let instance = read(rt.alloc(), text.as_bytes(), None).expect(&rt, text);
    assert_same(&rt, instance.customers(), 0, "the depot alone");
    assert_singles_cost(&rt, rt.alloc(), &instance, 0);
}

// Shows something only if an allocation is refused: run it by `rt try --test --fail-alloc N`, N from 1 on.
#[test]
fn refused_growth(rt: HostRuntime) {
    for (text, places) in [(SMALL, small_places()), (MATRIX, matrix_places())] {
        match read(rt.alloc(), text.as_bytes(), None) {
            Ok(instance) => assert_same(&rt, places_of(&rt, &instance), places, text),
            Err(refusal) => assert_same(&rt, refusal, TextError::OutOfMemory, text),
        }
    }
}
