//! The layouts of a matrix.
use crate::assertion::assert_same;
use crate::text::fixture::{MATRIX, Places, assert_singles_cost, matrix_places, places_of, with};
use std::alloc::Global;
use std::process::Abort;
use vrp_model::Instance;
use vrp_text::read;

// Four nodes, of which the first is the depot.
const FOUR: &str =
    "TYPE : CVRP\nDIMENSION : 4\nCAPACITY : 1\nEDGE_WEIGHT_TYPE : EXPLICIT\nEDGE_WEIGHT_FORMAT : LAYOUT\nEDGE_WEIGHT_SECTION\nENTRIES\nDEMAND_SECTION\n1 0\n2 1\n3 1\n4 1\nDEPOT_SECTION\n1\n-1\nEOF\n";

// A full matrix distinguishes an arc from its reverse.
#[test]
fn arcs_there_and_back(rt: HostRuntime) {
    let instance = read(rt.alloc(), MATRIX.as_bytes(), None).expect(&rt, MATRIX);
    assert_same(&rt, places_of(&rt, &instance), matrix_places(), "a matrix");
    assert_singles_cost(&rt, rt.alloc(), &instance, 11);
}

// The greatest weight, demand and capacity.
#[test]
fn greatest_numbers(rt: HostRuntime) {
    let text = with(&rt, rt.alloc(), MATRIX, "0 1 2", "0 1e9 1000000000");
    let text = with(
        &rt,
        rt.alloc(),
        text.as_str(),
        "CAPACITY : 2",
        "CAPACITY : 1000000000",
    );
    let text = with(&rt, rt.alloc(), text.as_str(), "\n2 1\n", "\n2 1.0E+9\n");
    let instance = read(rt.alloc(), text.as_bytes(), None).expect(&rt, "an instance");
    let places = Places {
        nodes: [1, 2, 3],
        demands: [0, 1_000_000_000, 1],
        capacity: 1_000_000_000,
        weights: [1_000_000_000, 1_000_000_000, 3, 4, 5, 6],
    };
    assert_same(&rt, places_of(&rt, &instance), places, "a matrix");
}

// The weights from node 1 to 2, 3 and 4, from 2 to 3 and 4 and from 3 to 4, and those of the reverse arcs.
type Arcs = ([u64; 6], [u64; 6]);

const ROWS: Arcs = ([1, 2, 3, 4, 5, 6], [1, 2, 3, 4, 5, 6]);

const COLUMNS: Arcs = ([1, 2, 4, 3, 5, 6], [1, 2, 4, 3, 5, 6]);

const LONG_FIRST: Arcs = ([2, 3, 4, 6, 7, 9], [2, 3, 4, 6, 7, 9]);

const SHORT_FIRST: Arcs = ([2, 4, 7, 5, 8, 9], [2, 4, 7, 5, 8, 9]);

const SIX: &str = "1 2 3 4 5 6";

const TEN: &str = "1 2 3 4 5 6 7 8 9 10";

// A layout, its entries, the weights, and the cost of the plan of one truck for each customer.
const LAYOUTS: &[(&str, &str, Arcs, u64)] = &[
    ("UPPER_ROW", SIX, ROWS, 12),
    ("LOWER_COL", SIX, ROWS, 12),
    ("LOWER_ROW", SIX, COLUMNS, 14),
    ("UPPER_COL", SIX, COLUMNS, 14),
    ("UPPER_DIAG_ROW", TEN, LONG_FIRST, 18),
    ("LOWER_DIAG_COL", TEN, LONG_FIRST, 18),
    ("LOWER_DIAG_ROW", TEN, SHORT_FIRST, 26),
    ("UPPER_DIAG_COL", TEN, SHORT_FIRST, 26),
    (
        "FULL_MATRIX",
        "1 2 3 4\n5 6 7 8\n9 10 11 12\n13 14 15 16",
        ([2, 3, 4, 7, 8, 12], [5, 9, 13, 10, 14, 15]),
        36,
    ),
];

#[test]
fn layouts_of_four_nodes(rt: HostRuntime) {
    for &(layout, entries, arcs, cost) in LAYOUTS {
        let instance = four_nodes(&rt, rt.alloc(), layout, entries);
        let (there, back) = arcs;
        assert_weights(&rt, &instance, &THERE, &there);
        assert_weights(&rt, &instance, &BACK, &back);
        assert_singles_cost(&rt, rt.alloc(), &instance, cost);
    }
}

// Four nodes with these weights.
fn four_nodes(rt: &impl Abort, alloc: Global, layout: &str, entries: &str) -> Instance {
    let text = with(rt, alloc, FOUR, "LAYOUT", layout);
    let text = with(rt, alloc, text.as_str(), "ENTRIES", entries);
    read(alloc, text.as_bytes(), None).expect(rt, layout)
}

const THERE: [(u16, u16); 6] = [(0, 1), (0, 2), (0, 3), (1, 2), (1, 3), (2, 3)];

const BACK: [(u16, u16); 6] = [(1, 0), (2, 0), (3, 0), (2, 1), (3, 1), (3, 2)];

// The arcs of an instance have these weights.
fn assert_weights(rt: &impl Abort, instance: &Instance, arcs: &[(u16, u16)], weights: &[u64]) {
    for (&(from, to), &weight) in arcs.iter().zip(weights) {
        assert!(rt; from.max(to) <= instance.customers());
        assert_same(rt, instance.weight(from, to), weight, (from, to));
    }
}
