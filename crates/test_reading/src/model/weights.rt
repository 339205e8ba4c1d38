//! Weights of a few points, and of the layouts of a matrix.
use crate::assertion::assert_same;
use crate::model::fixture::matrix;
use std::alloc::Global;
use std::process::Abort;
use vrp_model::{Layout, MAX_NODES, Metric, Weights};

// A row, a column, and the weight there.
type Cell = (u16, u16, u64);

fn assert_cells(rt: &impl Abort, weights: &Weights, cells: &[Cell]) {
    for &(row, column, weight) in cells {
        assert_weight(rt, weights, row, column, weight);
    }
}

fn assert_weight(rt: &impl Abort, weights: &Weights, row: u16, column: u16, weight: u64) {
    let n = weights.nodes();
    assert!(rt; 1 <= row && row <= n && 1 <= column && column <= n);
    assert_same(rt, weights.at(row, column), weight, (row, column));
}

#[test]
fn weights_of_three_points(rt: HostRuntime) {
    let points = [(0, 0), (3, 4), (6, 8)];
    let weights = Weights::points(rt.alloc(), Metric::Euc2d, &points).expect(&rt, "memory");
    assert_same(&rt, weights.nodes(), 3, "nodes");
    let cells = &[(1, 2, 5), (2, 1, 5), (1, 3, 10), (2, 3, 5), (2, 2, 0)];
    assert_cells(&rt, &weights, cells);
}

// Layouts without the diagonal, and the cell of each of their entries.
const TRIANGLES: &[(Layout, u16, &[(u16, u16)])] = &[
    (Layout::UpperRow, 3, &[(1, 2), (1, 3), (2, 3)]),
    (Layout::LowerRow, 3, &[(2, 1), (3, 1), (3, 2)]),
    (Layout::UpperCol, 3, &[(1, 2), (1, 3), (2, 3)]),
    (Layout::LowerCol, 3, &[(2, 1), (3, 1), (3, 2)]),
    (
        Layout::UpperRow,
        4,
        &[(1, 2), (1, 3), (1, 4), (2, 3), (2, 4), (3, 4)],
    ),
    (
        Layout::UpperCol,
        4,
        &[(1, 2), (1, 3), (2, 3), (1, 4), (2, 4), (3, 4)],
    ),
    (
        Layout::LowerRow,
        4,
        &[(2, 1), (3, 1), (3, 2), (4, 1), (4, 2), (4, 3)],
    ),
    (
        Layout::LowerCol,
        4,
        &[(2, 1), (3, 1), (4, 1), (3, 2), (4, 2), (4, 3)],
    ),
];

#[test]
fn triangles_of_three_and_four_nodes(rt: HostRuntime) {
    for &(layout, n, cells) in TRIANGLES {
        assert_triangle(&rt, rt.alloc(), layout, n, cells);
    }
}

// Asserts that the k-th of these cells, from 1, has the weight k both ways, and that the diagonal has no weight.
fn assert_triangle(rt: &impl Abort, alloc: Global, layout: Layout, n: u16, cells: &[(u16, u16)]) {
    assert!(rt; cells.len() <= 6);
    let weights = matrix(rt, alloc, layout, &[1, 2, 3, 4, 5, 6][..cells.len()], n);
    for (k, &(row, column)) in cells.iter().enumerate() {
        assert_weight(rt, &weights, row, column, k as u64 + 1);
        assert_weight(rt, &weights, column, row, k as u64 + 1);
    }
    for node in 1..weights.nodes() + 1 {
        assert_weight(rt, &weights, node, node, 0);
    }
}

// Other layouts: their entries, and the weights of some cells.
const SQUARES: &[(Layout, &[u64], &[Cell])] = &[
    // In a full matrix each cell holds in one direction only.
    (
        Layout::FullMatrix,
        &[0, 1, 9, 9, 0, 1, 1, 9, 0],
        &[(1, 2, 1), (2, 1, 9), (1, 3, 9)],
    ),
    // The diagonal is listed.
    (
        Layout::UpperDiagCol,
        &[1, 2, 3, 4, 5, 6],
        &[
            (1, 1, 1),
            (1, 2, 2),
            (2, 2, 3),
            (1, 3, 4),
            (2, 3, 5),
            (3, 3, 6),
        ],
    ),
];

#[test]
fn diagonals_and_arcs_back(rt: HostRuntime) {
    for &(layout, entries, cells) in SQUARES {
        let weights = matrix(&rt, rt.alloc(), layout, entries, 3);
        assert_cells(&rt, &weights, cells);
    }
}
