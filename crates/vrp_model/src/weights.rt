//! The weights between the nodes of a file.
ghost use Rattle.std.specs.Prelude.{◌≡◌, ℕ, ◌+◌, ◌*◌, ◌≤◌, ◌<◌, All, IfOk, length, slice_index, vec_len, vec_capacity};
ghost use Rattle.vrp_model.specs.Grid.{entry_at, IsCoordinate};
ghost use Rattle.vrp_model.specs.Inner.Rows.{AreDistances, IsDistanceAt};

use crate::layout::Layout;
use crate::limits::{MAX_NODES, MAX_WEIGHT};
use crate::matrix;
use crate::memory::NoMemory;
use crate::metric::Metric;
use std::alloc::Global;
use std::marker::Model;

/// A weight from each node of a file to each node; nodes are numbered from 1.
#[derive(Debug, Drop)]
pub struct Weights {
    nodes: u16,
    entries: Vec<u32>,
}

impl Model for Weights {
    ghost use Rattle.vrp_model.specs.Grid.{Grid, IsGrid, grid_of};

    ghost Value = { Grid };

    ghost view = { λ w. grid_of w.nodes w.entries.items };

    ghost invariant = { λ w. IsGrid (grid_of w.nodes w.entries.items) };
}

impl Weights {
    ghost use Rattle.vrp_model.specs.Grid.{HasDistances};
    ghost use Rattle.vrp_model.specs.Layout.{cells, HasEntries};

    /// The weights between these points by a metric; node k, from 1, has the k-th point. Each pair's distance is computed
    /// once.
    pub fn points(alloc: Global, metric: Metric, points: &[(i64, i64)]) -> Result<Weights, NoMemory>
        requires some { 1 ≤ length points.now }
        requires few { length points.now ≤ MAX_NODES }
        requires within { All (λ point. IsCoordinate point.0 × IsCoordinate point.1) points.now }
        ensures { IfOk result (λ grid. HasDistances metric points.now grid) }
    {
        let nodes = points.len();
        let mut entries = Vec::with_capacity(alloc, nodes * nodes)?;
        for row in 0..nodes {
            push_row(&mut entries, metric, points, row);
        }
        Ok(Weights {
            nodes: nodes as u16,
            entries,
        })
    }

    /// The weights between n nodes, 1 to 1,200, from the entries that a file lists in a layout: as many as `Layout::entries`
    /// says, each at most 1,000,000,000. A node's weight to itself is 0 if the layout has no diagonal.
    pub fn matrix(
        alloc: Global,
        layout: Layout,
        entries: &[u64],
        n: u16,
    ) -> Result<Weights, NoMemory>
        requires some { 1 ≤ n }
        requires few { n ≤ MAX_NODES }
        requires count { length entries.now ≡ length (cells layout n) }
        requires small { (k : ℕ) → slice_index entries.now k ≤ MAX_WEIGHT }
        ensures nodes { IfOk result (λ grid. grid.nodes ≡ n) }
        ensures entries { IfOk result (λ grid. HasEntries layout entries.now grid) }
    {
        let square = matrix::square(alloc, layout, entries, n)?;
        Ok(Weights {
            nodes: n,
            entries: square,
        })
    }

    /// The number of nodes: from 1 to 1,200.
    pub fn nodes(&self) -> u16
        ensures value { result ≡ self.now.nodes }
        ensures some { 1 ≤ result }
        ensures few { result ≤ MAX_NODES }
    {
        self.nodes
    }

    /// The weight of the arc from one node to another.
    pub fn at(&self, from: u16, to: u16) -> u64
        requires from_one { 1 ≤ from }
        requires from_within { from ≤ self.now.nodes }
        requires to_one { 1 ≤ to }
        requires to_within { to ≤ self.now.nodes }
        ensures value { result ≡ entry_at self.now from to }
        ensures small { result ≤ MAX_WEIGHT }
    {
        let nodes = usize::from(self.nodes);
        let row = usize::from(from) - 1;
        let column = usize::from(to) - 1;
        u64::from(self.entries[row * nodes + column])
    }
}

// Enters the weights from one point to each, after the rows of the points before it.
fn push_row(entries: &mut Vec<u32>, metric: Metric, points: &[(i64, i64)], row: usize)
    requires few { length points.now ≤ MAX_NODES }
    requires within { All (λ point. IsCoordinate point.0 × IsCoordinate point.1) points.now }
    requires row_within { row < length points.now }
    requires next { vec_len entries.old ≡ row * length points.now }
    requires room { vec_len entries.old + length points.now ≤ vec_capacity entries.old }
    requires so_far { AreDistances metric points.now entries.old.items }
    ensures len { vec_len entries.new ≡ vec_len entries.old + length points.now }
    ensures capacity { vec_capacity entries.new ≡ vec_capacity entries.old }
    ensures so_far { AreDistances metric points.now entries.new.items }
{
    for column in 0..points.len() {
        let weight = next_weight(entries, metric, points, row, column);
        entries.push_reserved(weight);
    }
}

// The next weight to enter. Left of the diagonal it is that of the reverse arc, which was entered before.
fn next_weight(
    entries: &[u32],
    metric: Metric,
    points: &[(i64, i64)],
    row: usize,
    column: usize,
) -> u32
    requires few { length points.now ≤ MAX_NODES }
    requires within { All (λ point. IsCoordinate point.0 × IsCoordinate point.1) points.now }
    requires row_within { row < length points.now }
    requires column_within { column < length points.now }
    requires next { length entries.now ≡ row * length points.now + column }
    requires so_far { AreDistances metric points.now entries.now }
    ensures distance { IsDistanceAt metric points.now row column result }
    ensures small { result ≤ MAX_WEIGHT }
{
    if column < row {
        entries[column * points.len() + row]
    } else if column == row {
        0
    } else {
        metric.distance(points[row], points[column]) as u32
    }
}
