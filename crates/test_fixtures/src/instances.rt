//! Instances for tests; the first place is the depot.
ghost use Rattle.std.specs.Prelude.{◌≤◌, All, IsTrue};
ghost use Rattle.vrp_model.specs.Grid.{IsCoordinate};

use crate::fault::FixtureError;
use std::alloc::Global;
use vrp_model::{
    Instance, Layout, MAX_CAPACITY, MAX_COORDINATE, MAX_NODES, MAX_WEIGHT, Metric, Weights,
};

/// Three points on a line, 5 apart.
pub const LINE: &[(i64, i64)] = &[(0, 0), (3, 4), (6, 8)];

/// Four points in a plane.
pub const FOUR: &[(i64, i64)] = &[(0, 0), (3, 4), (6, 8), (5, -12)];

/// Five points in a plane.
pub const FIVE: &[(i64, i64)] = &[(0, 0), (3, 4), (6, 8), (5, -12), (-8, 2)];

/// The corners of a square and its middle, which is the depot: many plans cost the same.
pub const SQUARE: &[(i64, i64)] = &[(0, 0), (5, 5), (-5, 5), (-5, -5), (5, -5)];

/// The points of E-n22-k4 of Christofides and Eilon (1969).
pub const E_N22_K4_POINTS: &[(i64, i64)] = &[
    (145, 215),
    (151, 264),
    (159, 261),
    (130, 254),
    (128, 252),
    (163, 247),
    (146, 246),
    (161, 242),
    (142, 239),
    (163, 236),
    (148, 232),
    (128, 231),
    (156, 217),
    (129, 214),
    (146, 208),
    (164, 208),
    (141, 206),
    (147, 193),
    (164, 193),
    (129, 189),
    (155, 185),
    (139, 182),
];

/// The demands of E-n22-k4 in hundreds, the depot's first. A truck takes 60.
pub const E_N22_K4_DEMANDS: &[u64] = &[
    0, 11, 7, 8, 14, 21, 4, 8, 1, 5, 6, 12, 13, 13, 3, 9, 21, 10, 9, 25, 18, 7,
];

/// The depot and twenty scattered customers.
pub const SCATTERED: [(i64, i64); 21] = [
    (50, 50),
    (17, 72),
    (97, 8),
    (32, 15),
    (63, 97),
    (57, 60),
    (83, 48),
    (26, 12),
    (62, 3),
    (49, 55),
    (77, 97),
    (12, 34),
    (88, 71),
    (5, 90),
    (41, 81),
    (93, 29),
    (70, 22),
    (36, 39),
    (2, 5),
    (60, 35),
    (80, 85),
];

/// Places at these points, at rounded Euclidean distances. No clause says so, here and below, since only tests use it.
pub fn at_points(
    alloc: Global,
    points: &[(i64, i64)],
    demands: &[u64],
    capacity: u64,
) -> Result<Instance, FixtureError> {
    if points.is_empty() || points.len() > usize::from(MAX_NODES) || !are_coordinates(points) {
        return Err(FixtureError::OutOfRange);
    }
    let weights = Weights::points(alloc, Metric::Euc2d, points)?;
    instance_of(alloc, weights, demands, capacity)
}

// Whether all points are within the limits of a file.
fn are_coordinates(points: &[(i64, i64)]) -> bool
    ensures { IsTrue result → All (λ point. IsCoordinate point.0 × IsCoordinate point.1) points.now }
{
    points.iter().all(|&(east, north)| is_coordinate(east) && is_coordinate(north))
}

fn is_coordinate(value: i64) -> bool
    ensures { IsTrue result → IsCoordinate value }
{
    -MAX_COORDINATE <= value && value <= MAX_COORDINATE
}

/// Places with the weights of a full matrix between them; no clause says so.
pub fn with_arcs(
    alloc: Global,
    arcs: &[u64],
    demands: &[u64],
    capacity: u64,
) -> Result<Instance, FixtureError> {
    in_layout(alloc, Layout::FullMatrix, arcs, demands, capacity)
}

/// Places with the weights that a file lists in this layout; no clause says so.
pub fn in_layout(
    alloc: Global,
    layout: Layout,
    entries: &[u64],
    demands: &[u64],
    capacity: u64,
) -> Result<Instance, FixtureError> {
    if demands.is_empty() || demands.len() > usize::from(MAX_NODES) {
        return Err(FixtureError::OutOfRange);
    }
    let nodes = demands.len() as u16;
    if entries.len() != layout.entries(nodes) || !are_weights(entries) {
        return Err(FixtureError::OutOfRange);
    }
    let weights = Weights::matrix(alloc, layout, entries, nodes)?;
    instance_of(alloc, weights, demands, capacity)
}

// Whether all weights are within the limits of a file.
fn are_weights(arcs: &[u64]) -> bool
    ensures { IsTrue result → All (λ arc. arc ≤ MAX_WEIGHT) arcs.now }
{
    arcs.iter().all(|&arc| arc <= MAX_WEIGHT)
}

// The instance of these weights, whose first node is the depot.
fn instance_of(
    alloc: Global,
    weights: Weights,
    demands: &[u64],
    capacity: u64,
) -> Result<Instance, FixtureError> {
    if demands.len() != usize::from(weights.nodes()) || capacity > MAX_CAPACITY {
        return Err(FixtureError::OutOfRange);
    }
    Ok(Instance::new(alloc, weights, demands, capacity, &[1], None)?)
}

/// Demands of 1 for each customer, for this many nodes; no clause says so.
pub fn one_each(alloc: Global, nodes: usize) -> Result<Vec<u64>, FixtureError> {
    if nodes == 0 {
        return Err(FixtureError::OutOfRange);
    }
    let mut demands = vec![in alloc; 1u64; nodes]?;
    demands[0] = 0;
    Ok(demands)
}
