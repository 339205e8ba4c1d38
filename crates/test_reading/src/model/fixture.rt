//! Instances for tests: three nodes at (0, 0), (3, 4) and (6, 8), or up to four nodes with a matrix.
ghost use Rattle.std.specs.Prelude.{◌≡◌, ◌≤◌, length, All, IsTrue, ◌↔◌};
ghost use Rattle.vrp_model.specs.Grid.{Grid};

use std::alloc::Global;
use std::process::Abort;
use vrp_model::{Instance, InstanceError, Layout, Metric, Weights};

/// The parts of an instance of the three nodes with capacity 2: the demands, the listed depots, and the chosen one.
pub(crate) type Case<'a> = ([u64; 3], &'a [u16], Option<u16>);

/// The instance of a case.
pub(crate) fn three_nodes(rt: &impl Abort, alloc: Global, case: Case<'_>) -> Instance {
    instance_of(rt, alloc, case).expect(rt, "an instance")
}

/// The instance of a case, or the reason why there is none.
pub(crate) fn instance_of(
    rt: &impl Abort,
    alloc: Global,
    case: Case<'_>,
) -> Result<Instance, InstanceError> {
    let (demands, depots, chosen) = case;
    assert!(rt; !depots.is_empty() && are_nodes(depots, 3));
    let points = [(0, 0), (3, 4), (6, 8)];
    let weights = Weights::points(alloc, Metric::Euc2d, &points).expect(rt, "memory");
    Instance::new(alloc, weights, &demands, 2, depots, chosen)
}

/// The parts of an instance of up to four nodes: the weights of a full matrix, the demands, the capacity, and the listed
/// depots.
pub(crate) type Square<'a> = (&'a [u64], &'a [u64], u64, &'a [u16]);

/// The instance of a square.
pub(crate) fn full_matrix(rt: &impl Abort, alloc: Global, square: Square<'_>) -> Instance {
    let (weights, demands, capacity, depots) = square;
    assert!(rt; demands.len() <= 4 && capacity <= 9);
    let nodes = demands.len() as u16;
    assert!(rt; !depots.is_empty() && are_nodes(depots, nodes));
    let weights = matrix(rt, alloc, Layout::FullMatrix, weights, nodes);
    Instance::new(alloc, weights, demands, capacity, depots, None).expect(rt, "an instance")
}

/// The weights of up to four nodes in a layout, by the entries of a file.
pub(crate) fn matrix(
    rt: &impl Abort,
    alloc: Global,
    layout: Layout,
    entries: &[u64],
    n: u16,
) -> Weights
    ensures { result.nodes ≡ n }
{
    assert!(rt; 1 <= n && n <= 4 && entries.len() == layout.entries(n));
    assert!(rt; entries.iter().all(|&entry| entry <= 100));
    Weights::matrix(alloc, layout, entries, n).expect(rt, "memory")
}

// Whether each number is that of one of n nodes.
fn are_nodes(depots: &[u16], n: u16) -> bool
    ensures { IsTrue result ↔ All (λ depot. (1 ≤ depot) × (depot ≤ n)) depots.now }
{
    depots.iter().all(|&depot| 1 <= depot && depot <= n)
}
