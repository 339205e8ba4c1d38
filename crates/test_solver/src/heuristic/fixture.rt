//! Instances for tests. Lack of memory ends the test.
ghost use Rattle.std.specs.Prelude.{◌≤◌};

use std::alloc::Global;
use std::process::Abort;
use test_fixtures::with_arcs;
use vrp_model::{Instance, MAX_CAPACITY, MAX_NODES, Metric, Weights};

/// The demands of the nodes, the depot's first, the capacity, and the number of trucks; 0 means no limit.
#[derive(Clone, Copy)]
pub(crate) struct Told<'a> {
    pub demands: &'a [u64],
    pub capacity: u64,
    pub trucks: u16,
}

impl<'a> Told<'a> {
    /// These demands and this capacity with another number of trucks.
    pub(crate) fn with_trucks(self, trucks: u16) -> Told<'a> {
        Told {
            demands: self.demands,
            capacity: self.capacity,
            trucks,
        }
    }
}

/// An instance by the full matrix of its weights.
pub(crate) fn by_matrix(rt: &impl Abort, alloc: Global, arcs: &[u64], told: Told<'_>) -> Instance {
    let made = with_arcs(alloc, arcs, told.demands, told.capacity);
    limited(rt, made.expect(rt, "an instance"), told.trucks)
}

/// An instance by the points of its nodes.
pub(crate) fn by_points(
    rt: &impl Abort,
    alloc: Global,
    metric: Metric,
    points: &[(i64, i64)],
    told: Told<'_>,
) -> Instance {
    assert!(rt; 1 <= points.len() && points.len() <= 100);
    assert!(rt;
        points
            .iter()
            .all(|&(x, y)| 0 <= x && x <= 1_000 && 0 <= y && y <= 1_000)
    );
    let weights = Weights::points(alloc, metric, points).expect(rt, "memory");
    assert!(rt; told.demands.len() == usize::from(weights.nodes()));
    assert!(rt; told.capacity <= MAX_CAPACITY);
    let made = Instance::new(alloc, weights, told.demands, told.capacity, &[1], None);
    limited(rt, made.expect(rt, "an instance"), told.trucks)
}

fn limited(rt: &impl Abort, instance: Instance, trucks: u16) -> Instance {
    assert!(rt; trucks <= MAX_NODES);
    if trucks == 0 {
        return instance;
    }
    instance.with_trucks(trucks)
}

/// Scattered nodes, some without demand, where the reverse arc costs more by a skew.
pub(crate) fn scattered(
    rt: &impl Abort,
    alloc: Global,
    nodes: u64,
    skew: u64,
    trucks: u16,
) -> Instance
    requires nodes { nodes ≤ 1_200 }
    requires skew { skew ≤ 10 }
{
    let mut arcs = Vec::new(alloc);
    let mut demands = Vec::new(alloc);
    for from in 0..nodes {
        for to in 0..nodes {
            arcs.push(arc(from, to, skew)).expect(rt, "memory");
        }
        demands.push(from % 9).expect(rt, "memory");
    }
    let told = Told {
        demands: &demands,
        capacity: 100,
        trucks,
    };
    by_matrix(rt, alloc, &arcs, told)
}

// The cost of an arc between scattered nodes.
fn arc(from: u64, to: u64, skew: u64) -> u64
    requires from { from ≤ 1_200 }
    requires to { to ≤ 1_200 }
    requires skew { skew ≤ 10 }
{
    let across = (from * from * 31 % 1_009).abs_diff(to * to * 31 % 1_009);
    let along = (from * from * 17 % 997).abs_diff(to * to * 17 % 997);
    across + along + skew * ((from * 3 + to) % 7)
}
