//! Plans by savings, compared with costs that `compare/savings.py` computed or that were worked out by hand.
ghost use Rattle.std.specs.Prelude.{◌≤◌};

use crate::assertion::assert_same;
use crate::heuristic::fixture::{Told, by_matrix, by_points, scattered};
use std::alloc::Global;
use std::process::Abort;
use test_fixtures::E_N22_K4_POINTS;
use vrp_heuristic::{JoinedRoutes, savings_plan};
use vrp_model::{Instance, MAX_CAPACITY, Metric, Plan};

const E_N22_K4: Told<'_> = Told {
    demands: &[
        0, 1100, 700, 800, 1400, 2100, 400, 800, 100, 500, 600, 1200, 1300, 1300, 300, 900, 2100,
        1000, 900, 2500, 1800, 700,
    ],
    capacity: 6000,
    trucks: 0,
};

const P_N16_K8_POINTS: &[(i64, i64)] = &[
    (30, 40),
    (37, 52),
    (49, 49),
    (52, 64),
    (31, 62),
    (52, 33),
    (42, 41),
    (52, 41),
    (57, 58),
    (62, 42),
    (42, 57),
    (27, 68),
    (43, 67),
    (58, 48),
    (58, 27),
    (37, 69),
];

const P_N16_K8: Told<'_> = Told {
    demands: &[0, 19, 30, 16, 23, 11, 31, 15, 28, 8, 8, 7, 14, 6, 19, 11],
    capacity: 35,
    trucks: 0,
};

const CEIL_11_ZERO_POINTS: &[(i64, i64)] = &[
    (11, 59),
    (50, 14),
    (76, 96),
    (67, 38),
    (47, 67),
    (95, 86),
    (55, 79),
    (58, 29),
    (61, 80),
    (28, 42),
    (72, 38),
    (87, 12),
];

const CEIL_11_ZERO: Told<'_> = Told {
    demands: &[0, 5, 3, 7, 0, 2, 4, 6, 3, 0, 7, 3],
    capacity: 17,
    trucks: 0,
};

const ASYM_9_ARCS: &[u64] = &[
    0, 27, 24, 39, 38, 45, 13, 16, 24, 42, 41, 0, 29, 46, 43, 15, 25, 38, 42, 27, 37, 20, 0, 29,
    45, 43, 30, 14, 43, 21, 50, 10, 31, 0, 49, 22, 18, 48, 21, 35, 38, 19, 37, 33, 0, 19, 21, 12,
    11, 35, 34, 50, 40, 17, 27, 0, 23, 39, 43, 46, 17, 13, 27, 39, 32, 47, 0, 40, 11, 13, 36, 14,
    40, 29, 22, 33, 35, 0, 24, 49, 26, 41, 11, 41, 42, 36, 29, 47, 0, 22, 44, 47, 48, 17, 31, 17,
    15, 47, 25, 0,
];

const ASYM_9: Told<'_> = Told {
    demands: &[0, 10, 9, 8, 7, 6, 5, 5, 6, 4],
    capacity: 20,
    trucks: 0,
};

// The cost of the plan with this number of trucks, 0 for no limit; `None` if there is no plan.
type Planned = (u16, Option<u64>);

fn assert_cost(rt: &impl Abort, alloc: Global, instance: &Instance, (trucks, wanted): Planned) {
    let plan = savings_plan(alloc, instance).expect(rt, "memory");
    assert_same(rt, plan.as_ref().map(Plan::cost), wanted, trucks);
}

// Published instances, and one with two customers without demand. Joining end to end needs nine trucks, though eight are
// enough.
const FILES: &[(Metric, &[(i64, i64)], Told<'_>, Planned)] = &[
    (Metric::Euc2d, E_N22_K4_POINTS, E_N22_K4, (0, Some(387))),
    (Metric::Euc2d, E_N22_K4_POINTS, E_N22_K4, (4, Some(387))),
    (Metric::Euc2d, E_N22_K4_POINTS, E_N22_K4, (3, None)),
    (Metric::Euc2d, P_N16_K8_POINTS, P_N16_K8, (9, Some(472))),
    (Metric::Euc2d, P_N16_K8_POINTS, P_N16_K8, (8, None)),
    (
        Metric::Ceil2d,
        CEIL_11_ZERO_POINTS,
        CEIL_11_ZERO,
        (0, Some(511)),
    ),
];

#[test]
fn files_of_points(rt: HostRuntime) {
    for &(metric, points, told, planned) in FILES {
        let told = told.with_trucks(planned.0);
        let instance = by_points(&rt, rt.alloc(), metric, points, told);
        assert_cost(&rt, rt.alloc(), &instance, planned);
    }
}

// The weights of a full matrix.
type Square<'a> = (&'a [u64], Told<'a>, Planned);

const ASYMMETRIC: &[Square<'_>] = &[
    (ASYM_9_ARCS, ASYM_9, (0, Some(291))),
    (ASYM_9_ARCS, ASYM_9, (4, Some(291))),
    (ASYM_9_ARCS, ASYM_9, (3, None)),
];

#[test]
fn asymmetric(rt: HostRuntime) {
    for &square in ASYMMETRIC {
        assert_square(&rt, rt.alloc(), square);
    }
}

fn assert_square(rt: &impl Abort, alloc: Global, (arcs, told, planned): Square<'_>) {
    let instance = by_matrix(rt, alloc, arcs, told.with_trucks(planned.0));
    assert_cost(rt, alloc, &instance, planned);
}

// Two customers to a truck.
const TWO: Told<'_> = Told {
    demands: &[0, 1, 1],
    capacity: 2,
    trucks: 0,
};

const HEAVY: Told<'_> = Told {
    demands: &[0, 2, 2],
    capacity: 2,
    trucks: 0,
};

const ALONE: Told<'_> = Told {
    demands: &[0],
    capacity: 2,
    trucks: 0,
};

const LINE: &[u64] = &[0, 1, 2, 1, 0, 1, 2, 1, 0];

const SIDES: &[u64] = &[0, 1, 1, 1, 0, 9, 1, 9, 0];

// On a line one truck costs less than two; with customers on either side of the depot it costs more, and is used only if
// there is no other; all at one point cost nothing; and without customers no truck is needed.
const BY_HAND: &[Square<'_>] = &[
    (LINE, TWO, (0, Some(4))),
    (SIDES, TWO, (0, Some(4))),
    (SIDES, TWO, (1, Some(11))),
    (LINE, HEAVY, (0, Some(6))),
    (LINE, HEAVY, (1, None)),
    (&[0, 0, 0, 0, 0, 0, 0, 0, 0], TWO, (0, Some(0))),
    (&[0], ALONE, (0, Some(0))),
];

#[test]
fn worked_by_hand(rt: HostRuntime) {
    for &square in BY_HAND {
        assert_square(&rt, rt.alloc(), square);
    }
}

const LONG_LINE: &[u64] = &[0, 10, 20, 30, 10, 0, 10, 40, 20, 10, 0, 50, 30, 40, 50, 0];

// The demand of each customer, the capacity, and the cost of the plan.
const LARGE: &[(u64, u64, u64)] = &[
    (4_000, 10_001, 100),
    (400_000, 1_000_000, 100),
    (500_001, 1_000_000, 120),
    (400_000_000, MAX_CAPACITY, 100),
    (MAX_CAPACITY, MAX_CAPACITY, 120),
];

// Three customers on a line, the first two 10 and 20 to one side of the depot and the third 30 to the other. If two of them
// fit on a truck, one drives to each side: 40 and 60. If only one fits, each gets a truck: 20, 40 and 60.
#[test]
fn large_capacities(rt: HostRuntime) {
    for &(demand, capacity, cost) in LARGE {
        assert_large(&rt, rt.alloc(), demand, capacity, cost);
    }
}

fn assert_large(rt: &impl Abort, alloc: Global, demand: u64, capacity: u64, cost: u64) {
    let demands = [0, demand, demand, demand];
    let told = Told {
        demands: &demands,
        capacity,
        trucks: 0,
    };
    assert_square(rt, alloc, (LONG_LINE, told, (0, Some(cost))));
}

const APART: &[u64] = &[0, 10, 10, 10, 10, 0, 2, 100, 10, 2, 0, 100, 10, 100, 100, 0];

const ALL: Told<'_> = Told {
    demands: &[0, 1, 1, 1],
    capacity: 3,
    trucks: 0,
};

const DEAR_JOINTS: &[Square<'_>] = &[
    (APART, ALL, (0, Some(42))),
    (APART, ALL, (3, Some(42))),
    (APART, ALL, (2, Some(42))),
    (APART, ALL, (1, Some(122))),
];

// Two customers 2 apart, and a third that is 100 from both; each is 10 from the depot, and all fit on a truck. Joining the
// two saves 18: 22 and 20. Continuing to the third costs 80 more, and is done only if there is one truck.
#[test]
fn costly_joints_only_for_want_of_trucks(rt: HostRuntime) {
    for &square in DEAR_JOINTS {
        assert_square(&rt, rt.alloc(), square);
    }
}

// A word has at most two symbols for each customer, and its list has room for that many.
#[test]
fn room_for_a_word(rt: HostRuntime) {
    for customers in 1..4 {
        assert_room(&rt, rt.alloc(), customers);
    }
}

fn assert_room(rt: &impl Abort, alloc: Global, customers: usize) {
    assert!(rt; customers <= 3);
    let points = [(0, 0), (0, 1), (0, 2), (0, 3)];
    let demands = [0, 1, 1, 1];
    let told = Told {
        demands: &demands[..customers + 1],
        capacity: 3,
        trucks: 0,
    };
    let instance = by_points(rt, alloc, Metric::Man2d, &points[..customers + 1], told);
    let routes = JoinedRoutes::one_each(alloc, &instance).expect(rt, "memory");
    let word = routes.word(alloc, &instance).expect(rt, "memory");
    let room = 2 * customers;
    assert_same(rt, (word.len(), word.capacity()), (room, room), customers);
}

fn assert_scattered(rt: &impl Abort, alloc: Global, nodes: u64, skew: u64, wanted: u64)
    requires nodes { nodes ≤ 1_200 }
    requires skew { skew ≤ 10 }
{
    let instance = scattered(rt, alloc, nodes, skew, 0);
    assert_cost(rt, alloc, &instance, (0, Some(wanted)));
}

#[test]
fn many_customers(rt: HostRuntime) {
    assert_scattered(&rt, rt.alloc(), 1_200, 0, 121_716);
    assert_scattered(&rt, rt.alloc(), 1_200, 1, 124_175);
}
