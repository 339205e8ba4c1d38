//! The exact cover by hand, and compared with every choice of random columns.

use crate::assertion::assert_same;
use crate::random::{self, CUSTOMERS};
use crate::sets::set_of;
use crate::slow::{cost_of_choice, least_cost};
use std::alloc::Global;
use std::process::Abort;
use test_fixtures::Random;
use vrp_partition::{Column, Cover, CoverNode, Route, cheapest_cover};

// A column: its customers, its reduced cost and its cost.
type Told = (&'static [u16], u64, u32);

const THREE: &[Told] = &[
    (&[1], 10, 10),
    (&[2], 10, 10),
    (&[3], 10, 10),
    (&[1, 2], 12, 12),
    (&[2, 3], 13, 13),
    (&[1, 3], 14, 14),
    (&[1, 2, 3], 25, 25),
];

// Of the ways to pair four customers, the reduced costs favour a different one than the costs.
const FOUR: &[Told] = &[
    (&[1, 2], 5, 5),
    (&[3, 4], 5, 5),
    (&[1, 3], 0, 4),
    (&[2, 4], 1, 7),
    (&[1, 4], 6, 3),
    (&[2, 3], 6, 6),
];

const MUCH: u64 = 1_000_000;

// Columns, customers, trucks, the incumbent's cost, the gap and the least cost.
const BY_HAND: &[(&[Told], &[u16], u8, u64, u64, u64)] = &[
    (THREE, &[1, 2, 3], 128, MUCH, MUCH, 22),
    (THREE, &[1, 2, 3], 128, 23, MUCH, 22),
    (THREE, &[1, 2, 3], 128, 22, MUCH, 22),
    (THREE, &[1, 2, 3], 128, 0, MUCH, 0),
    (THREE, &[1, 2, 3], 128, MUCH, 22, 22),
    (THREE, &[1, 2, 3], 128, MUCH, 21, MUCH),
    (THREE, &[1, 3], 128, MUCH, MUCH, 14),
    (THREE, &[], 128, MUCH, 0, 0),
    (THREE, &[1, 2, 3, 4], 128, MUCH, MUCH, MUCH),
    (&[], &[1], 128, MUCH, MUCH, MUCH),
    (&[(&[1, 2, 3], 7, 9)], &[1, 2, 3], 128, MUCH, 7, 9),
    (FOUR, &[1, 2, 3, 4], 128, MUCH, MUCH, 9),
    (FOUR, &[1, 2, 3, 4], 2, MUCH, MUCH, 9),
    (FOUR, &[1, 2, 3, 4], 1, MUCH, MUCH, MUCH),
    (THREE, &[1, 2, 3], 1, MUCH, MUCH, 25),
    (THREE, &[], 0, MUCH, MUCH, 0),
    (FOUR, &[1, 2, 3, 4], 128, MUCH, 11, 10),
    (FOUR, &[1, 2, 3, 4], 128, MUCH, 9, 11),
    (FOUR, &[1, 2, 3, 4], 128, MUCH, 0, MUCH),
    (
        &[(&[255], u64::MAX, u32::MAX), (&[0], 0, u32::MAX)],
        &[0, 255],
        2,
        u64::MAX,
        u64::MAX,
        2 * (u32::MAX as u64),
    ),
];

#[test]
fn covers_by_hand(rt: HostRuntime) {
    let (rt, alloc) = (&rt, rt.alloc());
    for &(told, customers, trucks, incumbent, gap, cost) in BY_HAND {
        let columns = columns_of(rt, alloc, told);
        let root = &CoverNode {
            unserved: set_of(customers),
            trucks,
            incumbent,
            gap,
        };
        let found = cover(rt, alloc, &columns, root);
        assert_same(rt, found.cost, cost, (customers, incumbent, gap));
        assert_parts(rt, alloc, &found, root);
    }
}

fn columns_of(rt: &impl Abort, alloc: Global, told: &[Told]) -> Vec<Column> {
    let mut columns = Vec::new(alloc);
    for &(customers, reduced_cost, cost) in told {
        let column = Column {
            set: set_of(customers),
            reduced_cost,
            cost,
        };
        columns.push(column).expect(rt, "memory");
    }
    columns
}

fn cover(rt: &impl Abort, alloc: Global, columns: &[Column], root: &CoverNode) -> Cover {
    let mut budget = MUCH;
    cheapest_cover(alloc, columns, *root, &mut budget)
        .expect(rt, "memory")
        .expect(rt, "a budget that suffices")
}

// Below the incumbent the parts are a choice of that cost; otherwise there are none.
fn assert_parts(rt: &impl Abort, alloc: Global, found: &Cover, root: &CoverNode) {
    let mut routes = Vec::new(alloc);
    for column in &found.parts {
        let route = Route {
            set: column.set,
            cost: column.cost,
        };
        routes.push(route).expect(rt, "memory");
    }
    if found.cost < root.incumbent {
        let cost = cost_of_choice(&routes, root.unserved, root.trucks);
        assert_same(rt, cost, Some(found.cost), root.unserved);
    } else {
        assert_same(rt, routes.len(), 0, root.unserved);
    }
}

// A budget, whether it suffices, and what is left: the search of two columns looks at three nodes.
#[test]
fn budgets_that_are_spent(rt: HostRuntime) {
    let (rt, alloc) = (&rt, rt.alloc());
    let columns = columns_of(rt, alloc, &[(&[1], 1, 1), (&[2], 1, 1)]);
    let root = &CoverNode {
        unserved: set_of(&[1, 2]),
        trucks: 128,
        incumbent: MUCH,
        gap: MUCH,
    };
    for (budget, suffices, left) in [
        (0, false, 0),
        (1, false, 0),
        (2, false, 0),
        (3, true, 0),
        (9, true, 6),
    ] {
        let mut nodes = budget;
        let found = cheapest_cover(alloc, &columns, *root, &mut nodes);
        let found = found.expect(rt, "memory");
        assert_same(rt, found.is_some(), suffices, budget);
        assert_same(rt, nodes, left, budget);
    }
}

// Many ties, since costs are below 4; often no choice; empty routes, and several with the same customers.
#[test]
fn covers_beside_every_choice(rt: HostRuntime) {
    let (rt, alloc) = (&rt, rt.alloc());
    let mut random = Random(1);
    let mut solved = 0u32;
    for round in 0..60u32 {
        let (count, costs) = (4 + round % 9, 4 + round % 3 * 50);
        let pool = random::pool(rt, alloc, &mut random, (count, u32::MAX), costs);
        let mut columns = Vec::new(alloc);
        for route in &pool {
            let column = Column {
                set: route.set,
                reduced_cost: 0,
                cost: route.cost,
            };
            columns.push(column).expect(rt, "memory");
        }
        let root = &CoverNode {
            unserved: set_of(CUSTOMERS),
            trucks: if round % 4 == 0 { 2 } else { 128 },
            incumbent: MUCH,
            gap: 0,
        };
        let wanted = least_cost(rt, &pool, root.unserved, root.trucks);
        let found = cover(rt, alloc, &columns, root);
        assert_same(rt, found.cost, wanted.unwrap_or(MUCH), round);
        assert_parts(rt, alloc, &found, root);
        solved = solved.saturating_add(u32::from(wanted.is_some()));
    }
    assert!(rt;
        10 <= solved && solved <= 55,
        "{solved} pools have a choice"
    );
}
