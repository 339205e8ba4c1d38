//! Bounds over some customers: by hand, at the limits of the tables, and compared with a slow program that tries every walk.

use crate::assertion::assert_same;
use crate::bound::over::Over;
use crate::bound::slow_walks::{Stand, Walkers, every_walk};
use std::alloc::Global;
use std::process::Abort;
use test_fixtures::{FOUR, LINE, at_points, with_arcs};
use vrp_bound::Shape;
use vrp_model::Instance;

// A place, a load, a rest, and the answer.
type Asked = (u16, u64, u64, Option<u64>);

// Asserts the answers of the tables over these customers.
fn assert_over(
    rt: &impl Abort,
    alloc: Global,
    instance: &Instance,
    customers: &[u16],
    asked: &[Asked],
) {
    let over = Over::these(rt, alloc, instance, customers);
    assert_answers(rt, &over, asked);
}

fn assert_answers(rt: &impl Abort, over: &Over<'_>, asked: &[Asked]) {
    for &asked in asked {
        assert_answer(rt, over, asked);
    }
}

fn assert_answer(rt: &impl Abort, over: &Over<'_>, asked: Asked) {
    let (at, load, rest, answer) = asked;
    let instance = over.instance;
    assert!(rt; at <= instance.customers() && load <= instance.capacity());
    assert!(rt; (at != 0 || load == 0) && rest <= over.demand);
    let found = over.tables.q_bound(at, load, rest);
    assert_same(rt, found, answer, (at, load, rest));
}

// The demands of the places, and the questions.
const TWO_CUSTOMERS: &[([u64; 3], &[Asked])] = &[
    (
        [0, 1, 1],
        &[
            (0, 0, 0, Some(0)),
            (0, 0, 1, Some(10)),
            (0, 0, 2, Some(20)),
            (1, 1, 0, Some(5)),
            (1, 1, 1, Some(15)),
            (1, 2, 0, Some(5)),
            (2, 1, 1, Some(10)),
        ],
    ),
    (
        [0, 2, 2],
        &[
            (0, 0, 1, None),
            (0, 0, 4, Some(20)),
            (1, 2, 2, Some(15)),
            (2, 2, 2, Some(20)),
        ],
    ),
    // a customer without demand
    (
        [0, 0, 1],
        &[(0, 0, 0, Some(0)), (0, 0, 1, Some(0)), (2, 1, 1, Some(0))],
    ),
];

#[test]
fn bounds_over_two_customers(rt: HostRuntime) {
    for &(demands, asked) in TWO_CUSTOMERS {
        let instance = at_points(rt.alloc(), LINE, &demands, 2).expect(&rt, "an instance");
        assert_over(&rt, rt.alloc(), &instance, &[1, 2], asked);
    }
}

// Tables over the near customer alone, and over the far one alone.
const ONE_CUSTOMER: &[(&[u16], &[Asked])] = &[
    (
        &[1],
        &[
            (1, 1, 1, Some(15)),
            (2, 1, 1, Some(10)),
            (2, 2, 1, Some(20)),
            (2, 2, 0, Some(10)),
        ],
    ),
    (
        &[2],
        &[
            (1, 1, 1, Some(15)),
            (1, 2, 1, Some(25)),
            (2, 1, 1, Some(30)),
            (0, 0, 1, Some(20)),
        ],
    ),
];

#[test]
fn a_place_outside_the_list(rt: HostRuntime) {
    let instance = at_points(rt.alloc(), LINE, &[0, 1, 1], 2).expect(&rt, "an instance");
    for &(customers, asked) in ONE_CUSTOMER {
        assert_over(&rt, rt.alloc(), &instance, customers, asked);
    }
}

// The demand of the only customer, and the questions: the tables are made, and are too large.
const LARGEST: &[(u64, &[Asked])] = &[
    (14_142, &[(0, 0, 14_142, Some(10)), (0, 0, 1, None)]),
    (14_143, &[(0, 0, 14_143, Some(0)), (0, 0, 1, Some(0))]),
];

#[test]
fn the_largest_tables(rt: HostRuntime) {
    for &(demand, asked) in LARGEST {
        let instance = at_points(rt.alloc(), &[(0, 0), (3, 4)], &[0, demand], demand).expect(
            &rt,
            "an instance",
        );
        assert_over(&rt, rt.alloc(), &instance, &[1], asked);
    }
}

// The completion table has at most 64,000,000 cells. Two customers who together demand 4,617 need a few less, and 4,618 a few
// more. The two demands, and whether the table is made.
type Demanded = (u64, u64, bool);

const DEMANDS: &[Demanded] = &[(1, 2, true), (2_308, 2_309, true), (2_307, 2_311, false)];

#[test]
fn the_largest_completion_table(rt: HostRuntime) {
    for &(first, second, made) in DEMANDS {
        let instance = at_points(rt.alloc(), LINE, &[0, first, second], 4_618).expect(
            &rt,
            "an instance",
        );
        assert_of_two(&rt, rt.alloc(), &instance, (first, second, made));
    }
}

// Tests two customers on a line with these demands.
fn assert_of_two(rt: &impl Abort, alloc: Global, instance: &Instance, demanded: Demanded) {
    let (first, second, made) = demanded;
    let over = Over::all(rt, alloc, instance);
    assert_same(rt, over.has_completion_table(), Some(made), demanded);
    assert_answer(rt, &over, (1, first, second, Some(15)));
    assert_answer(rt, &over, (2, second, first, Some(10)));
    assert_answer(rt, &over, (1, first, 0, Some(5)));
    let both = first.saturating_add(second);
    assert_answer(rt, &over, (0, 0, both, Some(20)));
}

const HUNDREDS: Shape = Shape {
    unit: 100,
    quotients: 22_501,
    has_completion_table: true,
};

const IN_HUNDREDS: &[Asked] = &[
    (0, 0, 22_500, Some(100)),
    (0, 0, 22_450, None),
    (0, 0, 5_000, Some(40)),
    (0, 0, 5_050, None),
    (1, 5_900, 16_600, Some(95)),
    (1, 50, 5_900, Some(15)),
    (1, 400, 5_600, Some(15)),
    (1, 401, 5_600, Some(25)),
    (3, 6_000, 0, Some(15)),
    (3, 6_000, 50, None),
];

#[test]
fn demands_in_hundreds(rt: HostRuntime) {
    let points = [(0, 0), (3, 4), (6, 8), (9, 12), (12, 16)];
    let demands = [0, 5_900, 5_600, 6_000, 5_000];
    let instance = at_points(rt.alloc(), &points, &demands, 6_000).expect(&rt, "an instance");
    let over = Over::these(&rt, rt.alloc(), &instance, &[1, 2, 3, 4]);
    assert_same(&rt, over.tables.shape(), Some(HUNDREDS), "the shape");
    assert_answers(&rt, &over, IN_HUNDREDS);
}

// The demands of the places, and the capacity.
type Loaded = ([u64; 4], u64);

const EVERY_WALK: &[Loaded] = &[
    ([0, 1, 2, 1], 3),
    ([0, 2, 3, 2], 4),
    ([0, 2, 2, 2], 2),
    // counted in units of 2, with loads and rests that are not whole units
    ([0, 2, 4, 2], 7),
    ([0, 4, 2, 4], 6),
];

// Weights near the greatest: two routes cost more than the completion table can hold.
const FAR: &[u64] = &[
    0,
    999_999_990,
    1_000_000_000,
    999_999_985,
    999_999_991,
    0,
    999_999_998,
    1_000_000_000,
    999_999_999,
    999_999_987,
    0,
    999_999_993,
    999_999_996,
    999_999_994,
    999_999_989,
    0,
];

#[test]
fn the_same_as_every_walk(rt: HostRuntime) {
    for &loaded in EVERY_WALK {
        assert_near(&rt, rt.alloc(), loaded);
        assert_far(&rt, rt.alloc(), loaded);
    }
}

fn assert_near(rt: &impl Abort, alloc: Global, (demands, capacity): Loaded) {
    let instance = at_points(alloc, FOUR, &demands, capacity).expect(rt, "an instance");
    assert_lists(rt, alloc, &instance, true);
}

// Too far for the completion table.
fn assert_far(rt: &impl Abort, alloc: Global, (demands, capacity): Loaded) {
    let instance = with_arcs(alloc, FAR, &demands, capacity).expect(rt, "an instance");
    assert_lists(rt, alloc, &instance, false);
}

// Some of three customers.
const LISTS: &[&[u16]] = &[&[1, 2, 3], &[1, 3], &[2], &[]];

fn assert_lists(rt: &impl Abort, alloc: Global, instance: &Instance, near: bool) {
    for &customers in LISTS {
        assert_list(rt, alloc, instance, customers, near);
    }
}

// For every place. Over all customers with the completion table or without.
fn assert_list(rt: &impl Abort, alloc: Global, instance: &Instance, customers: &[u16], near: bool) {
    let over = Over::these(rt, alloc, instance, customers);
    let completion_table = over.has_completion_table().expect(rt, "tables");
    assert!(rt; customers.len() < 3 || completion_table == near);
    let walkers = Walkers {
        instance,
        customers,
        near: &[],
    };
    for at in 0..instance.customers() + 1 {
        assert_loads(rt, &over, walkers, at);
    }
}

// For each load; at the depot there is none.
fn assert_loads(rt: &impl Abort, over: &Over<'_>, walkers: Walkers<'_>, at: u16) {
    let most = if at == 0 { 0 } else { over.instance.capacity() };
    for load in 0..most + 1 {
        assert_rests(rt, over, walkers, at, load);
    }
}

fn assert_rests(rt: &impl Abort, over: &Over<'_>, walkers: Walkers<'_>, at: u16, load: u64) {
    for rest in 0..over.demand.saturating_add(1) {
        let slow = every_walk(walkers, Stand::begun(at, load, rest), 20);
        assert_answer(rt, over, (at, load, rest, slow));
    }
}
