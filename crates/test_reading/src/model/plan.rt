//! Plans of small instances: their routes, words, costs and order.
use crate::assertion::assert_same;
use crate::model::fixture::{Case, Square, full_matrix, three_nodes};
use std::alloc::Global;
use std::process::Abort;
use test_fixtures::joined;
use vrp_model::{Instance, Metric, NoMemory, Plan, Weights};

// Two customers, of whom each demands one.
const TWO: Case<'_> = ([0, 1, 1], &[1], None);

// Asserts a plan's routes and its cost.
fn assert_plan(rt: &impl Abort, plan: &Plan, routes: &[&[u16]], cost: u64) {
    assert!(rt; plan.routes() == routes.len());
    for (route, stops) in routes.iter().enumerate() {
        assert_same(rt, plan.route(route), *stops, route);
    }
    assert_same(rt, plan.cost(), cost, "the cost");
}

// The plan of one truck for each customer.
pub(crate) fn singles(rt: &impl Abort, alloc: Global, instance: &Instance) -> Plan {
    let plan = Plan::singles(alloc, instance).expect(rt, "memory");
    plan.expect(rt, "a truck for each")
}

#[test]
fn one_truck_for_each_customer(rt: HostRuntime) {
    let instance = three_nodes(&rt, rt.alloc(), TWO);
    let plan = singles(&rt, rt.alloc(), &instance);
    assert_plan(&rt, &plan, &[&[1], &[2]], 30);
    let copy = plan.copy(rt.alloc()).expect(&rt, "memory");
    assert_plan(&rt, &copy, &[&[1], &[2]], 30);
}

// The plan of one truck for each customer, read back from its word.
fn read_back(rt: &impl Abort, alloc: Global, instance: &Instance) -> Result<Plan, NoMemory> {
    let singles = Plan::singles(alloc, instance)?.expect(rt, "a truck for each");
    Plan::of_word(alloc, instance, singles.word())
}

// The word of a feasible plan is read back.
#[test]
fn words(rt: HostRuntime) {
    let instance = three_nodes(&rt, rt.alloc(), TWO);
    let plan = read_back(&rt, rt.alloc(), &instance).expect(&rt, "memory");
    assert_same(&rt, plan.word(), &[1, 0, 2, 0], "the word");
    assert_plan(&rt, &plan, &[&[1], &[2]], 30);
}

// One truck serves both customers, and its route runs forward.
#[test]
fn one_truck_for_all(rt: HostRuntime) {
    let instance = three_nodes(&rt, rt.alloc(), TWO);
    let plan = joined(rt.alloc(), &instance, 1).expect(&rt, "a plan");
    assert_same(&rt, plan.word(), &[1, 2, 0], "the word");
    assert_plan(&rt, &plan, &[&[1, 2]], 20);
}

// The cost of a plan, and whether it is the first, the second or the third of three.
type Rank = (u64, u8);

// The weights, and the ranks of the plans with the words 1 0 2 0, 1 2 0 and 2 1 0.
const RANKED: &[(&[u64], [Rank; 3])] = &[
    (&[0, 1, 2, 2, 0, 1, 4, 2, 0], [(9, 3), (6, 1), (6, 2)]),
    (&[0, 1, 2, 2, 0, 4, 1, 2, 0], [(6, 1), (6, 2), (6, 3)]),
];

#[test]
fn before_by_cost_and_then_by_word(rt: HostRuntime) {
    for &(weights, ranks) in RANKED {
        let square: Square<'_> = (weights, &[0; 3], 2, &[1]);
        let instance = full_matrix(&rt, rt.alloc(), square);
        assert_ranks(&rt, rt.alloc(), &instance, ranks);
    }
}

fn assert_ranks(rt: &impl Abort, alloc: Global, instance: &Instance, ranks: [Rank; 3]) {
    let apart = singles(rt, alloc, instance);
    let forward = joined(alloc, instance, 1).expect(rt, "a plan");
    let backward = joined(alloc, instance, 2).expect(rt, "a plan");
    let [one, other, last] = ranks;
    assert_order(rt, &[(&apart, one), (&forward, other), (&backward, last)]);
}

// Asserts the cost of each plan, and that it is before exactly those of a later rank.
fn assert_order(rt: &impl Abort, plans: &[(&Plan, Rank)]) {
    for (plan, (cost, rank)) in plans {
        assert_same(rt, plan.cost(), *cost, *rank);
        for (other, (_, other_rank)) in plans {
            let before = plan.is_before(other);
            assert_same(rt, before, rank < other_rank, (*rank, *other_rank));
        }
    }
}

// A case, and the number of routes and the cost of the plan of one truck for each customer.
const SINGLES: &[(Case<'_>, usize, u64)] = &[
    (([1, 0, 1], &[2], None), 2, 20),
    (([0, 0, 1], &[1, 2], Some(2)), 1, 10),
    (([0, 0, 1], &[1, 2], None), 1, 20),
    (([0, 0, 1], &[1, 1, 2, 2, 1], None), 1, 20),
    (([0, 0, 0], &[3, 1, 2], None), 0, 0),
];

#[test]
fn costs_of_singles(rt: HostRuntime) {
    for &(case, routes, cost) in SINGLES {
        let instance = three_nodes(&rt, rt.alloc(), case);
        let plan = singles(&rt, rt.alloc(), &instance);
        assert_same(&rt, (plan.routes(), plan.cost()), (routes, cost), case);
    }
}

// The listed depots, the limit on trucks, and the number of routes.
const SO_MANY_TRUCKS: &[(&[u16], u16, Option<usize>)] = &[
    // two customers
    (&[1], 1, None),
    (&[1], 2, Some(2)),
    (&[1], 3, Some(2)),
    (&[1], 1_200, Some(2)),
    // one
    (&[1, 2], 1, Some(1)),
    (&[1, 2], 2, Some(1)),
    // the depot alone
    (&[3, 1, 2], 1, Some(0)),
    (&[3, 1, 2], 1_200, Some(0)),
];

#[test]
fn singles_of_so_many_trucks(rt: HostRuntime) {
    for &(depots, trucks, routes) in SO_MANY_TRUCKS {
        assert!(rt; 1 <= trucks && trucks <= 1_200);
        let instance = three_nodes(&rt, rt.alloc(), ([0; 3], depots, None)).with_trucks(trucks);
        let plan = Plan::singles(rt.alloc(), &instance).expect(&rt, "memory");
        let found = plan.as_ref().map(Plan::routes);
        assert_same(&rt, found, routes, (depots, trucks));
    }
}

#[test]
fn depot_alone(rt: HostRuntime) {
    let weights = Weights::points(rt.alloc(), Metric::Euc2d, &[(3, 4)]).expect(&rt, "memory");
    let instance = Instance::new(rt.alloc(), weights, &[0], 2, &[1], None);
    let instance = instance.expect(&rt, "an instance");
    assert_same(&rt, instance.customers(), 0, "the depot alone");
    let plan = singles(&rt, rt.alloc(), &instance);
    assert_none(&rt, &plan);
    assert_none(&rt, &plan.copy(rt.alloc()).expect(&rt, "memory"));
}

// Asserts that a plan has no route and costs nothing.
fn assert_none(rt: &impl Abort, plan: &Plan) {
    assert_plan(rt, plan, &[], 0);
    assert!(rt; plan.word().is_empty());
}

#[test]
fn customer_at_the_far_corner(rt: HostRuntime) {
    let points = [(-100_000_000, -100_000_000), (100_000_000, 100_000_000)];
    let weights = Weights::points(rt.alloc(), Metric::Euc2d, &points).expect(&rt, "memory");
    let instance = Instance::new(rt.alloc(), weights, &[0, 1], 2, &[1], None);
    let instance = instance.expect(&rt, "an instance");
    let plan = singles(&rt, rt.alloc(), &instance);
    assert_same(&rt, plan.cost(), 565_685_424, "there and back");
}
