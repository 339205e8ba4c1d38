//! The ng-sets of the walks of the rounds.
use crate::assertion::assert_same;
use std::alloc::Global;
use std::process::Abort;
use test_fixtures::at_points;
use vrp_bound_prices::find_prices;
use vrp_model::{Instance, Unhurried};

// Customers in one place, who demand 1 each.
fn crowd(rt: &impl Abort, alloc: Global, customers: usize) -> Instance {
    assert!(rt; customers <= 5);
    let points = [(3, 4), (0, 0), (0, 0), (0, 0), (0, 0), (0, 0)];
    let demands = [0, 1, 1, 1, 1, 1];
    let places = customers + 1;
    at_points(alloc, &points[..places], &demands[..places], 2).expect(rt, "an instance")
}

// The number of customers, the steps, and the number of ng-sets, if there are prices.
type FewCustomers = (usize, u64, Option<usize>);

const FEW_CUSTOMERS: &[FewCustomers] = &[
    (1, u64::MAX, Some(1)),
    (2, u64::MAX, Some(2)),
    (3, u64::MAX, Some(4)),
    (4, u64::MAX, Some(8)),
    (5, u64::MAX, Some(8)),
    // Twelve rounds of three loads, each with 16 looks and 3 more.
    (3, 684, Some(1)),
    (3, 683, None),
    // Twelve tables of three loads with 16 looks for each ng-set.
    (3, 1_152, Some(2)),
    (3, 1_151, Some(1)),
    (3, 2_304, Some(4)),
    (3, 2_303, Some(2)),
];

#[test]
fn ng_sets_of_few_customers(rt: HostRuntime) {
    for &few in FEW_CUSTOMERS {
        assert_ng_sets(&rt, rt.alloc(), few);
    }
}

fn assert_ng_sets(rt: &impl Abort, alloc: Global, (customers, steps, masks): FewCustomers) {
    let instance = crowd(rt, alloc, customers);
    let found = find_prices(alloc, &instance, 50, 3, steps, &Unhurried).expect(rt, "memory");
    let found = found.map(|prices| prices.ng_sets.masks());
    assert_same(rt, found, masks, (customers, steps));
}
