//! The greatest units of demands.

use crate::assertion::assert_same;
use crate::bound::fixture::are_customers;
use std::process::Abort;
use test_fixtures::{FOUR, at_points};
use vrp_bound::{Scope, unit_of};
use vrp_model::Instance;

// The demands of the places, some customers, and their unit.
const UNITS: &[([u64; 4], &[u16], u64)] = &[
    ([0, 200, 650, 300], &[1, 2, 3], 50),
    ([0, 200, 650, 300], &[1, 3], 100),
    ([0, 200, 650, 300], &[2], 650),
    ([0, 200, 650, 300], &[], 1),
    ([0, 6, 10, 15], &[1, 2, 3], 1),
    ([0, 0, 10, 15], &[1, 2], 10),
];

#[test]
fn greatest_units(rt: HostRuntime) {
    for &(demands, customers, unit) in UNITS {
        let instance = at_points(rt.alloc(), FOUR, &demands, 1_000).expect(&rt, "an instance");
        assert_unit(&rt, &instance, customers, unit);
    }
}

fn assert_unit(rt: &impl Abort, instance: &Instance, customers: &[u16], unit: u64) {
    assert!(rt; are_customers(instance, customers));
    let scope = Scope::new(instance, customers);
    assert_same(rt, unit_of(scope), unit, customers);
}
