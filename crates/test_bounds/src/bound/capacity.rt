//! The capacity bound by hand.

use crate::assertion::assert_same;
use std::process::Abort;
use test_fixtures::{LINE, at_points};
use vrp_bound::cap_bound;
use vrp_model::Instance;

// A place, a load, the sum of the least arcs in, a rest, and the bound.
type Asked = (u16, u64, u64, u64, u64);

const TWO_CUSTOMERS: &[([u64; 3], Asked)] = &[
    ([0, 1, 1], (0, 0, 10, 2, 15)),
    ([0, 1, 1], (1, 1, 5, 1, 10)),
    ([0, 1, 1], (2, 2, 0, 0, 5)),
    ([0, 1, 1], (0, 0, 0, 0, 0)),
    ([0, 2, 2], (0, 0, 10, 4, 20)),
    ([0, 2, 2], (1, 2, 5, 2, 15)),
    // a truck that isn't full
    ([0, 1, 2], (0, 0, 10, 3, 20)),
    ([0, 1, 2], (1, 1, 5, 2, 15)),
    // customers without demand
    ([0, 0, 0], (0, 0, 10, 0, 10)),
];

#[test]
fn bounds_of_two_customers(rt: HostRuntime) {
    for (demands, asked) in TWO_CUSTOMERS {
        let instance = at_points(rt.alloc(), LINE, demands, 2).expect(&rt, "an instance");
        assert_bound(&rt, &instance, *asked);
    }
}

fn assert_bound(rt: &impl Abort, instance: &Instance, asked: Asked) {
    let (at, load, inbound_sum, rest, bound) = asked;
    assert!(rt; at <= instance.customers() && load <= instance.capacity());
    assert!(rt; (at != 0 || load == 0) && inbound_sum <= 10 && rest <= instance.whole_demand());
    let found = cap_bound(instance, at, load, inbound_sum, rest);
    assert_same(rt, found, bound, (at, load, rest));
}
