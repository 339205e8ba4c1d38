//! Instances and plans for tests. Lack of memory ends the test.

use crate::pool::fixture::{both_directions_equal, three_nodes};
use std::alloc::Global;
use std::process::Abort;
use test_fixtures::{at_points, joined};
use vrp_model::{Instance, Plan};

/// Two plans of three nodes at (0, 0), (3, 4) and (6, 8): one truck for each of the two customers, which costs 30, and one
/// truck for both, which costs 20.
pub(crate) fn singles_and_joined(rt: &impl Abort, alloc: Global) -> (Plan, Plan) {
    let instance = three_nodes(rt, alloc, 2);
    (
        singles(rt, alloc, &instance),
        joined(alloc, &instance, 1).expect(rt, "a plan"),
    )
}

/// Two plans of one truck for two customers, whose words 1 2 0 and 2 1 0 cost 6 each.
pub(crate) fn forward_and_backward(rt: &impl Abort, alloc: Global) -> (Plan, Plan) {
    let instance = both_directions_equal(rt, alloc);
    (
        joined(alloc, &instance, 1).expect(rt, "a plan"),
        joined(alloc, &instance, 2).expect(rt, "a plan"),
    )
}

// The plan of one truck for each customer.
fn singles(rt: &impl Abort, alloc: Global, instance: &Instance) -> Plan {
    let plan = Plan::singles(alloc, instance).expect(rt, "memory");
    plan.expect(rt, "a truck for each")
}

/// A copy of a plan, if there is one.
pub(crate) fn copied(rt: &impl Abort, alloc: Global, plan: Option<&Plan>) -> Option<Plan> {
    plan.map(|plan| plan.copy(alloc).expect(rt, "memory"))
}

/// A plan that costs twice this distance: one truck to one customer and back.
pub(crate) fn there_and_back(rt: &impl Abort, alloc: Global, distance: i64) -> Plan {
    assert!(rt; 0 <= distance && distance <= 1_000);
    let points = [(0, 0), (0, distance)];
    let instance = at_points(alloc, &points, &[0, 1], 2).expect(rt, "an instance");
    singles(rt, alloc, &instance)
}
