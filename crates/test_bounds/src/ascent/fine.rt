//! The unit in which demands are counted: the finest that the steps allow.
use crate::assertion::assert_same;
use std::alloc::Global;
use std::process::Abort;
use test_fixtures::at_points;
use vrp_bound_prices::find_prices;
use vrp_model::{Instance, Watch};

// The capacity, in units of 1.
const CAPACITY: u64 = 100;

// More than the cost of a plan.
const COST: u64 = 20_000;

// Steps, and the capacity in the unit that they allow: twelve rounds take 18,126,672 steps in units of 1, 7,621,848 in units of 2, and
// 4,740,960 in units of 3. The numbers are from a program outside.
const CAPACITIES: &[(u64, u64)] = &[
    (u64::MAX, CAPACITY),
    (18_126_672, CAPACITY),
    (18_126_671, 50),
    (7_621_848, 50),
    (7_621_847, 33),
    (4_740_960, 33),
    (4_740_959, 25),
];

#[test]
fn finer_units(rt: HostRuntime) {
    let instance = demanding(&rt, rt.alloc());
    for &(steps, capacity) in CAPACITIES {
        let found = capacity_in(&rt, rt.alloc(), &instance, steps);
        assert_same(&rt, found, capacity, steps);
    }
}

// Ninety-nine customers with demands of 30 to 70, whose only common divisor is 1.
fn demanding(rt: &impl Abort, alloc: Global) -> Instance {
    let mut points = vec![in alloc; (0, 0); 1].expect(rt, "memory");
    let mut demands = vec![in alloc; 0; 1].expect(rt, "memory");
    for place in 1..100i64 {
        let east = (place.wrapping_mul(37) % 201).wrapping_sub(100);
        let north = (place.wrapping_mul(91) % 199).wrapping_sub(100);
        points.push((east, north)).expect(rt, "memory");
        let more = (place.wrapping_mul(17) % 41).unsigned_abs();
        demands.push(more.saturating_add(30)).expect(rt, "memory");
    }
    at_points(alloc, &points, &demands, CAPACITY).expect(rt, "an instance")
}

// A watch that stops before the first round: the unit is chosen before.
#[derive(Drop)]
struct Stopped;

impl Watch for Stopped {
    fn should_continue(&self) -> bool {
        false
    }
}

// The capacity in the unit of the prices that so many steps find.
fn capacity_in(rt: &impl Abort, alloc: Global, instance: &Instance, steps: u64) -> u64 {
    let found = find_prices(alloc, instance, COST, 3, steps, &Stopped).expect(rt, "memory");
    let found = found.expect(rt, "prices");
    found.relaxation.relaxed().capacity()
}
