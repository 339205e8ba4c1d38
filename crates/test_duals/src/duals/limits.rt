//! Dual prices at their limits: 256 places, 512 entry rows and 256 subset rows, with the greatest prices.

use super::fixture::{folded, folded_in_full, route_cost, set_of};
use crate::assertion::assert_same;
use std::alloc::Global;
use std::process::Abort;
use test_fixtures::{in_layout, one_each};
use vrp_duals::{DualFault, Duals, EntryRow, SubsetRow};
use vrp_model::{Instance, Layout};

const SCALE: i64 = 131_072;

const WEIGHT: i64 = 1_000_000_000;

const PRICE: i64 = 70_368_744_177_664;

const ENTRY_PRICE: i64 = 8_589_934_592;

const ROW_PRICE: i64 = 137_438_953_472;

// With all prices at their limits a route of two customers of each row costs two times its arcs, and all rows once.
#[test]
fn greatest_prices(rt: HostRuntime) {
    let instance = equal_arcs(&rt, rt.alloc(), 256);
    let duals = greatest(&rt, rt.alloc(), &instance).expect(&rt, "dual prices");
    let low = -255 * PRICE - 512 * 2 * ENTRY_PRICE - 256 * ROW_PRICE;
    assert_same(&rt, duals.low(), low, "the lower bound");
    let arcs = 3 * SCALE * WEIGHT + 2 * PRICE + 512 * ENTRY_PRICE;
    let turning = folded(&rt, rt.alloc(), &duals, &instance);
    assert_same(
        &rt,
        route_cost(&rt, &turning, &[254, 255]),
        arcs + 256 * ROW_PRICE,
        "turns",
    );
    let full = folded_in_full(&rt, rt.alloc(), &duals, &instance);
    let longer = arcs + SCALE * WEIGHT + PRICE + 256 * ROW_PRICE;
    assert_same(&rt, route_cost(&rt, &full, &[254, 1, 255]), longer, "pairs");
    assert_same(
        &rt,
        route_cost(&rt, &turning, &[254, 1, 255]),
        longer - 256 * ROW_PRICE,
        "forgotten",
    );
}

#[test]
fn too_many(rt: HostRuntime) {
    let instance = equal_arcs(&rt, rt.alloc(), 257);
    let found = greatest(&rt, rt.alloc(), &instance).err();
    assert_same(&rt, found, Some(DualFault::TooManyPlaces), "places");
}

// The greatest weights between so many places.
fn equal_arcs(rt: &impl Abort, alloc: Global, nodes: usize) -> Instance {
    let demands = one_each(alloc, nodes).expect(rt, "demands");
    let count = nodes.wrapping_mul(nodes.wrapping_sub(1)) / 2;
    let arcs = vec![in alloc; 1_000_000_000u64; count].expect(rt, "memory");
    in_layout(alloc, Layout::LowerRow, &arcs, &demands, 255).expect(rt, "an instance")
}

// All prices at their limits; each row forgets at customer 1.
fn greatest(rt: &impl Abort, alloc: Global, instance: &Instance) -> Result<Duals, DualFault> {
    let places = usize::from(instance.customers()).wrapping_add(1);
    let mut prices = vec![in alloc; -PRICE; places].expect(rt, "memory");
    if let Some(depot) = prices.get_mut(0) {
        *depot = 0;
    }
    let entry = EntryRow {
        customers: set_of(&[254]),
        count: 2,
        price: -ENTRY_PRICE,
    };
    let entries = vec![in alloc; entry; 512].expect(rt, "memory");
    let row = SubsetRow {
        customers: set_of(&[253, 254, 255]),
        memory: set_of(&[253, 254, 255]),
        price: ROW_PRICE as u64,
    };
    let rows = vec![in alloc; row; 256].expect(rt, "memory");
    Duals::new(instance, SCALE as u32, prices, entries, rows)
}
