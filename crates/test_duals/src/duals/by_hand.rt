//! A lower bound and reduced costs worked out by hand, and what is refused.

use super::fixture::{folded, folded_in_full, route_cost, set_of};
use crate::assertion::assert_same;
use std::alloc::Global;
use std::process::Abort;
use test_fixtures::with_arcs;
use vrp_duals::{DualFault, Duals, EntryRow, SubsetRow};
use vrp_model::{CustomerSet, Instance};

const ONE_DIRECTION: &[u64] = &[0, 3, 9, 4, 8, 0, 2, 7, 5, 6, 0, 1, 9, 3, 8, 0];

// A route, and its reduced cost. A unit of cost is 10 price units; the customers' prices are 5, -3 and 7; each entry into {1, 2} is paid
// 4, and each into {1, 2, 3} costs 6; the row of all three customers costs 8.
const ROUTES: &[(&[u16], i64)] = &[
    (&[1], 110 - 5 - 4 + 6),
    (&[3], 130 - 7 + 6),
    (&[1, 2], 100 - 2 - 4 + 6 + 8),
    (&[1, 2, 3], 150 - 9 - 4 + 6 + 8),
    (&[1, 3, 2], 230 - 9 - 8 + 6 + 8),
];

#[test]
fn reduced_costs_by_hand(rt: HostRuntime) {
    let instance = four(&rt, rt.alloc());
    let duals = by_hand(&rt, rt.alloc(), &instance);
    assert_same(&rt, duals.low(), 9 + 4 - 12 - 8, "the lower bound");
    let turning = folded(&rt, rt.alloc(), &duals, &instance);
    let full = folded_in_full(&rt, rt.alloc(), &duals, &instance);
    for &(route, cost) in ROUTES {
        assert_same(&rt, route_cost(&rt, &turning, route), cost, route.len());
        assert_same(&rt, route_cost(&rt, &full, route), cost, route.len());
    }
}

// Whether plans obey a row in any case: customers, count, price. The customers demand 1, 2 and 1, and a truck carries 3; there are
// two trucks.
const NEEDED: &[(&[u16], u16, i64, bool)] = &[
    (&[1, 2], 1, 4, true),
    (&[1, 2], 2, 4, false),
    (&[1, 2, 3], 2, 4, true),
    (&[1, 2, 3], 3, 4, false),
    (&[1, 2, 3], 2, -4, true),
    (&[1, 2, 3], 1, -4, false),
    (&[1, 2], 2, -4, false),
    (&[], 0, 4, true),
    (&[], 1, 4, false),
];

#[test]
fn rows_that_are_needed(rt: HostRuntime) {
    let instance = four(&rt, rt.alloc()).with_trucks(2);
    for &(customers, count, price, needed) in NEEDED {
        let customers = set_of(customers);
        let row = EntryRow {
            customers,
            count,
            price,
        };
        assert!(rt; instance.customers() < 255);
        assert_same(&rt, row.is_needed(&instance), needed, (count, price));
    }
}

// A scale, prices, an entry row's customers and price, a subset row's customers, memory and price, and what is wrong with them.
type Refused<'a> = (
    u32,
    &'a [i64],
    (&'a [u16], i64),
    (&'a [u16], &'a [u16], u64),
    DualFault,
);

const GOOD: &[i64] = &[0, 5, -3, 7];

const REFUSED: &[Refused<'_>] = &[
    (
        0,
        GOOD,
        (&[1], 1),
        (&[1, 2, 3], &[1, 2, 3], 1),
        DualFault::ScaleOutOfRange,
    ),
    (
        131_073,
        GOOD,
        (&[1], 1),
        (&[1, 2, 3], &[1, 2, 3], 1),
        DualFault::ScaleOutOfRange,
    ),
    (
        1,
        &[0, 5, -3],
        (&[1], 1),
        (&[1, 2, 3], &[1, 2, 3], 1),
        DualFault::PriceCount,
    ),
    (
        1,
        &[1, 5, -3, 7],
        (&[1], 1),
        (&[1, 2, 3], &[1, 2, 3], 1),
        DualFault::DepotPrice,
    ),
    (
        1,
        &[0, 5, -70_368_744_177_665, 7],
        (&[1], 1),
        (&[1, 2, 3], &[1, 2, 3], 1),
        DualFault::PriceTooLarge,
    ),
    (
        1,
        GOOD,
        (&[1], -8_589_934_593),
        (&[1, 2, 3], &[1, 2, 3], 1),
        DualFault::EntryPriceTooLarge,
    ),
    (
        1,
        GOOD,
        (&[0, 1], 1),
        (&[1, 2, 3], &[1, 2, 3], 1),
        DualFault::DepotInEntryRow,
    ),
    (
        1,
        GOOD,
        (&[1], 1),
        (&[1, 2, 3], &[1, 2, 3], 137_438_953_473),
        DualFault::RowPriceTooLarge,
    ),
    (
        1,
        GOOD,
        (&[1], 1),
        (&[1, 2], &[1, 2, 3], 1),
        DualFault::RowSize,
    ),
    (
        1,
        GOOD,
        (&[1], 1),
        (&[1, 2, 3], &[1, 2], 1),
        DualFault::OutsideMemory,
    ),
];

#[test]
fn refused_by_name(rt: HostRuntime) {
    let instance = four(&rt, rt.alloc());
    for &(scale, prices, (entered, entry_price), (customers, memory, price), fault) in REFUSED {
        let found = offered(
            (&rt, rt.alloc()),
            &instance,
            (scale, prices),
            (set_of(entered), entry_price),
            SubsetRow {
                customers: set_of(customers),
                memory: set_of(memory),
                price,
            },
        );
        assert_same(&rt, found.err(), Some(fault), prices.len());
    }
}

// Three customers.
fn four(rt: &impl Abort, alloc: Global) -> Instance {
    with_arcs(alloc, ONE_DIRECTION, &[0, 1, 2, 1], 3).expect(rt, "an instance")
}

// These prices, with one entry row and one subset row.
fn offered(
    (rt, alloc): (&impl Abort, Global),
    instance: &Instance,
    (scale, prices): (u32, &[i64]),
    (entered, price): (CustomerSet, i64),
    row: SubsetRow,
) -> Result<Duals, DualFault> {
    let prices = Vec::from_slice(alloc, prices).expect(rt, "memory");
    let entry = EntryRow {
        customers: entered,
        count: 1,
        price,
    };
    let entries = Vec::from_slice(alloc, &[entry]).expect(rt, "memory");
    let rows = Vec::from_slice(alloc, &[row]).expect(rt, "memory");
    Duals::new(instance, scale, prices, entries, rows)
}

// The prices of the routes above.
fn by_hand(rt: &impl Abort, alloc: Global, instance: &Instance) -> Duals {
    let prices = Vec::from_slice(alloc, GOOD).expect(rt, "memory");
    let pair = EntryRow {
        customers: set_of(&[1, 2]),
        count: 1,
        price: 4,
    };
    let whole = EntryRow {
        customers: set_of(&[1, 2, 3]),
        count: 2,
        price: -6,
    };
    let entries = Vec::from_slice(alloc, &[pair, whole]).expect(rt, "memory");
    let row = SubsetRow {
        customers: set_of(&[1, 2, 3]),
        memory: set_of(&[1, 2, 3]),
        price: 8,
    };
    let rows = Vec::from_slice(alloc, &[row]).expect(rt, "memory");
    Duals::new(instance, 10, prices, entries, rows).expect(rt, "dual prices")
}
