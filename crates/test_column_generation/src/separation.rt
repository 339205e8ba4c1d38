//! Violated rows of small solutions, by hand, and at the limits.

use crate::assertion::assert_same;
use std::alloc::Global;
use std::process::Abort;
use vrp_columns_and_cuts::{CutSearch, ONE, RowSearch, UsedRoute, violated_entries, violated_rows};
use vrp_duals::SubsetRow;
use vrp_model::{CustomerSet, FleetView, PLACES};

const HALF: i64 = ONE / 2;

const QUARTER: i64 = ONE / 4;

// A few rows, and no moves.
const FEW_CUTS: CutSearch = CutSearch { most: 5, moves: 0 };

const TRIPLES: RowSearch = RowSearch {
    most: 5,
    most_each: 5,
    fives: false,
};

const FIVES: RowSearch = RowSearch {
    fives: true,
    ..TRIPLES
};

// The stops of routes.
type Routes<'a> = &'a [&'a [u16]];

// Each two of three customers, five customers in a circle, and each two of five.
const TRIANGLE: Routes<'static> = &[&[1, 2], &[2, 3], &[3, 1]];

const CIRCLE: Routes<'static> = &[&[1, 2], &[2, 3], &[3, 4], &[4, 5], &[5, 1]];

const PAIRS: Routes<'static> = &[
    &[1, 2],
    &[2, 3],
    &[3, 4],
    &[4, 5],
    &[5, 1],
    &[1, 3],
    &[2, 4],
    &[3, 5],
    &[4, 1],
    &[5, 2],
];

// Three customers of demand 2, two of whom a truck carries, need two trucks, and one and a half come. If a truck carries all, or only those
// of whom the solution has enough routes, nothing is violated.
#[test]
fn capacity_cuts(rt: HostRuntime) {
    // The routes, the capacity, how many customers are moved, the customers of the cut and how often they are entered.
    let rows: &[(Routes<'_>, u32, u32, &[u16], u16)] = &[
        (TRIANGLE, 4, 0, &[1, 2, 3], 2),
        (TRIANGLE, 4, 10, &[1, 2, 3], 2),
        (TRIANGLE, 5, 0, &[1, 2, 3], 2),
        (TRIANGLE, 6, 0, &[], 0),
        (&[&[1, 2], &[1, 2], &[3], &[3]], 4, 10, &[], 0),
        // Two and a half trucks where five customers need three.
        (CIRCLE, 4, 0, &[1, 2, 3, 4, 5], 3),
    ];
    for &(routes, capacity, moves, customers, count) in rows {
        let used = used(&rt, rt.alloc(), routes, HALF);
        let all = served(routes);
        let demands = [2u32; PLACES];
        let fleet = FleetView {
            demands: &demands,
            capacity,
            trucks: 255,
        };
        let search = CutSearch { moves, ..FEW_CUTS };
        let found = violated_entries(rt.alloc(), all, fleet, &used, &[], search);
        let found = found.expect(&rt, "memory");
        let first = found.first().map(|row| (row.customers, row.count));
        let wanted = (count > 0).then_some((set_of(customers), count));
        assert_same(&rt, first, wanted, (routes, capacity, moves));
        // A set that is known is not found again.
        let known = [set_of(customers)];
        let again = violated_entries(rt.alloc(), all, fleet, &used, &known, search);
        let again = again.expect(&rt, "memory");
        let is_known = again.iter().any(|row| row.customers == known[0]);
        assert!(&rt; !is_known || count == 0, "{capacity} {moves}");
    }
}

// A row of three or five customers, and what it remembers: the stops between two of them.
#[test]
fn subset_rows(rt: HostRuntime) {
    let apart: Routes<'_> = &[&[1, 4, 2], &[2, 5, 3], &[3, 6, 1]];
    let rows: &[(Routes<'_>, i64, RowSearch, &[u16], &[u16])] = &[
        (TRIANGLE, HALF, TRIPLES, &[1, 2, 3], &[1, 2, 3]),
        (apart, HALF, TRIPLES, &[1, 2, 3], &[1, 2, 3, 4, 5, 6]),
        (PAIRS, QUARTER, TRIPLES, &[], &[]),
        (PAIRS, QUARTER, FIVES, &[1, 2, 3, 4, 5], &[1, 2, 3, 4, 5]),
        (&[&[1, 2], &[3]], ONE, FIVES, &[], &[]),
        // A route that comes to a customer twice pays for that too.
        (&[&[1, 2, 1], &[3, 2]], ONE, TRIPLES, &[1, 2, 3], &[1, 2, 3]),
    ];
    for &(routes, value, search, customers, memory) in rows {
        let used = used(&rt, rt.alloc(), routes, value);
        let all = served(routes);
        let found = violated_rows(rt.alloc(), all, &used, &[], search);
        let found = found.expect(&rt, "memory");
        let first = found.first().map(|row| (row.customers, row.memory));
        let is_some = !customers.is_empty();
        let wanted = is_some.then_some((set_of(customers), set_of(memory)));
        assert_same(&rt, first, wanted, routes);
        // A row that is known is not found again; one with the same customers that remembers less is.
        let known = [SubsetRow {
            customers: set_of(customers),
            memory: set_of(memory),
            price: 0,
        }];
        let again = violated_rows(rt.alloc(), all, &used, &known, search);
        let again = again.expect(&rt, "memory");
        assert!(&rt;
            !again.iter().any(|row| row.customers == known[0].customers),
            "{routes:?}"
        );
    }
}

// With 255 customers, each on two routes used by half, to the next one on either side: half a truck is missing for all of them, and for no
// other set.
#[test]
fn most_customers(rt: HostRuntime) {
    let alloc = rt.alloc();
    let mut used = Vec::new(alloc);
    let mut all = CustomerSet::empty();
    for customer in 1..PLACES as u16 {
        let next = if customer == 255 { 1 } else { customer + 1 };
        let stops = Vec::from_slice(alloc, &[customer, next]).expect(&rt, "memory");
        used.push(UsedRoute { stops, value: HALF })
            .expect(&rt, "memory");
        all = all.union(set_of(&[customer]));
    }
    let demands = [1u32; PLACES];
    let fleet = FleetView {
        demands: &demands,
        capacity: 2,
        trucks: 255,
    };
    let found = violated_entries(alloc, all, fleet, &used, &[], FEW_CUTS).expect(&rt, "memory");
    let first = found.first().map(|row| (row.customers, row.count));
    assert_same(&rt, (found.len(), first), (1, Some((all, 128))), "cuts");
    let rows = violated_rows(alloc, all, &used, &[], FIVES).expect(&rt, "memory");
    assert_same(&rt, rows.len(), 0, "rows");
}

// Each of these routes, so much of it.
fn used(rt: &impl Abort, alloc: Global, routes: Routes<'_>, value: i64) -> Vec<UsedRoute> {
    let mut used = Vec::new(alloc);
    for &stops in routes {
        let stops = Vec::from_slice(alloc, stops).expect(rt, "memory");
        used.push(UsedRoute { stops, value }).expect(rt, "memory");
    }
    used
}

// The customers whom routes serve.
fn served(routes: Routes<'_>) -> CustomerSet {
    let mut all = CustomerSet::empty();
    for &stops in routes {
        all = all.union(set_of(stops));
    }
    all
}

// These places.
fn set_of(places: &[u16]) -> CustomerSet {
    let mut set = CustomerSet::empty();
    for &place in places {
        if usize::from(place) < PLACES {
            set = set.with(place);
        }
    }
    set
}
