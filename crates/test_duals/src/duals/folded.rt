//! Folded costs compared with reduced costs by a plain slow program, on random prices, rows and routes.

use super::fixture::{folded, folded_in_full, route_cost};
use super::slow::Slow;
use crate::assertion::assert_same;
use std::alloc::Global;
use std::process::Abort;
use test_fixtures::{Random, one_each, with_arcs};
use vrp_duals::{Duals, EntryRow, FoldedDuals, SubsetRow};
use vrp_model::{CustomerSet, Instance};

// The number of places, the depot among them.
const PLACES: u16 = 9;

const SCALE: u32 = 7;

#[test]
fn random_prices(rt: HostRuntime) {
    let mut random = Random(17);
    for _ in 0..60 {
        compare(&rt, rt.alloc(), &mut random);
    }
}

// Compares routes by one list of random prices.
fn compare(rt: &impl Abort, alloc: Global, random: &mut Random) {
    let arcs = random_arcs(rt, alloc, random);
    let demands = one_each(alloc, usize::from(PLACES)).expect(rt, "demands");
    let instance = with_arcs(alloc, &arcs, &demands, 9).expect(rt, "an instance");
    let prices = random_prices_of(rt, alloc, random);
    let entries = random_entries(rt, alloc, random);
    let rows = random_rows(rt, alloc, random);
    let slow = Slow {
        arcs: &arcs,
        places: usize::from(PLACES),
        scale: i64::from(SCALE),
        prices: &prices,
        entries: &entries,
        rows: &rows,
    };
    let duals = made(rt, alloc, &instance, slow);
    let turning = folded(rt, alloc, &duals, &instance);
    let full = folded_in_full(rt, alloc, &duals, &instance);
    for _ in 0..40 {
        let route = random_route(rt, alloc, random);
        assert_route(rt, slow, (&turning, &full), &route);
    }
}

// The same prices, checked.
fn made(rt: &impl Abort, alloc: Global, instance: &Instance, slow: Slow<'_>) -> Duals {
    let prices = Vec::from_slice(alloc, slow.prices).expect(rt, "memory");
    let entries = Vec::from_slice(alloc, slow.entries).expect(rt, "memory");
    let rows = Vec::from_slice(alloc, slow.rows).expect(rt, "memory");
    Duals::new(instance, SCALE, prices, entries, rows).expect(rt, "dual prices")
}

fn assert_route(
    rt: &impl Abort,
    slow: Slow<'_>,
    (turning, full): (&FoldedDuals, &FoldedDuals),
    route: &[u16],
) {
    let turns = slow.reduced(route, false);
    assert_same(rt, route_cost(rt, turning, route), turns, route.len());
    let pairs = slow.reduced(route, true);
    assert_same(rt, route_cost(rt, full, route), pairs, route.len());
    assert!(rt; turns <= pairs);
}

fn random_arcs(rt: &impl Abort, alloc: Global, random: &mut Random) -> Vec<u64> {
    let mut arcs = Vec::new(alloc);
    for _ in 0..PLACES * PLACES {
        arcs.push(u64::from(random.next() % 1_000))
            .expect(rt, "memory");
    }
    arcs
}

// A price of either sign for each customer.
fn random_prices_of(rt: &impl Abort, alloc: Global, random: &mut Random) -> Vec<i64> {
    let mut prices = Vec::new(alloc);
    prices.push(0).expect(rt, "memory");
    for _ in 1..PLACES {
        let price = i64::from(random.next() % 2_000).wrapping_sub(1_000);
        prices.push(price).expect(rt, "memory");
    }
    prices
}

fn random_entries(rt: &impl Abort, alloc: Global, random: &mut Random) -> Vec<EntryRow> {
    let mut entries = Vec::new(alloc);
    for _ in 0..4 {
        let row = EntryRow {
            customers: random_set(random),
            count: 1,
            price: i64::from(random.next() % 600).wrapping_sub(300),
        };
        entries.push(row).expect(rt, "memory");
    }
    entries
}

// Rows of three and of five customers, with memories of their own.
fn random_rows(rt: &impl Abort, alloc: Global, random: &mut Random) -> Vec<SubsetRow> {
    let mut rows = Vec::new(alloc);
    for index in 0..6 {
        let customers = random_members(random, if index % 2 == 0 { 3 } else { 5 });
        let row = SubsetRow {
            customers,
            memory: customers.union(random_set(random)),
            price: u64::from(random.next() % 400),
        };
        rows.push(row).expect(rt, "memory");
    }
    rows
}

// Each customer with a chance of one in two.
fn random_set(random: &mut Random) -> CustomerSet {
    let mut set = CustomerSet::empty();
    for customer in 1..PLACES {
        if random.next() % 2 == 0 {
            set = set.with(customer);
        }
    }
    set
}

// So many customers in a row, from a random one on.
fn random_members(random: &mut Random, count: u16) -> CustomerSet {
    let first = (random.next() % 8) as u16;
    let mut set = CustomerSet::empty();
    for index in 0..count {
        let step = first.wrapping_add(index.wrapping_mul(3)) % 8;
        set = set.with(step + 1);
    }
    set
}

// Some customers in a random order, each once.
fn random_route(rt: &impl Abort, alloc: Global, random: &mut Random) -> Vec<u16> {
    let mut route: Vec<u16> = Vec::new(alloc);
    for _ in 0..random.next() % 12 + 1 {
        let stop = (random.next() % 8) as u16 + 1;
        if !route.as_slice().contains(&stop) {
            route.push(stop).expect(rt, "memory");
        }
    }
    route
}
