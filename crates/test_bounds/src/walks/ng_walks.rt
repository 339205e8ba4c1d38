//! The least ng-walks and the least tours, compared with a program that follows each walk stop by stop.
use crate::assertion::assert_same;
use crate::walks::slow::Slow;
use std::alloc::Global;
use std::process::Abort;
use test_fixtures::with_arcs;
use vrp_bound_prices::{NearLooks, Size, Walks};
use vrp_model::{Instance, NgSets};

// An instance, and a price for each of its places.
#[derive(Clone, Copy)]
struct Case {
    weights: &'static [u64],
    demands: &'static [u64],
    capacity: u64,
    prices: &'static [i64],
}

const WITH_ONE_DIRECTION: Case = Case {
    weights: &ONE_DIRECTION,
    demands: &[0, 1, 2, 1, 1],
    capacity: 6,
    prices: &[0, 0, 0, 0, 0],
};

// All arcs weigh the same.
const ALL_EQUAL: Case = Case {
    weights: &EQUAL,
    demands: &[0, 1, 1, 1, 1, 2],
    capacity: 5,
    prices: &[0, 0, 0, 0, 0, 0],
};

const CASES: &[Case] = &[
    WITH_ONE_DIRECTION,
    Case {
        weights: &ONE_DIRECTION,
        demands: &[0, 1, 1, 2, 1],
        capacity: 5,
        prices: &[0, -7, 4, -3, -9],
    },
    ALL_EQUAL,
    Case {
        weights: &EQUAL,
        demands: &[0, 1, 1, 1, 1, 2],
        capacity: 4,
        prices: &[0, -8, -2, 5, 0, -4],
    },
    // Fewer customers than should be near.
    Case {
        weights: &FEW,
        demands: &[0, 1, 1],
        capacity: 9,
        prices: &[0, -3, -1],
    },
    Case {
        weights: &[0, 3, 4, 0],
        demands: &[0, 2],
        capacity: 3,
        prices: &[0, -5],
    },
];

const WITHOUT_PRICES: &[Case] = &[WITH_ONE_DIRECTION, ALL_EQUAL];

const ONE_DIRECTION: [u64; 25] = [
    0, 3, 9, 4, 6, 8, 0, 2, 7, 1, 5, 6, 0, 1, 4, 9, 3, 8, 0, 2, 7, 5, 3, 6, 0,
];

const EQUAL: [u64; 36] = [
    0, 5, 5, 5, 5, 5, 5, 0, 5, 5, 5, 5, 5, 5, 0, 5, 5, 5, 5, 5, 5, 0, 5, 5, 5, 5, 5, 5, 0, 5, 5, 5,
    5, 5, 5, 0,
];

const FEW: [u64; 9] = [0, 4, 6, 5, 0, 1, 7, 2, 0];

#[test]
fn every_ng_walk(rt: HostRuntime) {
    let mut walks = 0u32;
    for &case in CASES {
        let told = compare_sizes(&rt, rt.alloc(), case);
        walks = walks.saturating_add(told);
    }
    assert!(rt; walks > 10_000);
}

// With none to four near customers for each place; answers the total number of walks.
fn compare_sizes(rt: &impl Abort, alloc: Global, case: Case) -> u32 {
    let instance = instance_of(rt, alloc, case);
    let mut walks = 0u32;
    for size in 0..5 {
        let told = compare(rt, alloc, &instance, case.prices, size);
        walks = walks.saturating_add(told);
    }
    walks
}

// Many walks cost the same.
#[test]
fn walks_by_many_prices(rt: HostRuntime) {
    for &case in WITHOUT_PRICES {
        let instance = instance_of(&rt, rt.alloc(), case);
        for round in 0..20 {
            compare_round(&rt, rt.alloc(), &instance, case.demands.len(), round);
        }
    }
}

// With the prices of this round, and one to three near customers for each place.
fn compare_round(rt: &impl Abort, alloc: Global, instance: &Instance, places: usize, round: i64) {
    let prices = prices_of(rt, alloc, places, round);
    for size in 1..4 {
        compare(rt, alloc, instance, &prices, size);
    }
}

// Prices from -9 to 3, different in each round.
fn prices_of(rt: &impl Abort, alloc: Global, places: usize, round: i64) -> Vec<i64> {
    let mut prices = vec![in alloc; 0; 1].expect(rt, "memory");
    let mut last = round;
    for _ in 1..places {
        last = last.wrapping_mul(7).wrapping_add(5) % 13;
        prices.push(last.wrapping_sub(9)).expect(rt, "memory");
    }
    prices
}

fn instance_of(rt: &impl Abort, alloc: Global, case: Case) -> Instance {
    with_arcs(alloc, case.weights, case.demands, case.capacity).expect(rt, "an instance")
}

// Compares the tables with this many near customers for each place with all walks; answers the number of walks.
fn compare(
    rt: &impl Abort,
    alloc: Global,
    instance: &Instance,
    prices: &[i64],
    size: usize,
) -> u32 {
    let mut walks = empty_walks(rt, alloc, instance, size);
    walks.enter(prices);
    let mut slow = Slow::new(rt, alloc, instance, prices, size, walks.loads());
    compare_filled(rt, alloc, &mut walks, &mut slow)
}

/// Fills the tables, and compares them with all walks that the slow program follows; answers the number of walks.
pub(crate) fn compare_filled(
    rt: &impl Abort,
    alloc: Global,
    walks: &mut Walks,
    slow: &mut Slow,
) -> u32 {
    let whole = walks.fill();
    let count = slow.tell_all(rt, alloc);
    slow.compare_cells(rt, walks);
    let least = slow.least_tours(rt, alloc, walks.whole());
    assert_same(rt, whole, least, count);
    if let Some(cost) = whole {
        compare_used(rt, alloc, slow, walks, cost);
    }
    count
}

// Compares the arcs of the least tours, which have this total cost.
fn compare_used(rt: &impl Abort, alloc: Global, slow: &Slow, walks: &Walks, cost: i64) {
    let mut used = Vec::new(alloc);
    walks.list_used(&mut used).expect(rt, "memory");
    slow.compare_used(rt, &used, cost, walks.whole());
}

/// The tables with this many near customers for each place.
pub(crate) fn empty_walks(
    rt: &impl Abort,
    alloc: Global,
    instance: &Instance,
    size: usize,
) -> Walks {
    assert!(rt; size <= 4);
    let ng_sets = NgSets::nearest(alloc, instance, size).expect(rt, "memory");
    let looks = NearLooks::new(alloc, instance, &ng_sets).expect(rt, "memory");
    let size = Size::in_units(instance, 1);
    Walks::new(alloc, instance, 1, 1, size, looks).expect(rt, "memory")
}
