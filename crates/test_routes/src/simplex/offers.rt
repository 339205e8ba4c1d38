//! Offers for small pools whose optima are known: they were found by trying every basis with fractions.

use crate::by_hand::{FOUR, Pair, THREE, pool_of};
use crate::random::repeated;
use crate::sets::set_of;
use crate::simplex::choices::Until;
use std::alloc::Global;
use std::process::Abort;
use vrp_model::{FleetView, PLACES};
use vrp_partition::{Guide, Prices, Route, Task, reduced_costs};
use vrp_simplex::ProgramGuide;

// Any two of three customers cost 10 together, and each alone costs 9.
const TRIANGLE: &[Pair] = &[
    (&[1, 2], 10),
    (&[2, 3], 10),
    (&[1, 3], 10),
    (&[1, 2, 3], 40),
    (&[1], 9),
    (&[2], 9),
    (&[3], 9),
];

// Each part of a plan costs as much as its number of customers.
const TIES: &[Pair] = &[
    (&[1, 2], 2),
    (&[2, 3], 2),
    (&[3, 4], 2),
    (&[1, 4], 2),
    (&[1, 3], 2),
    (&[2, 4], 2),
    (&[1], 1),
    (&[2], 1),
    (&[3], 1),
    (&[4], 1),
];

// A ring of five customers, and each alone at a high cost.
const RING: &[Pair] = &[
    (&[1, 2], 6),
    (&[2, 3], 6),
    (&[3, 4], 6),
    (&[4, 5], 6),
    (&[1, 5], 6),
    (&[1], 100),
    (&[2], 100),
    (&[3], 100),
    (&[4], 100),
    (&[5], 100),
];

// One, as a price, and how far a bound may be from the optimum.
const UNIT: i64 = 1 << 20;

const NEAR: i64 = UNIT / 8;

// Routes, customers, trucks, and twice the optimum of the linear program over them.
const OPTIMA: &[(&[Pair], &[u16], u8, i64)] = &[
    (TRIANGLE, &[1, 2, 3], 3, 30),
    (TRIANGLE, &[1, 2, 3], 2, 30),
    (TRIANGLE, &[1, 2, 3], 1, 80),
    (THREE, &[1, 2, 3], 3, 39),
    (THREE, &[1, 2, 3], 1, 50),
    (THREE, &[2, 3], 2, 26),
    (FOUR, &[1, 2, 3, 4], 4, 18),
    (FOUR, &[1, 2, 3], 3, 15),
    (TIES, &[1, 2, 3, 4], 4, 8),
    (TIES, &[1, 2, 3, 4], 2, 8),
    (RING, &[1, 2, 3, 4, 5], 5, 30),
    (&[(&[1], u32::MAX)], &[1], 1, 2 * (u32::MAX as i64)),
    (&[(&[0], 7), (&[255], 8)], &[0, 255], 2, 30),
];

// More than the cost of any choice that is sought.
const MUCH: u64 = 1 << 32;

// An offer that is sought: for these customers with these trucks, below the incumbent. Each customer demands 1. The search may ask so
// often whether to continue.
#[derive(Clone, Copy, Debug)]
struct Asked<'a> {
    customers: &'a [u16],
    trucks: u8,
    capacity: u32,
    incumbent: u64,
    asks: u64,
}

// The bound of the guide's offer for a pool, in price units, and its work. The bound is lowered where a reduced cost is negative.
fn offered(rt: &impl Abort, alloc: Global, asked: &Asked<'_>, pool: &[Route]) -> (i64, u64) {
    let demands = [1u32; PLACES];
    let fleet = FleetView {
        demands: &demands,
        capacity: asked.capacity,
        trucks: asked.trucks,
    };
    let customers = set_of(asked.customers);
    let watch = Until::new(asked.asks);
    let mut guide = ProgramGuide::new(alloc, fleet, Vec::new(alloc), &watch);
    let task = Task {
        fleet,
        customers,
        least_routes: 0,
        incumbent: asked.incumbent,
    };
    let offer = guide.offer(pool, &task).expect(rt, "memory");
    let (primal, dual) = guide.steps();
    assert!(rt; primal.saturating_add(dual) > 0, "no step, at {asked:?}");
    let work = offer.work;
    let prices = Prices::admit(offer, &demands, asked.capacity, customers, 0);
    let prices = prices.expect(rt, "admissible prices");
    let costs = reduced_costs(alloc, &prices, pool).expect(rt, "memory");
    let least = costs.iter().copied().min().unwrap_or(0).min(0);
    let lowered = least.saturating_mul(i64::from(customers.len()));
    let bound = i64::try_from(prices.lower_bound(customers, asked.trucks)).unwrap_or(0);
    (bound.saturating_add(lowered), work)
}

#[test]
fn optima_of_small_pools(rt: HostRuntime) {
    let (rt, alloc) = (&rt, rt.alloc());
    for &(told, customers, trucks, twice) in OPTIMA {
        let asked = Asked {
            customers,
            trucks,
            capacity: 4,
            incumbent: MUCH,
            asks: 1_000,
        };
        let pool = pool_of(rt, alloc, told);
        let (bound, _) = offered(rt, alloc, &asked, &pool);
        let far = bound
            .saturating_sub(twice.saturating_mul(UNIT / 2))
            .saturating_abs();
        let near = NEAR.max((twice / 2).saturating_mul(UNIT / 256));
        assert!(rt;
            far <= near,
            "{bound} is not half of {twice}, of {customers:?}"
        );
    }
}

// Routes, customers, the capacity, and the bound with the cuts that rounds add. In the program each customer is served at least once: on
// the ring by three pairs.
const CUT: &[(&[Pair], &[u16], u32, i64)] = &[
    (TRIANGLE, &[1, 2, 3], 3, 19),
    (TIES, &[1, 2, 3, 4], 2, 4),
    (RING, &[1, 2, 3, 4, 5], 2, 18),
];

// Each route has so many costlier copies that cuts are worth it.
#[test]
fn bounds_with_cuts(rt: HostRuntime) {
    let (rt, alloc) = (&rt, rt.alloc());
    for &(told, customers, capacity, wanted) in CUT {
        let base = pool_of(rt, alloc, told);
        let pool = repeated(rt, alloc, &base, 100, 7);
        let asked = Asked {
            customers,
            trucks: 5,
            capacity,
            incumbent: 5_000,
            asks: 1_000,
        };
        let (bound, work) = offered(rt, alloc, &asked, &pool);
        let far = bound
            .saturating_sub(wanted.saturating_mul(UNIT))
            .saturating_abs();
        assert!(rt; far <= NEAR, "{bound} is not {wanted}, of {customers:?}");
        assert!(rt; work > 0);
    }
}

// Without a choice the bound is above the limit: too few trucks, and a customer whom no route serves.
#[test]
fn bounds_without_a_choice(rt: HostRuntime) {
    let (rt, alloc) = (&rt, rt.alloc());
    let pools: [(&[Pair], &[u16], u8); 2] = [(FOUR, &[1, 2, 3, 4], 1), (&[(&[1], 5)], &[1, 2], 2)];
    for (told, customers, trucks) in pools {
        let asked = Asked {
            customers,
            trucks,
            capacity: 4,
            incumbent: 21,
            asks: 1_000,
        };
        let pool = pool_of(rt, alloc, told);
        let (bound, _) = offered(rt, alloc, &asked, &pool);
        assert!(rt; bound > 20 * UNIT, "{bound} is not above the limit");
    }
}

// A stopped guide still offers prices that bound, if not as well.
#[test]
fn offers_of_a_stopped_guide(rt: HostRuntime) {
    let (rt, alloc) = (&rt, rt.alloc());
    let base = pool_of(rt, alloc, TRIANGLE);
    let pool = repeated(rt, alloc, &base, 100, 7);
    for asks in 0..4 {
        let asked = Asked {
            customers: &[1, 2, 3],
            trucks: 3,
            capacity: 3,
            incumbent: 5_000,
            asks,
        };
        let (bound, _) = offered(rt, alloc, &asked, &pool);
        assert!(rt; bound <= 19 * UNIT + NEAR, "{bound} after {asks}");
    }
}
