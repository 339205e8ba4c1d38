//! The cheapest choice with the guide, compared with every choice of random pools.

use crate::assertion::assert_same;
use crate::random::{self, CUSTOMERS, repeated};
use crate::sets::set_of;
use crate::slow::{cost_of_choice, least_cost};
use std::alloc::Global;
use std::process::Abort;
use std::sync::atomic::{AtomicU64, Ordering};
use std::thread::Threads;
use test_fixtures::Random;
use vrp_model::{Crew, CustomerSet, FleetView, PLACES, Watch};
use vrp_partition::{Chosen, Found, Route, Task, all_fit, cheapest_choice};
use vrp_simplex::ProgramGuide;

/// The search continues until it has asked this often.
#[derive(Drop)]
pub(crate) struct Until {
    left: AtomicU64,
}

impl Until {
    pub(crate) fn new(count: u64) -> Until {
        Until {
            left: AtomicU64::new(count),
        }
    }
}

impl Watch for Until {
    fn should_continue(&self) -> bool {
        let left = self.left.load(Ordering::SeqCst);
        self.left.store(left.saturating_sub(1), Ordering::SeqCst);
        left > 0
    }
}

const MUCH: u64 = 1 << 32;

const ENDLESS: u64 = 1 << 40;

// A search with the guide. Each customer demands 1.
#[derive(Clone, Copy, Debug)]
struct Asked<'a> {
    capacity: u32,
    trucks: u8,
    customers: &'a [u16],
    incumbent: u64,
    // How often the search may ask whether to continue, and its budget.
    asks: u64,
    budget: u64,
}

fn choice<R: Abort + Threads + Sync>(
    rt: &R,
    alloc: Global,
    asked: &Asked<'_>,
    pool: &[Route],
) -> Option<Chosen> {
    let demands = [1u32; PLACES];
    assert!(rt; all_fit(pool, &demands, asked.capacity) && asked.incumbent <= MUCH);
    let fleet = FleetView {
        demands: &demands,
        capacity: asked.capacity,
        trucks: asked.trucks,
    };
    let known = known_sets(rt, alloc, pool);
    let watch = Until::new(asked.asks);
    let crew = Crew {
        rt,
        alloc,
        workers: 2,
        watch: &watch,
    };
    let guide = ProgramGuide::new(alloc, fleet, known, &watch);
    let mut budget = asked.budget;
    let routes = Vec::from_slice(alloc, pool).expect(rt, "memory");
    let task = Task {
        fleet,
        customers: set_of(asked.customers),
        least_routes: 0,
        incumbent: asked.incumbent,
    };
    let found = cheapest_choice(&crew, guide, &task, routes, &mut budget);
    match found.expect(rt, "memory") {
        Found::Cheapest(chosen) => Some(chosen),
        Found::Unfinished { .. } => None,
    }
}

// The customers of the first route.
fn known_sets(rt: &impl Abort, alloc: Global, pool: &[Route]) -> Vec<CustomerSet> {
    let mut known = Vec::new(alloc);
    for route in pool.iter().take(1) {
        known.push(route.set).expect(rt, "memory");
    }
    known
}

// Below the incumbent the routes are a choice of that cost.
fn assert_found(rt: &impl Abort, asked: &Asked<'_>, found: Option<Chosen>, least: Option<u64>) {
    let found = found.expect(rt, "a budget that suffices");
    let wanted = least.map_or(asked.incumbent, |least| least.min(asked.incumbent));
    assert_same(rt, found.cost, wanted, *asked);
    if found.cost < asked.incumbent {
        let cost = cost_of_choice(&found.routes, set_of(asked.customers), asked.trucks);
        assert_same(rt, cost, Some(found.cost), *asked);
    }
}

// Many ties, since costs are below 4; often no choice at all, or none with so few trucks; questions about some of the
// customers.
#[test]
fn choices_beside_every_choice(rt: HostRuntime) {
    let (rt, alloc) = (&rt, rt.alloc());
    let mut random = Random(2);
    for round in 0..40u32 {
        let capacity = 2 + round % 3;
        let pool = random::pool(
            rt,
            alloc,
            &mut random,
            (4 + round % 9, capacity),
            4 + round % 3 * 50,
        );
        for customers in [CUSTOMERS, &CUSTOMERS[1..]] {
            for (trucks, incumbent) in [(128, MUCH), (3, MUCH), (2, 40), (128, 3)] {
                let asked = Asked {
                    capacity,
                    trucks,
                    customers,
                    incumbent,
                    asks: ENDLESS,
                    budget: ENDLESS,
                };
                let least = least_cost(rt, &pool, set_of(customers), trucks);
                let found = choice(rt, alloc, &asked, &pool);
                assert_found(rt, &asked, found, least);
            }
        }
    }
}

// More than the cost of any choice of cheap routes.
const DEAR: u64 = 600;

// Each route has so many costlier copies that a node is priced, paused and branched on before it is searched.
#[test]
fn pools_that_are_branched_on(rt: HostRuntime) {
    let (rt, alloc) = (&rt, rt.alloc());
    let mut random = Random(3);
    for round in 0..6u32 {
        let base = random::pool(rt, alloc, &mut random, (10, 3), 10);
        let pool = repeated(rt, alloc, &base, 320, 7);
        let asked = Asked {
            capacity: 3,
            trucks: 4,
            customers: CUSTOMERS,
            incumbent: DEAR,
            asks: ENDLESS,
            budget: ENDLESS,
        };
        let least = least_cost(rt, &base, set_of(CUSTOMERS), 4);
        let found = choice(rt, alloc, &asked, &pool);
        assert_found(rt, &asked, found, least);
        for (asks, budget) in [(0, ENDLESS), (1, 1), (0, 0)] {
            let cut_off = Asked {
                asks,
                budget,
                incumbent: MUCH,
                ..asked
            };
            let found = choice(rt, alloc, &cut_off, &pool);
            assert_same(rt, found.is_some(), false, (round, asks, budget));
        }
    }
}
