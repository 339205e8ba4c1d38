//! Passes by dual prices: values by hand, faults, and limits.

ghost use Rattle.std.specs.Prelude.{◌≡◌};
ghost use Rattle.vrp_duals.specs.Duals.{AreDualsOf};
ghost use Rattle.vrp_routes.specs.Range.{plans_within};

use crate::assertion::assert_same;
use crate::duals::fixture::set_of;
use std::alloc::Global;
use std::process::Abort;
use std::thread::Threads;
use test_fixtures::{in_layout, one_each, with_arcs};
use vrp_duals::{Duals, EntryRow};
use vrp_labels::ClosingLimit;
use vrp_model::{Crew, CustomerSet, Instance, Layout, NO_COST, PLACES, Unhurried, Watch};
use vrp_priced_routes::{AliveArcs, Pass, PassFault, Passed, nearest_sets, run_pass};
use vrp_routes::{Listed, PlanRange};

const MOST_LABELS: usize = 1_000_000;

// A watch that stops at once.
struct Stopped;

impl Watch for Stopped {
    fn should_continue(&self) -> bool {
        false
    }
}

// What a pass gives.
#[derive(Clone, Copy, Debug, PartialEq, Eq)]
struct Found {
    bound: u64,
    routes: usize,
}

// Two customers, 10 from the depot and 4 from each other. One truck carries both, and the cheapest plan is the route 1 2, which costs 24; its
// reduced cost is 24 less both prices.
#[test]
fn by_hand(rt: HostRuntime) {
    // The price of each customer, the limit, the guess, the bound, and the number of routes.
    let rows: &[(i64, u64, u64, u64, usize)] = &[
        (12, 24, 0, 24, 1),
        (12, 24, 7, 24, 1),
        // No plan costs 23, and the bound says so.
        (12, 23, 0, 24, 0),
        // The route costs 2 below 0, so the bound is 26 less twice that.
        (13, 24, 0, 22, 1),
        (13, 24, 2, 22, 1),
        // Prices say little: 20 in all.
        (10, 24, 0, 20, 1),
        (0, 1_000, 0, 0, 3),
    ];
    for &(price, limit, guess, bound, routes) in rows {
        let instance = pair(&rt, rt.alloc());
        let found = pass_by_equal_prices(&rt, rt.alloc(), &instance, price, limit, guess);
        assert_same(&rt, found, Found { bound, routes }, (price, limit, guess));
    }
}

// The arcs for plans of up to 1,000 serve for lower limits too: a pass along them leaves the routes of plans within the limit.
#[test]
fn lower_limits(rt: HostRuntime) {
    let alloc = rt.alloc();
    let instance = pair(&rt, alloc);
    let duals = equal_prices(&rt, alloc, &instance, 12, &[]);
    let arcs = all_arcs(&rt, alloc, &instance, 1_000);
    // The limit and the number of routes: the plan of two trucks costs 40.
    for (limit, routes) in [(23, 0), (24, 1), (40, 3), (1_000, 3)] {
        assert!(rt; limit <= 1_000);
        let range = PlanRange::within(limit);
        let lower = arcs.part(alloc, range).expect(&rt, "memory");
        assert_same(&rt, lower.range(), range, "range");
        let found = found_along(&rt, alloc, &lower, &duals, 0);
        assert_same(&rt, found, Found { bound: 24, routes }, limit);
    }
}

// With 255 customers, each a truckload and 7 from the depot: a plan costs 14 for each, and its routes are those of one customer.
#[test]
fn most_customers(rt: HostRuntime) {
    let alloc = rt.alloc();
    let demands = one_each(alloc, PLACES).expect(&rt, "demands");
    let arcs = vec![in alloc; 7u64; PLACES * (PLACES - 1) / 2].expect(&rt, "memory");
    let instance = in_layout(alloc, Layout::UpperRow, &arcs, &demands, 1).expect(&rt, "instance");
    let found = pass_by_equal_prices(&rt, alloc, &instance, 14, 3_570, 0);
    let wanted = Found {
        bound: 3_570,
        routes: 255,
    };
    assert_same(&rt, found, wanted, "all");
}

// An entry row that some feasible plan doesn't obey, ng-sets of another number, and prices that are too far from any bound.
#[test]
fn faults(rt: HostRuntime) {
    let instance = pair(&rt, rt.alloc());
    let alloc = rt.alloc();
    let free = equal_prices(&rt, alloc, &instance, 12, &[]);
    let twice = EntryRow {
        customers: set_of(&[1, 2]),
        count: 2,
        price: 5,
    };
    let forced = equal_prices(&rt, alloc, &instance, 12, &[twice]);
    let sets = [CustomerSet::empty(); 3];
    let arcs = all_arcs(&rt, alloc, &instance, 24);
    let crew = Crew {
        rt: &(),
        alloc,
        workers: 1,
        watch: &Unhurried,
    };
    let passed = run_pass(&crew, &arcs, &forced, &sets, 0, MOST_LABELS).expect(&rt, "memory");
    assert_refused(&rt, passed, PassFault::EntryRow);
    let passed = run_pass(&crew, &arcs, &free, &[], 0, MOST_LABELS).expect(&rt, "memory");
    assert_refused(&rt, passed, PassFault::NearSets);
    let far = u64::MAX;
    let passed = run_pass(&crew, &arcs, &free, &sets, far, MOST_LABELS).expect(&rt, "memory");
    assert_refused(&rt, passed, PassFault::Gap);
}

#[test]
fn limits_are_met(rt: HostRuntime) {
    let instance = pair(&rt, rt.alloc());
    let alloc = rt.alloc();
    let duals = equal_prices(&rt, alloc, &instance, 12, &[]);
    let sets = [CustomerSet::empty(); 3];
    let arcs = all_arcs(&rt, alloc, &instance, 24);
    let crew = Crew {
        rt: &(),
        alloc,
        workers: 1,
        watch: &Unhurried,
    };
    let passed = run_pass(&crew, &arcs, &duals, &sets, 0, 0).expect(&rt, "memory");
    assert_met(&rt, passed, ClosingLimit::Labels);
    let stopped = Crew {
        rt: &(),
        alloc,
        workers: 1,
        watch: &Stopped,
    };
    let passed = run_pass(&stopped, &arcs, &duals, &sets, 0, MOST_LABELS).expect(&rt, "memory");
    assert_met(&rt, passed, ClosingLimit::Stopped);
}

fn assert_met(rt: &impl Abort, passed: Passed<'_, '_>, wanted: ClosingLimit) {
    match passed {
        Passed::Met(limit) => assert_same(rt, limit, wanted, "limit"),
        _ => assert!(rt; false, "no limit was met"),
    }
}

fn assert_refused(rt: &impl Abort, passed: Passed<'_, '_>, wanted: PassFault) {
    match passed {
        Passed::Refused(fault) => assert_same(rt, fault, wanted, "fault"),
        _ => assert!(rt; false, "nothing was refused"),
    }
}

// The bound and the number of routes of a pass by equal prices.
fn pass_by_equal_prices<R: Abort + Threads + Sync>(
    rt: &R,
    alloc: Global,
    instance: &Instance,
    price: i64,
    limit: u64,
    guess: u64,
) -> Found {
    let duals = equal_prices(rt, alloc, instance, price, &[]);
    let arcs = all_arcs(rt, alloc, instance, limit);
    found_along(rt, alloc, &arcs, &duals, guess)
}

// The same of a pass along these arcs.
fn found_along<R: Abort + Threads + Sync>(
    rt: &R,
    alloc: Global,
    arcs: &AliveArcs<'_>,
    duals: &Duals,
    guess: u64,
) -> Found
    requires { AreDualsOf arcs.now.problem duals.now }
{
    let near = nearest_sets(alloc, arcs.instance(), 8).expect(rt, "memory");
    let crew = Crew {
        rt,
        alloc,
        workers: 1,
        watch: &Unhurried,
    };
    let passed = run_pass(&crew, arcs, duals, &near, guess, MOST_LABELS).expect(rt, "memory");
    let mut found = Found {
        bound: 0,
        routes: usize::MAX,
    };
    if let Passed::Closed(pass) = passed {
        let Pass { arcs: _, labels } = pass;
        found.bound = labels.lower_bound();
        let listed = labels.list_routes(&crew, 1_000_000).expect(rt, "memory");
        if let Listed::Pool(pool) = listed {
            found.routes = pool.len();
        }
    }
    found
}

// The instance of two customers.
fn pair(rt: &impl Abort, alloc: Global) -> Instance {
    let arcs = [0, 10, 10, 10, 0, 4, 10, 4, 0];
    with_arcs(alloc, &arcs, &[0, 1, 1], 2).expect(rt, "an instance")
}

// The same price for each customer, and these entry rows.
fn equal_prices(
    rt: &impl Abort,
    alloc: Global,
    instance: &Instance,
    price: i64,
    rows: &[EntryRow],
) -> Duals
    ensures { AreDualsOf instance.now result }
{
    let mut prices = Vec::new(alloc);
    prices.push(0).expect(rt, "memory");
    for _ in 0..instance.customers() {
        prices.push(price).expect(rt, "memory");
    }
    let entries = Vec::from_slice(alloc, rows).expect(rt, "memory");
    Duals::new(instance, 1, prices, entries, Vec::new(alloc)).expect(rt, "prices")
}

// All arcs, for plans within a limit.
fn all_arcs<'a>(rt: &impl Abort, alloc: Global, instance: &'a Instance, limit: u64) -> AliveArcs<'a>
    ensures problem { result.problem ≡ instance.now }
    ensures range { result.range ≡ plans_within limit }
{
    assert!(rt; usize::from(instance.customers()) < PLACES && limit <= NO_COST);
    AliveArcs::all(alloc, instance, limit).expect(rt, "memory")
}
