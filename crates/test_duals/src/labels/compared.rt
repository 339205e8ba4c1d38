//! The least route, beginnings and alive arcs by labels, compared with every route of small random instances.

ghost use Rattle.std.specs.Prelude.{◌≡◌};

use super::fixture::{all_routes, whole_graph};
use crate::assertion::assert_same;
use crate::duals::fixture::{folded, route_cost, set_of};
use std::alloc::Global;
use std::process::Abort;
use test_fixtures::{Random, one_each, with_arcs};
use vrp_duals::{Duals, EntryRow, FoldedDuals, SubsetRow};
use vrp_labels::{Closing, Completions, RouteGraph, close};
use vrp_model::{Crew, CustomerSet, Instance, Unhurried};

pub(super) const PLACES: usize = 7;

pub(super) const CAPACITY: u32 = 6;

// Random prices of one instance, what a cheap route costs at most, and all its routes.
#[derive(Clone, Copy)]
pub(super) struct Case<'a> {
    pub(super) demands: &'a [u32],
    pub(super) gap: i64,
    pub(super) routes: &'a [Vec<u16>],
}

#[test]
fn every_route(rt: HostRuntime) {
    let mut random = Random(5);
    let mut fixed = 0usize;
    for round in 0..24 {
        fixed = fixed.saturating_add(compare(&rt, rt.alloc(), &mut random, round));
    }
    // Arcs are fixed at all: of 49 in each instance.
    assert!(rt; fixed > 24 * 12);
}

// Compares one random instance, and answers how many arcs no cheap route uses.
fn compare(rt: &impl Abort, alloc: Global, random: &mut Random, round: u32) -> usize {
    let instance = random_instance(rt, alloc, random);
    let duals = random_duals(rt, alloc, &instance, random);
    let demands = random_demands(rt, alloc, random);
    let routes = all_routes(rt, alloc, &demands, CAPACITY);
    let case = Case {
        demands: &demands,
        gap: i64::from(round % 4).wrapping_mul(150),
        routes: &routes,
    };
    let prices = folded(rt, alloc, &duals, &instance);
    // Labels remember all customers, so each is a route's own ending.
    let near = set_of(&[1, 2, 3, 4, 5, 6]);
    let graph = whole_graph(
        rt,
        alloc,
        folded(rt, alloc, &duals, &instance),
        (&demands, CAPACITY),
        near,
    );
    let used = assert_case(rt, alloc, &graph, &prices, &case);
    // Some remember only a few: then routes may cost less than any that visits each customer once.
    let few = whole_graph(
        rt,
        alloc,
        folded(rt, alloc, &duals, &instance),
        (&demands, CAPACITY),
        set_of(&[2, 5]),
    );
    assert_bounds(rt, alloc, &few, &prices, &case);
    PLACES.wrapping_mul(PLACES).wrapping_sub(used)
}

// Compares all that the labels tell, and answers how many arcs stay alive.
fn assert_case(
    rt: &impl Abort,
    alloc: Global,
    graph: &RouteGraph,
    prices: &FoldedDuals,
    case: &Case<'_>,
) -> usize {
    let crew = Crew {
        rt: &(),
        alloc,
        workers: 1,
        watch: &Unhurried,
    };
    let closing = close(&crew, graph, case.gap, 100_000).expect(rt, "memory");
    let Closing::Closed(kept) = closing else {
        assert!(rt; false, "a limit was met");
        return 0;
    };
    let completions = Completions::new(alloc, graph, case.gap, kept).expect(rt, "memory");
    let least = least_cost(rt, prices, case).min(0);
    assert_same(rt, completions.least_route(), least, case.gap);
    assert_beginnings(rt, graph, &completions, prices, case);
    assert!(rt; graph.is_even());
    let alive = completions.useful_arcs(alloc).expect(rt, "memory");
    assert_alive(rt, &alive, prices, case);
    let mut count = 0usize;
    for set in &alive {
        count = count.saturating_add(usize::from(set.len()));
    }
    count
}

// With labels that forget customers no route costs less than the least route, and no arc of a cheap one is lost.
fn assert_bounds(
    rt: &impl Abort,
    alloc: Global,
    graph: &RouteGraph,
    prices: &FoldedDuals,
    case: &Case<'_>,
) {
    let crew = Crew {
        rt: &(),
        alloc,
        workers: 1,
        watch: &Unhurried,
    };
    let closing = close(&crew, graph, case.gap, 100_000).expect(rt, "memory");
    let Closing::Closed(kept) = closing else {
        assert!(rt; false, "a limit was met");
        return;
    };
    let completions = Completions::new(alloc, graph, case.gap, kept).expect(rt, "memory");
    assert!(rt; completions.least_route() <= least_cost(rt, prices, case));
    assert_beginnings(rt, graph, &completions, prices, case);
    assert!(rt; graph.is_even());
    let alive = completions.useful_arcs(alloc).expect(rt, "memory");
    assert_alive(rt, &alive, prices, case);
}

// What the cheapest route costs, the empty one left out.
fn least_cost(rt: &impl Abort, prices: &FoldedDuals, case: &Case<'_>) -> i64 {
    let mut least = i64::MAX;
    for route in case.routes {
        if !route.is_empty() {
            least = least.min(route_cost(rt, prices, route));
        }
    }
    least
}

// A cheap route may begin with its first customer.
pub(super) fn assert_beginnings(
    rt: &impl Abort,
    graph: &RouteGraph,
    completions: &Completions<'_>,
    prices: &FoldedDuals,
    case: &Case<'_>,
)
    requires { completions.now.graph ≡ graph.now }
{
    for route in case.routes {
        if route_cost(rt, prices, route) <= case.gap {
            if let Some(&first) = route.first() {
                assert_begins(rt, graph, completions, first);
            }
        }
    }
}

fn assert_begins(rt: &impl Abort, graph: &RouteGraph, completions: &Completions<'_>, first: u16)
    requires { completions.now.graph ≡ graph.now }
{
    let root = graph.root();
    assert!(rt; 1 <= first && first < graph.places());
    assert!(rt;
        completions.may_continue(&root, first),
        "no cheap route begins with {first}"
    );
}

// The arcs of cheap routes are alive.
pub(super) fn assert_alive(
    rt: &impl Abort,
    alive: &[CustomerSet],
    prices: &FoldedDuals,
    case: &Case<'_>,
) {
    for route in case.routes {
        if !route.is_empty() && route_cost(rt, prices, route) <= case.gap {
            let mut from = 0u16;
            for &stop in route {
                assert!(rt; has_arc(alive, from, stop), "{from} to {stop}");
                from = stop;
            }
            assert!(rt; has_arc(alive, from, 0), "{from} to the depot");
        }
    }
}

fn has_arc(alive: &[CustomerSet], from: u16, to: u16) -> bool {
    match alive.get(usize::from(from)) {
        Some(set) => to < 256 && set.contains(to),
        None => false,
    }
}

// Symmetric arcs.
fn random_instance(rt: &impl Abort, alloc: Global, random: &mut Random) -> Instance {
    let mut arcs = vec![in alloc; 0u64; PLACES * PLACES].expect(rt, "memory");
    for from in 0..PLACES {
        for to in 0..from {
            let weight = u64::from(random.next() % 1_000);
            arcs[from * PLACES + to] = weight;
            arcs[to * PLACES + from] = weight;
        }
    }
    let demands = one_each(alloc, PLACES).expect(rt, "demands");
    with_arcs(alloc, &arcs, &demands, 6).expect(rt, "an instance")
}

// From 1 to 3 for each customer.
pub(super) fn random_demands(rt: &impl Abort, alloc: Global, random: &mut Random) -> Vec<u32> {
    let mut demands = Vec::new(alloc);
    demands.push(0).expect(rt, "memory");
    for _ in 1..PLACES {
        demands.push(random.next() % 3 + 1).expect(rt, "memory");
    }
    demands
}

// Prices that leave some routes cheap, two entry rows and four subset rows.
pub(super) fn random_duals(
    rt: &impl Abort,
    alloc: Global,
    instance: &Instance,
    random: &mut Random,
) -> Duals {
    let mut prices = Vec::new(alloc);
    prices.push(0).expect(rt, "memory");
    for _ in 1..PLACES {
        prices
            .push(i64::from(random.next() % 800) + 200)
            .expect(rt, "memory");
    }
    let mut entries = Vec::new(alloc);
    for _ in 0..2 {
        let row = EntryRow {
            customers: random_set(random),
            count: 1,
            price: i64::from(random.next() % 200) - 100,
        };
        entries.push(row).expect(rt, "memory");
    }
    let mut rows = Vec::new(alloc);
    for _ in 0..4 {
        let first = (random.next() % 4 + 1) as u16;
        let customers = set_of(&[first, first + 1, first + 2]);
        let row = SubsetRow {
            customers,
            memory: customers.union(random_set(random)),
            price: u64::from(random.next() % 300),
        };
        rows.push(row).expect(rt, "memory");
    }
    Duals::new(instance, 1, prices, entries, rows).expect(rt, "dual prices")
}

// Each customer with a chance of one in two.
fn random_set(random: &mut Random) -> CustomerSet {
    let mut set = CustomerSet::empty();
    for customer in 1..7 {
        if random.next() % 2 == 0 {
            set = set.with(customer);
        }
    }
    set
}
