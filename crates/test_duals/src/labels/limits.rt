//! Labels at their limits: 256 places, few labels allowed, and a stage that is stopped.

use super::fixture::whole_graph;
use crate::assertion::assert_same;
use crate::duals::fixture::folded;
use std::alloc::Global;
use std::process::Abort;
use test_fixtures::{in_layout, one_each};
use vrp_duals::Duals;
use vrp_labels::{Closing, ClosingLimit, Completions, RouteGraph, close};
use vrp_model::{Crew, CustomerSet, Layout, Unhurried, Watch};

const PLACES: usize = 256;

// A watch that stops at once.
struct Stopped;

impl Watch for Stopped {
    fn should_continue(&self) -> bool {
        false
    }
}

// All arcs cost 7, and each customer's price is 5: a route of one costs 9, and each customer more costs 2.
#[test]
fn most_places(rt: HostRuntime) {
    let graph = equal_arcs(&rt, rt.alloc(), PLACES);
    let crew = Crew {
        rt: &(),
        alloc: rt.alloc(),
        workers: 1,
        watch: &Unhurried,
    };
    let closing = close(&crew, &graph, 20, 1_000_000).expect(&rt, "memory");
    let Closing::Closed(kept) = closing else {
        assert!(&rt; false, "a limit was met");
        return;
    };
    assert_same(&rt, kept.len(), PLACES, "piles");
    let completions = Completions::new(rt.alloc(), &graph, 20, kept).expect(&rt, "memory");
    let root = graph.root();
    assert!(&rt; 1 < graph.places());
    assert!(&rt; graph.may_advance(&root, 1));
    let one = graph.advanced(&root, 1);
    assert_same(&rt, completions.least(&one), 7, "home at once");
    assert_same(&rt, completions.least_route(), 0, "no route");
}

#[test]
fn limits_are_met(rt: HostRuntime) {
    let graph = equal_arcs(&rt, rt.alloc(), 20);
    let crew = Crew {
        rt: &(),
        alloc: rt.alloc(),
        workers: 1,
        watch: &Unhurried,
    };
    let found = close(&crew, &graph, 20, 10).expect(&rt, "memory");
    assert_met(&rt, &found, ClosingLimit::Labels);
    let stopped = Crew {
        rt: &(),
        alloc: rt.alloc(),
        workers: 1,
        watch: &Stopped,
    };
    let found = close(&stopped, &graph, 20, 1_000_000).expect(&rt, "memory");
    assert_met(&rt, &found, ClosingLimit::Stopped);
}

fn assert_met(rt: &impl Abort, found: &Closing, limit: ClosingLimit) {
    match found {
        Closing::Met(met) => assert_same(rt, *met, limit, "the limit"),
        Closing::Closed(_) => assert!(rt; false, "no limit was met"),
    }
}

// A graph of so many places, at most 256: each customer demands one unit, and is remembered nowhere.
fn equal_arcs(rt: &impl Abort, alloc: Global, places: usize) -> RouteGraph {
    assert!(rt; 1 <= places && places <= PLACES);
    let demands = one_each(alloc, places).expect(rt, "demands");
    let arcs = vec![in alloc; 7u64; places * (places - 1) / 2].expect(rt, "memory");
    let instance = in_layout(alloc, Layout::LowerRow, &arcs, &demands, 255).expect(
        rt,
        "an instance",
    );
    let mut prices = vec![in alloc; 5i64; places].expect(rt, "memory");
    if let Some(depot) = prices.get_mut(0) {
        *depot = 0;
    }
    let duals = Duals::new(&instance, 1, prices, Vec::new(alloc), Vec::new(alloc)).expect(
        rt,
        "dual prices",
    );
    let units = vec![in alloc; 1u32; places].expect(rt, "memory");
    whole_graph(
        rt,
        alloc,
        folded(rt, alloc, &duals, &instance),
        (&units, 255),
        CustomerSet::empty(),
    )
}
