//! Routes that cost differently from either end: the arcs of cheap ones by both closures, and labels that are used again where fewer arcs are
//! alive and rows are remembered everywhere.

ghost use Rattle.std.specs.Prelude.{◌≡◌, length};
ghost use Rattle.vrp_labels.specs.Closing.{AreKept};
ghost use Rattle.vrp_labels.specs.Fixing.{AreAlive};
ghost use Rattle.vrp_labels.specs.Label.{IsClosed};
ghost use Rattle.vrp_labels.specs.Reversal.{IsClosedReversed};

use super::compared::{
    CAPACITY, Case, PLACES, assert_alive, assert_beginnings, random_demands, random_duals,
};
use super::fixture::{all_routes, whole_graph};
use crate::duals::fixture::{folded, folded_in_full, set_of};
use std::alloc::Global;
use std::process::Abort;
use test_fixtures::{Random, one_each, with_arcs};
use vrp_duals::{FoldedDuals, RowSet};
use vrp_labels::{Closing, Completions, LabelPiles, RouteGraph, close};
use vrp_model::{Crew, CustomerSet, Instance, Unhurried};

#[test]
fn one_way_costs(rt: HostRuntime) {
    let mut random = Random(11);
    for round in 0..6 {
        compare(&rt, rt.alloc(), &mut random, i64::from(round * 60u32));
    }
}

// Compares one random instance.
fn compare(rt: &impl Abort, alloc: Global, random: &mut Random, gap: i64) {
    let instance = one_way_instance(rt, alloc, random);
    let duals = random_duals(rt, alloc, &instance, random);
    let demands = random_demands(rt, alloc, random);
    let routes = all_routes(rt, alloc, &demands, CAPACITY);
    let case = Case {
        demands: &demands,
        gap,
        routes: &routes,
    };
    let prices = folded(rt, alloc, &duals, &instance);
    let graph = whole_graph(
        rt,
        alloc,
        folded(rt, alloc, &duals, &instance),
        (&demands, CAPACITY),
        set_of(&[2, 5]),
    );
    let kept = closed(rt, alloc, &graph, gap);
    let completions = Completions::new(alloc, &graph, gap, kept).expect(rt, "memory");
    let beginnings = reversed(rt, alloc, &graph, gap);
    let alive = completions
        .useful_arcs_between(alloc, &beginnings)
        .expect(rt, "memory");
    assert_alive(rt, &alive, &prices, &case);
    let kept = completions.into_labels();
    let full = folded_in_full(rt, alloc, &duals, &instance);
    let memories = duals.full_memories(alloc).expect(rt, "memory");
    let found = Found {
        graph,
        kept,
        alive,
        memories,
    };
    assert_reused(rt, alloc, found, &full, &case);
}

// Arcs that cost differently each way.
fn one_way_instance(rt: &impl Abort, alloc: Global, random: &mut Random) -> Instance {
    let mut arcs = Vec::new(alloc);
    for _ in 0..PLACES * PLACES {
        let weight = u64::from(random.next() % 1_000);
        arcs.push(weight).expect(rt, "memory");
    }
    let demands = one_each(alloc, PLACES).expect(rt, "demands");
    with_arcs(alloc, &arcs, &demands, 6).expect(rt, "an instance")
}

// The closed labels of a graph.
fn closed(rt: &impl Abort, alloc: Global, graph: &RouteGraph, gap: i64) -> LabelPiles
    ensures are_kept { AreKept graph.now result }
    ensures closed { IsClosed graph.now gap result }
{
    let crew = Crew {
        rt: &(),
        alloc,
        workers: 1,
        watch: &Unhurried,
    };
    match close(&crew, graph, gap, 100_000).expect(rt, "memory") {
        Closing::Closed(kept) => kept,
        Closing::Met(_) => panic!(rt; "a limit was met"),
    }
}

// The labels of beginnings.
fn reversed(rt: &impl Abort, alloc: Global, graph: &RouteGraph, gap: i64) -> LabelPiles
    ensures { IsClosedReversed graph.now gap result }
{
    let back = graph.reversed(alloc).expect(rt, "memory");
    closed(rt, alloc, &back, gap)
}

// What is left when arcs were found: the graph, its closed labels, the arcs, and memories of rows.
struct Found {
    graph: RouteGraph,
    kept: LabelPiles,
    alive: Vec<CustomerSet>,
    memories: Vec<RowSet>,
}

// Where only these arcs are alive, and rows are remembered everywhere, the same labels complete beginnings.
fn assert_reused(rt: &impl Abort, alloc: Global, found: Found, full: &FoldedDuals, case: &Case<'_>)
    requires long { length found.alive.items ≡ found.graph.folded.places }
    requires alive { AreAlive found.graph found.alive.items }
    requires are_kept { AreKept found.graph found.kept }
    requires closed { IsClosed found.graph case.now.gap found.kept }
{
    let Found {
        graph,
        kept,
        alive,
        memories,
    } = found;
    let wide = graph
        .keep_arcs(alive)
        .widen(memories)
        .expect(rt, "wider memories");
    let completions = Completions::widened(alloc, &wide, case.gap, kept).expect(rt, "memory");
    assert_beginnings(rt, &wide, &completions, full, case);
}
