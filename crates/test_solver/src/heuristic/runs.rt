//! Runs, with a check of each plan on the way.
ghost use Rattle.std.specs.Prelude.{◌≡◌};
ghost use Rattle.vrp_model.specs.Problem.{place_count};

use crate::assertion::assert_same;
use crate::heuristic::fixture::scattered;
use std::alloc::Global;
use std::process::Abort;
use vrp_heuristic::{Random, Routes, States, Surroundings, Taken};
use vrp_model::{Instance, Plan};
use vrp_search_tree::lawful_plan;

// The routes are a feasible plan at their stated cost, unless they say that a customer is unserved.
fn assert_told(rt: &impl Abort, alloc: Global, instance: &Instance, routes: &Routes)
    requires { routes.now ≡ place_count instance.now }
{
    let word = routes.word(alloc, instance).expect(rt, "memory");
    let plan = lawful_plan(alloc, instance, &word).expect(rt, "memory");
    let told = if routes.unserved() == 0 {
        Some(routes.cost())
    } else {
        None
    };
    assert_same(rt, plan.as_ref().map(Plan::cost), told, routes.unserved());
}

// Checks the routes after each of several thousand moves and after each undoing, starting with nobody served.
fn assert_moves(rt: &impl Abort, alloc: Global, instance: &Instance) {
    let setting = Surroundings::new(alloc, instance).expect(rt, "memory");
    let mut random = Random::new(1);
    let mut taken = Taken::new(alloc, instance).expect(rt, "memory");
    let mut states = States::new(alloc, &setting, &[]).expect(rt, "memory");
    for index in 0..2_000 {
        let limit = states.limit(20);
        states.change(&setting, &mut taken, &mut random, index, limit);
        assert_told(rt, alloc, instance, states.next());
        states.settle(limit);
        assert_told(rt, alloc, instance, states.next());
    }
    assert_told(rt, alloc, instance, states.best());
}

// The number of nodes, a skew of the weights, and the number of trucks; 0 means no limit.
const SCATTERED: &[(u64, u64, u16)] = &[
    (40, 0, 0),
    (40, 1, 0),
    (40, 0, 2),
    (40, 1, 1),
    (140, 0, 0),
    (140, 1, 0),
    (140, 0, 6),
];

// Each plan serves each customer once within the capacity, with no limit on trucks and with few, and with so many customers that each
// is put back beside a near place.
#[test]
fn plans_of_moves(rt: HostRuntime) {
    for &(nodes, skew, trucks) in SCATTERED {
        assert!(rt; nodes <= 200 && skew <= 10);
        let instance = scattered(&rt, rt.alloc(), nodes, skew, trucks);
        assert_moves(&rt, rt.alloc(), &instance);
    }
}
