//! Limits, tolerances and lists that don't fit.

use crate::pricing::fixture::{Arcs, Game, set_of};
use std::alloc::Global;
use std::process::Abort;
use std::thread::Threads;
use test_fixtures::Random;
use vrp_columns_and_cuts::{Effort, Limit, Priced, RoutePricer};
use vrp_model::{Crew, Unhurried, Watch};

// A watch that stops at once.
struct Stopping;

impl Watch for Stopping {
    fn should_continue(&self) -> bool {
        false
    }
}

// What is found in a game with negative routes: so many routes at most, by so many labels, below this tolerance.
fn priced<W: Watch + Sync>(
    rt: &(impl Abort + Threads + Sync),
    alloc: Global,
    watch: &W,
    (most_routes, most_labels): (usize, usize),
    tolerance: i64,
) -> Priced {
    let mut random = Random(8);
    let near = set_of(&[1, 2, 3, 4, 5, 6]);
    let game = Game::new(rt, alloc, &mut random, Arcs::Symmetric, near);
    let crew = Crew {
        rt,
        alloc,
        workers: 1,
        watch,
    };
    let pricer = game.pricer(rt, alloc);
    let effort = Effort::AllLabels;
    pricer
        .find_routes(
            &crew,
            &game.folded,
            &game.followers,
            effort,
            most_routes,
            most_labels,
            tolerance,
        )
        .expect(rt, "memory")
}

// The number of routes, or the limit.
fn count(priced: &Priced) -> Result<usize, Limit> {
    match priced {
        Priced::Routes(routes) => Ok(routes.len()),
        Priced::Met(limit) => Err(*limit),
    }
}

#[test]
fn limits_are_met(rt: HostRuntime) {
    let alloc = rt.alloc();
    let many = count(&priced(&rt, alloc, &Unhurried, (40, 100_000), 0));
    assert!(rt; many.unwrap_or(0) > 2, "{many:?}");
    assert!(rt; count(&priced(&rt, alloc, &Unhurried, (2, 100_000), 0)) == Ok(2));
    assert!(rt; count(&priced(&rt, alloc, &Unhurried, (40, 0), 0)) == Err(Limit::Labels));
    assert!(rt; count(&priced(&rt, alloc, &Stopping, (40, 100_000), 0)) == Err(Limit::Stopped));
    assert!(rt; count(&priced(&rt, alloc, &Unhurried, (40, 100_000), 1_000_000)) == Ok(0));
}

#[test]
fn lists_that_do_not_fit(rt: HostRuntime) {
    assert!(rt; is_made(&rt, rt.alloc(), &[0, 1, 2], 4_096, 3));
    assert!(rt; !is_made(&rt, rt.alloc(), &[0, 1, 2], 4_097, 3));
    assert!(rt; !is_made(&rt, rt.alloc(), &[0, 1, 2], 3, 2));
    assert!(rt; !is_made(&rt, rt.alloc(), &[0, 1, 0], 3, 3));
}

// Whether there is a pricer for so many near sets.
fn is_made(rt: &impl Abort, alloc: Global, demands: &[u32], capacity: u32, sets: usize) -> bool {
    let near = vec![in alloc; set_of(&[1]); sets].expect(rt, "memory");
    let made = RoutePricer::new(alloc, demands, capacity, &near);
    made.expect(rt, "memory").is_some()
}
