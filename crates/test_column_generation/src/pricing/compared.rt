//! The routes that are found, compared with every ng-route of small random games.

use crate::pricing::fixture::{Arcs, Game, set_of};
use crate::pricing::slow::{all_walks, is_route, least_cost, route_cost};
use std::alloc::Global;
use std::process::Abort;
use std::thread::Threads;
use test_fixtures::Random;
use vrp_columns_and_cuts::{Effort, Priced, PricedRoutes};
use vrp_model::{Crew, CustomerSet, Unhurried};

#[test]
fn elementary_routes(rt: HostRuntime) {
    compare_all(&rt, rt.alloc(), 5, set_of(&[1, 2, 3, 4, 5, 6]));
}

#[test]
fn routes_that_forget(rt: HostRuntime) {
    compare_all(&rt, rt.alloc(), 6, set_of(&[2, 5]));
}

#[test]
fn routes_that_forget_all(rt: HostRuntime) {
    compare_all(&rt, rt.alloc(), 7, set_of(&[]));
}

// Compares random games of each kind.
fn compare_all(rt: &(impl Abort + Threads + Sync), alloc: Global, seed: u64, near: CustomerSet) {
    let mut random = Random(seed);
    let mut found = 0usize;
    for arcs in [Arcs::Symmetric, Arcs::Directed, Arcs::OneWay] {
        for _round in 0..12 {
            let game = Game::new(rt, alloc, &mut random, arcs, near);
            found = found.saturating_add(compare(rt, alloc, &game));
        }
    }
    // Most games have a route of negative reduced cost.
    assert!(rt; found > 18);
}

// Compares one game, and answers how many of its efforts find a route.
fn compare(rt: &(impl Abort + Threads + Sync), alloc: Global, game: &Game) -> usize {
    let walks = all_walks(rt, alloc, game);
    let least = least_cost(rt, game, &walks);
    let exact = found_by(rt, alloc, game, Effort::AllLabels);
    if least < 0 {
        assert!(rt;
            exact.least() == Some(least),
            "{:?} is not {least}",
            exact.least()
        );
    } else {
        assert!(rt; exact.is_empty());
    }
    assert_routes(rt, game, &exact);
    for effort in [Effort::OneLabel, Effort::FewLabels] {
        let routes = found_by(rt, alloc, game, effort);
        assert!(rt; routes.least().unwrap_or(0) >= least.min(0));
        assert_routes(rt, game, &routes);
    }
    usize::from(least < 0)
}

// The routes that are found with an effort.
pub(crate) fn found_by(
    rt: &(impl Abort + Threads + Sync),
    alloc: Global,
    game: &Game,
    effort: Effort,
) -> PricedRoutes {
    let crew = Crew {
        rt,
        alloc,
        workers: 1,
        watch: &Unhurried,
    };
    let pricer = game.pricer(rt, alloc);
    let priced = pricer
        .find_routes(&crew, &game.folded, &game.followers, effort, 40, 100_000, 0)
        .expect(rt, "memory");
    match priced {
        Priced::Routes(routes) => Some(routes),
        Priced::Met(_) => None,
    }
    .expect(rt, "a limit was met")
}

// Each route is one, costs what it is said to cost, less than nothing, and no less than the one before; no two have the same customers.
fn assert_routes(rt: &impl Abort, game: &Game, routes: &PricedRoutes) {
    let mut before = i64::MIN;
    for at in 0..routes.len() {
        let route = routes.stops(at);
        let cost = routes.costs.get(at).copied().unwrap_or(0);
        assert!(rt; is_route(game, route), "{route:?} is no route");
        assert!(rt;
            cost == route_cost(rt, game, route),
            "{route:?} does not cost {cost}"
        );
        assert!(rt; before <= cost && cost < 0);
        for other in 0..at {
            assert!(rt; set_of(route) != set_of(routes.stops(other)));
        }
        before = cost;
    }
}
