//! A plain slow program: every ng-route of a small game, and what it costs.

use crate::pricing::fixture::{CAPACITY, Game};
use std::alloc::Global;
use std::process::Abort;
use vrp_duals::RowSet;
use vrp_model::CustomerSet;

/// Every walk of a game from the depot that may begin an ng-route, the empty one first.
pub(crate) fn all_walks(rt: &impl Abort, alloc: Global, game: &Game) -> Vec<Vec<u16>> {
    let mut walks: Vec<Vec<u16>> = Vec::new(alloc);
    walks.push(Vec::new(alloc)).expect(rt, "memory");
    for index in 0..100_000 {
        let Some(walk) = walks.get(index) else {
            break;
        };
        let longer = longer_walks(rt, alloc, game, walk);
        for one in longer {
            walks.push(one).expect(rt, "memory");
        }
    }
    walks
}

/// The least cost of an ng-route, `i64::MAX` if there is none.
pub(crate) fn least_cost(rt: &impl Abort, game: &Game, walks: &[Vec<u16>]) -> i64 {
    let mut least = i64::MAX;
    for walk in walks {
        if is_route(game, walk) {
            least = least.min(route_cost(rt, game, walk));
        }
    }
    least
}

/// Whether a walk is a route: an ng-walk within the capacity, along arcs that are alive, and home.
pub(crate) fn is_route(game: &Game, walk: &[u16]) -> bool {
    let Some(&last) = walk.last() else {
        return false;
    };
    for length in 0..walk.len() {
        if !may_follow(game, &walk[..length], walk[length]) {
            return false;
        }
    }
    follows(game, last, 0)
}

/// What a route costs: read from its last stop.
pub(crate) fn route_cost(rt: &impl Abort, game: &Game, route: &[u16]) -> i64 {
    let folded = &game.folded;
    let mut rows = RowSet::empty();
    let mut next = 0;
    let mut cost = 0i64;
    for &stop in route.iter().rev() {
        assert!(rt; stop < folded.places() && next < folded.places());
        cost = cost.wrapping_add(folded.arc_price(stop, next));
        cost = cost.wrapping_add(folded.due_at(stop, rows) as i64);
        rows = folded.rows_at(stop, rows);
        next = stop;
    }
    assert!(rt; next < folded.places());
    cost.wrapping_add(folded.arc_price(0, next))
}

// A walk with one customer more at its end.
fn longer_walks(rt: &impl Abort, alloc: Global, game: &Game, walk: &[u16]) -> Vec<Vec<u16>> {
    let mut longer: Vec<Vec<u16>> = Vec::new(alloc);
    for stop in 1..7u16 {
        if may_follow(game, walk, stop) {
            let mut one = Vec::from_slice(alloc, walk).expect(rt, "memory");
            one.push(stop).expect(rt, "memory");
            longer.push(one).expect(rt, "memory");
        }
    }
    longer
}

// Whether a stop may follow a walk: by an arc that is alive, within the capacity, and to a customer that the walk doesn't remember.
fn may_follow(game: &Game, walk: &[u16], stop: u16) -> bool {
    let last = match walk.last() {
        Some(last) => *last,
        None => 0,
    };
    let load = load_of(game, walk).saturating_add(demand_of(game, stop));
    last != stop
        && follows(game, last, stop)
        && load <= CAPACITY
        && !remembers(game.near, walk, stop)
}

// Whether a walk remembers a customer: it came to it, and each later stop had it near. All places have the same near customers.
fn remembers(near: CustomerSet, walk: &[u16], customer: u16) -> bool {
    let is_near = customer < 256 && near.contains(customer);
    match walk.last() {
        Some(last) => *last == customer || is_near && walk.contains(&customer),
        None => false,
    }
}

// Whether an arc is alive.
fn follows(game: &Game, from: u16, to: u16) -> bool {
    match game.followers.get(usize::from(from)) {
        Some(set) => to < 256 && set.contains(to),
        None => false,
    }
}

// What the stops of a walk demand.
fn load_of(game: &Game, walk: &[u16]) -> u32 {
    let mut load = 0u32;
    for stop in walk {
        load = load.saturating_add(demand_of(game, *stop));
    }
    load
}

fn demand_of(game: &Game, stop: u16) -> u32 {
    game.demands.get(usize::from(stop)).copied().unwrap_or(0)
}
