//! Plans as lists of routes, each a list of node numbers, and when they are feasible.

use crate::slow::problem::Problem;
use std::alloc::{AllocError, Global};

/// A route for each customer, by rising number.
pub(crate) fn singles(alloc: Global, problem: &Problem) -> Result<Vec<Vec<i64>>, AllocError> {
    let mut routes = Vec::new(alloc);
    for node in 1..=problem.nodes {
        if !problem.is_depot(node) {
            routes.push(Vec::from_slice(alloc, &[node])?)?;
        }
    }
    Ok(routes)
}

/// Whether each customer is served once and nothing else is, there are trucks for the routes, no route is empty, and no truck
/// is overloaded.
pub(crate) fn is_lawful(problem: &Problem, routes: &[Vec<i64>]) -> bool {
    for node in 1..=problem.nodes {
        let wanted = if problem.is_depot(node) { 0u64 } else { 1u64 };
        let served = times_served(routes, node);
        if served != wanted {
            return false;
        }
    }
    problem.has_trucks_for(routes.len())
        && routes.iter().all(|route| !route.is_empty() && load(problem, route) <= problem.capacity)
}

// How often a node occurs in the routes.
fn times_served(routes: &[Vec<i64>], node: i64) -> u64 {
    let mut times = 0u64;
    for route in routes {
        for stop in route {
            if *stop == node {
                times = times.saturating_add(1);
            }
        }
    }
    times
}

/// The cost of the routes.
pub(crate) fn cost(problem: &Problem, routes: &[Vec<i64>]) -> u64 {
    let mut cost = 0u64;
    for route in routes {
        cost = cost.saturating_add(route_cost(problem, route));
    }
    cost
}

// The cost from the depot through the stops and back.
fn route_cost(problem: &Problem, route: &[i64]) -> u64 {
    let mut cost = 0u64;
    let mut at = problem.depot();
    for stop in route {
        cost = cost.saturating_add(problem.weights.weight(at, *stop));
        at = *stop;
    }
    cost.saturating_add(problem.weights.weight(at, problem.depot()))
}

fn load(problem: &Problem, route: &[i64]) -> i64 {
    let mut load = 0i64;
    for stop in route {
        load = load.saturating_add(problem.demand(*stop));
    }
    load
}
