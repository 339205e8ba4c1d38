//! The canonical plan, the first by cost and then by word, found by trying every plan.

use crate::slow::problem::Problem;
use crate::slow::weights::find;
use std::alloc::{AllocError, Global};

// With more customers there are too many plans to try.
const MOST_CUSTOMERS: u8 = 7;

// The problem, and the weight from each node to each other.
#[derive(Drop)]
struct Arcs<'a> {
    problem: &'a Problem,
    weights: Vec<((i64, i64), u64)>,
}

/// A cheapest plan, the first of these by word: compared stop by stop, the arc home before all customers.
#[derive(Debug, Drop)]
pub(crate) enum Cheapest {
    Plan { cost: u64, routes: Vec<Vec<i64>> },
    /// There are too few trucks.
    NoPlan,
    /// There are too many customers to say.
    Unknown,
}

// More than the cost of any plan.
const NO_PLAN: u64 = u64::MAX;

// The current truck: its place, its load, and how many trucks may start after it.
#[derive(Clone, Copy)]
struct Truck {
    at: i64,
    load: i64,
    left: u16,
}

// The cost of the rest of a plan, and its stops, with a 0 for each arc home.
#[derive(Debug, Drop)]
struct Rest {
    cost: u64,
    word: Vec<i64>,
}

impl Rest {
    // Compares by cost and then by stops.
    fn is_before(&self, other: &Rest) -> bool {
        (self.cost, self.word.as_slice()) < (other.cost, other.word.as_slice())
    }
}

/// The canonical plan, if there are few customers.
pub(crate) fn least(alloc: Global, problem: &Problem) -> Result<Cheapest, AllocError> {
    let mut customers = Vec::new(alloc);
    for node in 1..=problem.nodes {
        if !problem.is_depot(node) {
            customers.push(node)?;
        }
    }
    if customers.len() > usize::from(MOST_CUSTOMERS) {
        return Ok(Cheapest::Unknown);
    }
    let arcs = Arcs {
        problem,
        weights: weights(alloc, problem)?,
    };
    // No plan has more routes than customers.
    let start = Truck {
        at: problem.depot(),
        load: 0,
        left: problem.trucks.unwrap_or(u16::from(MOST_CUSTOMERS)),
    };
    let first = arcs.first_from(alloc, start, &customers, MOST_CUSTOMERS)?;
    if first.cost == NO_PLAN {
        return Ok(Cheapest::NoPlan);
    }
    Ok(Cheapest::Plan {
        cost: first.cost,
        routes: routes_of(alloc, &first.word)?,
    })
}

// The stops between the arcs home.
fn routes_of(alloc: Global, word: &[i64]) -> Result<Vec<Vec<i64>>, AllocError> {
    let mut routes = Vec::new(alloc);
    for route in word.split(|stop| *stop == 0) {
        if !route.is_empty() {
            routes.push(Vec::from_slice(alloc, route)?)?;
        }
    }
    Ok(routes)
}

// The weight from each node to each other, looked up once.
fn weights(alloc: Global, problem: &Problem) -> Result<Vec<((i64, i64), u64)>, AllocError> {
    let mut weights = Vec::new(alloc);
    for from in 1..=problem.nodes {
        push_weights(&mut weights, problem, from)?;
    }
    Ok(weights)
}

// Adds the weights from one node. An arc from a node to itself costs nothing, whatever the file says.
fn push_weights(
    weights: &mut Vec<((i64, i64), u64)>,
    problem: &Problem,
    from: i64,
) -> Result<(), AllocError> {
    for to in 1..=problem.nodes {
        let weight = if from == to {
            0
        } else {
            problem.weights.weight(from, to)
        };
        weights.push(((from, to), weight))?;
    }
    Ok(())
}

impl Arcs<'_> {
    // The first way to serve the unserved customers and come home, from this truck on. Each of them may be next: on the same
    // truck if it has room, and on a new one if one is left. There are at most `most` of them.
    fn first_from(
        &self,
        alloc: Global,
        truck: Truck,
        unserved: &[i64],
        most: u8,
    ) -> Result<Rest, AllocError> {
        let depot = self.problem.depot();
        let home = self.weight(truck.at, depot);
        if unserved.is_empty() || most == 0 {
            let word = Vec::from_slice(alloc, &[0])?;
            return Ok(Rest { cost: home, word });
        }
        let mut first = Rest {
            cost: NO_PLAN,
            word: Vec::new(alloc),
        };
        for next in unserved {
            let at = *next;
            let others = without(alloc, unserved, at)?;
            if let Some(new) = self.on_a_new_truck(truck, at) {
                let behind = self.first_from(alloc, new, &others, most - 1)?;
                let start = home.saturating_add(self.weight(depot, at));
                keep_first(&mut first, with(alloc, start, &[0, at], &behind)?);
            }
            if let Some(same) = self.on_the_same_truck(truck, at) {
                let behind = self.first_from(alloc, same, &others, most - 1)?;
                let start = self.weight(truck.at, at);
                keep_first(&mut first, with(alloc, start, &[at], &behind)?);
            }
        }
        Ok(first)
    }

    // A new truck at a customer, if one is left.
    fn on_a_new_truck(&self, truck: Truck, at: i64) -> Option<Truck> {
        if truck.left == 0 {
            return None;
        }
        Some(Truck {
            at,
            load: self.problem.demand(at),
            left: truck.left - 1,
        })
    }

    // The truck at its next customer, if it is out and has room.
    fn on_the_same_truck(&self, truck: Truck, at: i64) -> Option<Truck> {
        let load = truck.load.saturating_add(self.problem.demand(at));
        if truck.at == self.problem.depot() || load > self.problem.capacity {
            return None;
        }
        Some(Truck { at, load, ..truck })
    }

    fn weight(&self, from: i64, to: i64) -> u64 {
        find(&self.weights, (from, to)).unwrap_or(u64::MAX)
    }
}

fn keep_first(first: &mut Rest, rest: Rest) {
    if rest.is_before(first) {
        *first = rest;
    }
}

// The rest of a plan that begins with these stops at this cost, and continues with another rest.
fn with(alloc: Global, cost: u64, stops: &[i64], behind: &Rest) -> Result<Rest, AllocError> {
    let mut word = Vec::from_slice(alloc, stops)?;
    word.extend_from_slice(&behind.word)?;
    Ok(Rest {
        cost: cost.saturating_add(behind.cost),
        word,
    })
}

// The customers without this one.
fn without(alloc: Global, customers: &[i64], left_out: i64) -> Result<Vec<i64>, AllocError> {
    let mut others = Vec::new(alloc);
    for customer in customers {
        if *customer != left_out {
            others.push(*customer)?;
        }
    }
    Ok(others)
}
