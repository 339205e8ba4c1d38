//! A pool of routes in a file. Its first line has a truck's capacity, a cost below which there is a choice, and each customer's
//! demand; each line after it a route's cost and its customers.
use anyhow::{Context, Result, ensure};
use std::alloc::Global;
use vrp_model::{CustomerSet, PLACES};
use vrp_partition::Route;

/// A pool of routes, and what they are for.
#[derive(Drop)]
pub(crate) struct Pool {
    pub(crate) demands: [u32; PLACES],
    pub(crate) customers: CustomerSet,
    pub(crate) capacity: u32,
    pub(crate) known_cost: u64,
    pub(crate) routes: Vec<Route>,
}

/// The pool of a file's text.
pub(crate) fn read_pool(alloc: Global, text: &str) -> Result<Pool> {
    let mut lines = text.lines();
    let mut words = lines.next().context("an empty file")?.split_whitespace();
    let capacity = words.next().context("no capacity")?.parse::<u32>()?;
    let known_cost = words.next().context("no cost")?.parse::<u64>()?;
    let mut pool = Pool {
        demands: [0; PLACES],
        customers: CustomerSet::empty(),
        capacity,
        known_cost,
        routes: Vec::new(alloc),
    };
    for (demand, word) in pool.demands.iter_mut().skip(1).zip(words) {
        *demand = word.parse::<u32>()?;
    }
    for line in lines {
        let route = read_route(line)?;
        pool.customers = pool.customers.union(route.set);
        pool.routes.push(route)?;
    }
    Ok(pool)
}

// The route of a line.
fn read_route(line: &str) -> Result<Route> {
    let mut words = line.split_whitespace();
    let cost = words.next().context("no cost")?.parse::<u32>()?;
    let mut set = CustomerSet::empty();
    for word in words {
        let customer = word.parse::<u16>()?;
        ensure!(usize::from(customer) < PLACES, "customer {customer}");
        set = set.with(customer);
    }
    Ok(Route { set, cost })
}
