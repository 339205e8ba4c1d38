//! Random pools, the same in every run.

use crate::sets::set_of;
use std::alloc::Global;
use std::process::Abort;
use test_fixtures::Random;
use vrp_model::CustomerSet;
use vrp_partition::Route;

/// All customers of random pools; they include the first and the last of a set.
pub(crate) const CUSTOMERS: &[u16] = &[0, 2, 63, 127, 128, 255];

/// At most this many of the customers of random pools.
pub(crate) fn some_customers(random: &mut Random, most: u32) -> CustomerSet {
    let mut set = CustomerSet::empty();
    for customer in set_of(CUSTOMERS).iter() {
        if u32::from(set.len()) < most && random.next() % 5 < 2 {
            set = set.with(customer);
        }
    }
    set
}

/// Two of the customers of random pools.
pub(crate) fn pair(random: &mut Random) -> CustomerSet {
    let first = random.next() as usize % CUSTOMERS.len();
    let step = 1 + random.next() as usize % (CUSTOMERS.len() - 1);
    set_of(&[
        CUSTOMERS[first],
        CUSTOMERS[(first + step) % CUSTOMERS.len()],
    ])
}

/// This many routes of at most this many customers each, with costs below a number.
pub(crate) fn pool(
    rt: &impl Abort,
    alloc: Global,
    random: &mut Random,
    (count, most): (u32, u32),
    costs: u32,
) -> Vec<Route> {
    let mut pool = Vec::new(alloc);
    for _ in 0..count {
        let route = Route {
            set: some_customers(random, most),
            cost: random.next() % costs.max(1),
        };
        pool.push(route).expect(rt, "memory");
    }
    pool
}

// The least extra cost of a repeated route.
const DEARER: u32 = 590;

/// Each of the routes, with this many copies at a higher cost; there are this many higher costs in turn.
pub(crate) fn repeated(
    rt: &impl Abort,
    alloc: Global,
    base: &[Route],
    times: u32,
    costs: u32,
) -> Vec<Route> {
    let mut pool = Vec::from_slice(alloc, base).expect(rt, "memory");
    for time in 0..times {
        let dearer = DEARER.saturating_add(time % costs.max(1));
        for route in base {
            let route = Route {
                set: route.set,
                cost: dearer.saturating_add(route.cost),
            };
            pool.push(route).expect(rt, "memory");
        }
    }
    pool
}
