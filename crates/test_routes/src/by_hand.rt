//! Small pools of routes.

use crate::sets::set_of;
use std::alloc::Global;
use std::process::Abort;
use vrp_partition::Route;

/// A route: its customers and its cost.
pub(crate) type Pair = (&'static [u16], u32);

/// Three customers, each alone, each two of them, and all.
pub(crate) const THREE: &[Pair] = &[
    (&[1], 10),
    (&[2], 10),
    (&[3], 10),
    (&[1, 2], 12),
    (&[2, 3], 13),
    (&[1, 3], 14),
    (&[1, 2, 3], 25),
];

/// Each two of four customers.
pub(crate) const FOUR: &[Pair] = &[
    (&[1, 2], 5),
    (&[3, 4], 5),
    (&[1, 3], 4),
    (&[2, 4], 7),
    (&[1, 4], 3),
    (&[2, 3], 6),
];

/// The routes as a pool.
pub(crate) fn pool_of(rt: &impl Abort, alloc: Global, told: &[Pair]) -> Vec<Route> {
    let mut pool = Vec::new(alloc);
    for &(customers, cost) in told {
        let set = set_of(customers);
        pool.push(Route { set, cost }).expect(rt, "memory");
    }
    pool
}
