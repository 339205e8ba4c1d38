//! A plain slow program: the reduced cost of a route, read from its first stop.

use vrp_duals::{EntryRow, SubsetRow};

/// Prices as lists, with the arcs of a full matrix.
#[derive(Clone, Copy)]
pub(super) struct Slow<'a> {
    pub(super) arcs: &'a [u64],
    pub(super) places: usize,
    pub(super) scale: i64,
    pub(super) prices: &'a [i64],
    pub(super) entries: &'a [EntryRow],
    pub(super) rows: &'a [SubsetRow],
}

impl Slow<'_> {
    /// The reduced cost of a route: by turns, or with full counts.
    pub(super) fn reduced(&self, route: &[u16], full: bool) -> i64 {
        let mut cost = self.scale.wrapping_mul(self.arcs_along(route));
        for stop in route {
            let price = self.prices.get(usize::from(*stop));
            cost = cost.wrapping_sub(*price.unwrap_or(&0));
        }
        for row in self.entries {
            cost = cost.wrapping_sub(row.price.wrapping_mul(entries_of(row, route)));
        }
        for row in self.rows {
            let times = if full {
                pairs_of(row, route)
            } else {
                turns_of(row, route)
            };
            cost = cost.wrapping_add(signed(row.price).wrapping_mul(times));
        }
        cost
    }

    // The weights of a route's arcs.
    fn arcs_along(&self, route: &[u16]) -> i64 {
        let mut from = 0usize;
        let mut sum = 0i64;
        for stop in route {
            sum = sum.wrapping_add(self.arc(from, usize::from(*stop)));
            from = usize::from(*stop);
        }
        sum.wrapping_add(self.arc(from, 0))
    }

    fn arc(&self, from: usize, to: usize) -> i64 {
        let at = from.wrapping_mul(self.places).wrapping_add(to);
        signed(*self.arcs.get(at).unwrap_or(&0))
    }
}

// A number that is small in these tests.
fn signed(number: u64) -> i64 {
    i64::try_from(number).unwrap_or(i64::MAX)
}

// How often a route comes into a set from outside.
fn entries_of(row: &EntryRow, route: &[u16]) -> i64 {
    let mut inside = false;
    let mut count = 0i64;
    for stop in route {
        let there = *stop < 256 && row.customers.contains(*stop);
        if there && !inside {
            count = count.wrapping_add(1);
        }
        inside = there;
    }
    count
}

// How often a row turns along a route.
fn turns_of(row: &SubsetRow, route: &[u16]) -> i64 {
    let mut on = false;
    let mut turns = 0i64;
    for stop in route {
        on = on && *stop < 256 && row.memory.contains(*stop);
        if *stop < 256 && row.customers.contains(*stop) {
            if on {
                turns = turns.wrapping_add(1);
            }
            on = !on;
        }
    }
    turns
}

// How many pairs of a row's customers are on a route.
fn pairs_of(row: &SubsetRow, route: &[u16]) -> i64 {
    let mut count = 0i64;
    for stop in route {
        if *stop < 256 && row.customers.contains(*stop) {
            count = count.wrapping_add(1);
        }
    }
    count / 2
}
