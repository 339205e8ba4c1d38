//! The names of a pool's routes in the program.
use crate::program::RouteProgram;
use std::alloc::{AllocError, Global};
use vrp_model::CustomerSet;
use vrp_partition::Route;

/// A route of the pool that the program has not named yet.
pub(crate) const NO_NAME: u32 = u32::MAX;

// Routes by their sets: a table with open addressing.
#[derive(Drop)]
struct RouteTable {
    // 0 if empty, otherwise one more than a route's number.
    slots: Vec<usize>,
}

impl RouteTable {
    fn new(alloc: Global, routes: &[Route]) -> Result<RouteTable, AllocError> {
        let size = routes.len().saturating_mul(2).saturating_add(1);
        let slots = vec![in alloc; 0usize; size.checked_next_power_of_two().unwrap_or(1)]?;
        let mut table = RouteTable { slots };
        for (number, route) in routes.iter().enumerate() {
            let start = table.start(route.set);
            for step in 0..table.slots.len() {
                let place = table.place(start, step);
                if let Some(slot) = table.slots.get_mut(place) {
                    if *slot == 0 {
                        *slot = number.saturating_add(1);
                        break;
                    }
                }
            }
        }
        Ok(table)
    }

    // The first position to look for a set.
    #[inline(always)]
    fn start(&self, set: CustomerSet) -> usize {
        (set.folded().wrapping_mul(0x9e37_79b9_7f4a_7c15) >> 32) as usize
    }

    #[inline(always)]
    fn place(&self, start: usize, step: usize) -> usize {
        start.wrapping_add(step) & self.slots.len().wrapping_sub(1)
    }

    // The number of a route, if it is there.
    fn find(&self, routes: &[Route], route: &Route) -> Option<usize> {
        let start = self.start(route.set);
        for step in 0..self.slots.len() {
            let number = self.slots.get(self.place(start, step))?.checked_sub(1)?;
            let found = routes.get(number)?;
            if found.set == route.set && found.cost == route.cost {
                return Some(number);
            }
        }
        None
    }
}

impl RouteProgram {
    /// The names of a pool's routes. Columns of other routes are removed.
    pub(crate) fn align(&mut self, pool: &[Route]) -> Result<Vec<u32>, AllocError> {
        let table = RouteTable::new(self.alloc, self.routes.as_slice())?;
        let mut marks = vec![in self.alloc; false; self.routes.len()]?;
        let mut names = Vec::with_capacity(self.alloc, pool.len())?;
        for route in pool {
            let number = table.find(self.routes.as_slice(), route);
            if let Some(mark) = number.and_then(|number| marks.as_mut_slice().get_mut(number)) {
                *mark = true;
            }
            names.push(number.map_or(NO_NAME, |number| u32::try_from(number).unwrap_or(NO_NAME)))?;
        }
        self.retain(marks.as_slice())?;
        Ok(names)
    }
}
