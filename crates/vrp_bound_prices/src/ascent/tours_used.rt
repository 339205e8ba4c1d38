//! The arcs that the least tours use, traced back through the tables.
use crate::ascent::near_looks::NearLook;
use crate::ascent::walks::Walks;
use vrp_model::NoMemory;

/// The use of an arc by a whole tour.
pub const WHOLE_TOUR: i64 = 65_536;

/// A use of the arc from one place to another.
#[derive(Clone, Copy, Debug)]
pub struct UsedArc {
    /// The place that it comes from.
    pub from: usize,
    /// The place that it goes to.
    pub to: usize,
    /// The amount of use: `WHOLE_TOUR` for a whole tour, less for a part of one.
    pub part: i64,
}

/// A position on a walk home.
#[derive(Clone, Copy)]
pub(crate) struct Standing {
    pub(crate) place: usize,
    /// The greatest ng-set there for the rest of the walk.
    pub(crate) ng_set: usize,
    /// The load still to be carried.
    pub(crate) left: usize,
}

impl Walks {
    /// Replaces the list by the arcs of the least tours that carry the whole demand: tour after tour, each from the depot and
    /// back to it. They are right if the last filling of the tables answered a cost and no arcs were entered since; otherwise
    /// they are arbitrary. If memory is refused, the list has only the first of them. The contract leaves open which arcs
    /// they are.
    pub fn list_used(&self, used: &mut Vec<UsedArc>) -> Result<(), NoMemory> {
        used.clear();
        let mut rest = self.whole();
        for _ in 0..self.whole() {
            let Some(load) = self.last_load(rest) else {
                break;
            };
            let tour = Standing {
                place: 0,
                ng_set: 0,
                left: load,
            };
            self.list_walk(tour, WHOLE_TOUR, used)?;
            rest = rest.saturating_sub(load);
        }
        Ok(())
    }

    // The load of the last of the least tours that carry the rest; `None` if nothing is left.
    fn last_load(&self, rest: usize) -> Option<usize> {
        let cost = self.tours_cost(rest);
        (1..self.loads()).find(|&load| load <= rest && self.is_split(cost, load, rest))
    }

    // Whether one tour of this load and tours for the remaining rest have this cost together.
    fn is_split(&self, cost: i64, load: usize, rest: usize) -> bool {
        let others = self.tours_cost(rest.saturating_sub(load));
        self.cell(load, 0, 0).wrapping_add(others) == cost
    }

    /// Adds the arcs of the least walk home from there, each with this part of use.
    pub(crate) fn list_walk(
        &self,
        from: Standing,
        part: i64,
        used: &mut Vec<UsedArc>,
    ) -> Result<(), NoMemory> {
        let mut here = from;
        for _ in 0..from.left {
            let Some(next) = self.next_stop(here) else {
                break;
            };
            used.push(UsedArc {
                from: here.place,
                to: next.place,
                part,
            })?;
            here = next;
        }
        used.push(UsedArc {
            from: here.place,
            to: 0,
            part,
        })?;
        Ok(())
    }

    // The next stop of the least walk home; `None` if nothing is left to carry.
    fn next_stop(&self, here: Standing) -> Option<Standing> {
        if here.left == 0 {
            return None;
        }
        let cost = self.cost(here);
        match self.neighbors(here.place) {
            Some(neighbors) => neighbors
                .iter()
                .find_map(|&stop| self.going_on(here, cost, usize::from(stop))),
            None => (1..self.places()).find_map(|stop| self.going_on(here, cost, stop)),
        }
    }

    // The position after continuing to this stop, if that explains the cost. The depot is no stop.
    fn going_on(&self, here: Standing, cost: i64, stop: usize) -> Option<Standing> {
        if stop == 0 {
            return None;
        }
        let left = here.left.checked_sub(self.demand(stop))?;
        let rest = cost.wrapping_sub(self.arc(here.place, stop));
        let next = Standing {
            place: stop,
            ng_set: self.most(),
            left,
        };
        if self.is_far(here.place, stop) {
            return if self.cost(next) == rest {
                Some(next)
            } else {
                None
            };
        }
        for look in self.near_looks(stop) {
            let ng_set = usize::from(look.most);
            let next = Standing { ng_set, ..next };
            if leads(*look, here) && self.cost(next) == rest {
                return Some(next);
            }
        }
        None
    }

    // The cost of the least walk home from there.
    fn cost(&self, here: Standing) -> i64 {
        self.cell(here.left, here.place, here.ng_set)
    }
}

// Whether a look is from this place, with no larger ng-set there.
fn leads(look: NearLook, here: Standing) -> bool {
    let more = usize::from(look.ng_set) & !here.ng_set;
    usize::from(look.at) == here.place && more == 0
}
