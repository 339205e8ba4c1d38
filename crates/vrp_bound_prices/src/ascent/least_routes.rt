//! The least route through each customer: two walks home from it that remember no customer in common, one of them reversed.
ghost use Rattle.std.specs.Prelude.{pos, ◌<ℤ◌};

use crate::ascent::cells::NO_WALK;
use crate::ascent::tours_used::{Standing, UsedArc, WHOLE_TOUR};
use crate::ascent::walks::{Walks, at, row_of};
use std::alloc::Global;
use std::mem;
use vrp_model::NoMemory;

// Costs per unit are counted in this many parts.
const PARTS: i64 = 1_024;

// The greatest number of searches for a route of lower cost per unit; two or three are mostly enough.
const MOST_TURNS: u32 = 6;

/// A route through a customer.
#[derive(Clone, Copy, Debug)]
pub struct LeastRoute {
    /// The customer.
    pub customer: usize,
    /// The route's cost.
    pub cost: i64,
    /// The route's load, in units.
    pub load: usize,
    // The load of each half of the route, without the customer, and the greatest ng-set of that half at the customer.
    there: Half,
    back: Half,
}

impl LeastRoute {
    // The route's cost per unit of load, in parts.
    fn per_unit(&self) -> i64 {
        self.cost.saturating_mul(PARTS) / units(self.load)
    }

    /// The share of an amount for the whole load that falls to a customer with this demand. The contract leaves its value
    /// open.
    pub fn share(&self, amount: i64, demand: usize) -> i64 {
        amount.saturating_mul(units(demand)) / units(self.load)
    }
}

// A walk home from a customer.
#[derive(Clone, Copy, Debug)]
struct Half {
    ng_set: usize,
    load: usize,
}

// A walk home, and its cost minus the price of its load, in parts.
#[derive(Clone, Copy, Debug)]
struct PricedHalf {
    half: Half,
    excess: i64,
}

// A value that stands for no half.
const NO_HALF: PricedHalf = PricedHalf {
    half: Half { ng_set: 0, load: 0 },
    excess: i64::MAX,
};

// Two halves, and their cost minus the price of their load.
#[derive(Clone, Copy)]
struct HalfPair {
    there: Half,
    back: Half,
    excess: i64,
}

const NO_PAIR: HalfPair = HalfPair {
    there: Half { ng_set: 0, load: 0 },
    back: Half { ng_set: 0, load: 0 },
    excess: i64::MAX,
};

// The parameters of a search for a route through a customer.
#[derive(Clone, Copy)]
struct RouteSearch {
    customer: usize,
    demand: usize,
    // The greatest ng-set.
    most: usize,
    // The price of a unit, in parts.
    per_unit: i64,
}

/// Searches filled tables for least routes.
#[derive(Debug, Drop)]
pub struct LeastRoutes {
    loads: usize,
    // The costs of the walks home from the customer, by ng-set and then by load: copied from the tables, where they are far
    // apart.
    costs: Vec<i64>,
    // By load: the best half of at most this load.
    lighter: Vec<PricedHalf>,
}

impl LeastRoutes {
    /// A search over tables of this size. The contract leaves open what it finds.
    pub fn new(alloc: Global, walks: &Walks) -> Result<LeastRoutes, NoMemory> {
        let loads = walks.loads();
        let rows = walks.most().saturating_add(1);
        Ok(LeastRoutes {
            loads,
            costs: vec![in alloc; NO_WALK; rows.saturating_mul(loads)]?,
            lighter: vec![in alloc; NO_HALF; loads]?,
        })
    }

    /// The route through a customer with the least cost per unit of load, if arcs are symmetric; `None` if there is none. The
    /// contract leaves open which route it is.
    pub fn through(&mut self, walks: &Walks, customer: usize) -> Option<LeastRoute> {
        self.copy_costs(walks, customer);
        let mut search = RouteSearch {
            customer,
            demand: walks.demand(customer),
            most: walks.most(),
            per_unit: 0,
        };
        let mut best = self.cheapest(search)?;
        for _ in 0..MOST_TURNS {
            search.per_unit = best.per_unit();
            let next = self.cheapest(search)?;
            if next.per_unit() >= search.per_unit {
                break;
            }
            best = next;
        }
        Some(best)
    }

    fn copy_costs(&mut self, walks: &Walks, customer: usize) {
        for ng_set in 0..walks.most().saturating_add(1) {
            let start = ng_set.saturating_mul(self.loads);
            let end = start.saturating_add(self.loads);
            if let Some(row) = self.costs.as_mut_slice().get_mut(start..end) {
                copy_row(row, walks, customer, ng_set);
            }
        }
    }

    // The route with the least cost above the price of its load. For two disjoint ng-sets, each is tried for one half and the
    // other for the other.
    fn cheapest(&mut self, search: RouteSearch) -> Option<LeastRoute> {
        let mut best = NO_PAIR;
        for ng_set in 0..(search.most / 2).saturating_add(1) {
            self.keep_best(search, search.most.saturating_sub(ng_set));
            let pair = self.best_pair(search, ng_set);
            if pair.excess < best.excess {
                best = pair;
            }
        }
        if best.excess < i64::MAX {
            Some(self.joined(search, best))
        } else {
            None
        }
    }

    // The best pair of a half with this ng-set and one of those kept.
    fn best_pair(&self, search: RouteSearch, ng_set: usize) -> HalfPair {
        let mut best = NO_PAIR;
        for (load, &cost) in self.row(ng_set).iter().enumerate() {
            if let Some(there) = price_half(cost, search, Half { ng_set, load }) {
                let back = self.beside(search, load);
                let excess = there.excess.saturating_add(back.excess);
                if excess < best.excess && back.excess < i64::MAX {
                    best = HalfPair {
                        there: there.half,
                        back: back.half,
                        excess,
                    };
                }
            }
        }
        best
    }

    // Keeps the best half with this ng-set for each greatest load.
    fn keep_best(&mut self, search: RouteSearch, ng_set: usize) {
        let costs = row_of(&self.costs, self.loads, ng_set);
        lighten(self.lighter.as_mut_slice(), costs, search, ng_set);
    }

    // The best half that fits beside the customer and this load.
    fn beside(&self, search: RouteSearch, load: usize) -> PricedHalf {
        let taken = load.saturating_add(search.demand);
        match self.loads.checked_sub(taken.saturating_add(1)) {
            Some(room) => self.lighter.get(room).copied().unwrap_or(NO_HALF),
            None => NO_HALF,
        }
    }

    // The route of two halves.
    fn joined(&self, search: RouteSearch, pair: HalfPair) -> LeastRoute {
        let (there, back) = (pair.there, pair.back);
        let load = there.load.saturating_add(back.load);
        LeastRoute {
            customer: search.customer,
            cost: self.cost(there).saturating_add(self.cost(back)),
            load: load.saturating_add(search.demand),
            there,
            back,
        }
    }

    fn cost(&self, half: Half) -> i64 {
        at(self.row(half.ng_set), half.load)
    }

    fn row(&self, ng_set: usize) -> &[i64] {
        row_of(&self.costs, self.loads, ng_set)
    }
}

// The best half for each greatest load, from walks with these costs by load.
fn lighten(lighter: &mut [PricedHalf], costs: &[i64], search: RouteSearch, ng_set: usize) {
    let mut best = NO_HALF;
    for (load, lighter) in lighter.iter_mut().enumerate() {
        let cost = at(costs, load);
        if let Some(half) = price_half(cost, search, Half { ng_set, load }) {
            if half.excess < best.excess {
                best = half;
            }
        }
        *lighter = best;
    }
}

// Copies the costs of the walks home from a customer with this ng-set, by load.
fn copy_row(row: &mut [i64], walks: &Walks, customer: usize, ng_set: usize) {
    for (load, cost) in row.iter_mut().enumerate() {
        *cost = walks.cell(load, customer, ng_set);
    }
}

impl Walks {
    /// Adds the arcs of a route, in some order, each with the part of use that falls to the route's customer. The tables must
    /// be those in which it was found; otherwise the arcs are arbitrary. If memory is refused, only the first of them are
    /// added. The contract leaves open which arcs they are.
    pub fn list_route(&self, route: &LeastRoute, used: &mut Vec<UsedArc>) -> Result<(), NoMemory> {
        let part = route.share(WHOLE_TOUR, self.demand(route.customer));
        let start = used.len();
        self.list_walk(standing(route, route.there), part, used)?;
        if let Some(arcs) = used.as_mut_slice().get_mut(start..) {
            turn_round(arcs);
        }
        self.list_walk(standing(route, route.back), part, used)
    }
}

// Reverses each arc.
fn turn_round(arcs: &mut [UsedArc]) {
    for arc in arcs {
        mem::swap(&mut arc.from, &mut arc.to);
    }
}

// Where a half of a route begins.
fn standing(route: &LeastRoute, half: Half) -> Standing {
    Standing {
        place: route.customer,
        ng_set: half.ng_set,
        left: half.load,
    }
}

// A half with this cost, priced; `None` if there is none.
fn price_half(cost: i64, search: RouteSearch, half: Half) -> Option<PricedHalf> {
    if cost >= NO_WALK {
        return None;
    }
    let load = i64::try_from(half.load).unwrap_or(0);
    let by_load = search.per_unit.wrapping_mul(load);
    let excess = cost.wrapping_mul(PARTS).wrapping_sub(by_load);
    Some(PricedHalf { half, excess })
}

// An amount of units, at least one.
fn units(amount: usize) -> i64
    ensures { pos 0 <ℤ result }
{
    i64::try_from(amount).unwrap_or(i64::MAX).max(1)
}
