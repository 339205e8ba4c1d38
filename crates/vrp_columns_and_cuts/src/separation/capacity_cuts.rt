//! Capacity cuts: sets of customers that a solution enters less often than their demand needs trucks. Sets are grown customer by customer,
//! and then improved by moves of one customer in or out (tabu search; Augerat et al. 1998).
ghost use Rattle.std.specs.Prelude.{◌<◌, IfSome};
ghost use Rattle.vrp_model.specs.declared.customers.customer_set.TheConstants.{PLACES};

use crate::separation::picking::{LEAST_EXCESS, Violated, is_repeated};
use crate::separation::solution::{ONE, UsedRoute};
use crate::separation::support::{Support, at};
use std::alloc::{AllocError, Global};
use vrp_duals::EntryRow;
use vrp_model::{CustomerSet, FleetView, NoMemory, PLACES};

/// How capacity cuts are looked for.
#[derive(Clone, Copy, Debug)]
pub struct CutSearch {
    /// The most cuts to find.
    pub most: usize,
    /// How many customers are moved in or out of each set that was grown.
    pub moves: u32,
}

// How the next customer of a set is chosen.
#[derive(Clone, Copy, Debug, PartialEq, Eq)]
enum Growth {
    // The one with the most flow to the set; among several the one with the most demand.
    ByFlow,
    // The one with much flow to the set and little to others.
    ByBorder,
}

// A set of customers with what changes as it grows.
#[derive(Drop)]
struct Growing<'a> {
    support: &'a Support,
    fleet: FleetView<'a>,
    set: CustomerSet,
    load: u64,
    // What goes over the set's border, in either direction.
    crossed: i64,
    // By place, what goes between it and the set.
    joins: Vec<i64>,
}

/// Capacity cuts that a solution violates, the most violated first, with a price of 0: sets of customers that it enters too seldom, other
/// than those that are `known`. Which are found, the contract leaves open. The only error is lack of memory.
pub fn violated_entries(
    alloc: Global,
    customers: CustomerSet,
    fleet: FleetView<'_>,
    routes: &[UsedRoute],
    known: &[CustomerSet],
    search: CutSearch,
) -> Result<Vec<EntryRow>, NoMemory> {
    let support = Support::new(alloc, customers, routes)?;
    let mut found = Vec::new(alloc);
    let mut seeds = Vec::from_slice(alloc, known)?;
    for start in customers.iter() {
        for growth in [Growth::ByFlow, Growth::ByBorder] {
            let mut growing = Growing::new(alloc, &support, fleet)?;
            growing.add(start);
            let seed = growing.grow(customers, growth, &mut found)?;
            seeds.push(seed)?;
        }
    }
    if search.moves > 0 {
        seeds.sort_unstable();
        improve_all(
            alloc,
            customers,
            &support,
            fleet,
            &seeds,
            search.moves,
            &mut found,
        )?;
    }
    Ok(picked(alloc, found, known, search.most)?)
}

// Looks for cuts near each of these sets.
fn improve_all(
    alloc: Global,
    customers: CustomerSet,
    support: &Support,
    fleet: FleetView<'_>,
    seeds: &[CustomerSet],
    moves: u32,
    found: &mut Vec<Violated>,
) -> Result<(), AllocError> {
    let mut last = CustomerSet::empty();
    for &seed in seeds {
        if seed == last {
            continue;
        }
        last = seed;
        let mut growing = Growing::new(alloc, support, fleet)?;
        for customer in seed.iter() {
            growing.add(customer);
        }
        growing.improve(customers, moves, found)?;
    }
    Ok(())
}

// The rows of the most violated of these cuts.
fn picked(
    alloc: Global,
    mut found: Vec<Violated>,
    known: &[CustomerSet],
    most: usize,
) -> Result<Vec<EntryRow>, AllocError> {
    found.sort_by_key(|cut| cut.excess.saturating_neg())?;
    let mut chosen = Vec::new(alloc);
    let mut rows = Vec::new(alloc);
    for cut in &found {
        if rows.len() >= most {
            break;
        }
        if known.contains(&cut.customers) || is_repeated(cut.customers, &chosen) {
            continue;
        }
        chosen.push(*cut)?;
        rows.push(EntryRow {
            customers: cut.customers,
            count: cut.count,
            price: 0,
        })?;
    }
    Ok(rows)
}

impl<'a> Growing<'a> {
    // No customers.
    fn new(
        alloc: Global,
        support: &'a Support,
        fleet: FleetView<'a>,
    ) -> Result<Growing<'a>, AllocError> {
        let joins = vec![in alloc; 0i64; support.row(0).len()]?;
        Ok(Growing {
            support,
            fleet,
            set: CustomerSet::empty(),
            load: 0,
            crossed: 0,
            joins,
        })
    }

    fn demand(&self, customer: u16) -> u64 {
        self.fleet.demand(usize::from(customer))
    }

    // What would go over the border if the customer were added, less what goes over it now.
    fn more_crossed(&self, customer: u16) -> i64 {
        let joined = at(&self.joins, customer).wrapping_mul(2);
        self.support.degree(customer).wrapping_sub(joined)
    }

    // Adds a customer.
    fn add(&mut self, customer: u16)
        requires { customer < PLACES }
    {
        self.crossed = self.crossed.wrapping_add(self.more_crossed(customer));
        self.load = self.load.saturating_add(self.demand(customer));
        self.set = self.set.with(customer);
        for (sum, &flow) in self.joins.iter_mut().zip(self.support.row(customer)) {
            *sum = sum.wrapping_add(flow);
        }
    }

    // Takes a customer out.
    fn remove(&mut self, customer: u16)
        requires { customer < PLACES }
    {
        for (sum, &flow) in self.joins.iter_mut().zip(self.support.row(customer)) {
            *sum = sum.wrapping_sub(flow);
        }
        self.set = self.set.difference(CustomerSet::only(customer));
        self.load = self.load.saturating_sub(self.demand(customer));
        self.crossed = self.crossed.wrapping_sub(self.more_crossed(customer));
    }

    // How many trucks carry this load at least.
    fn trucks(&self, load: u64) -> u16 {
        let trucks = load.div_ceil(u64::from(self.fleet.capacity).max(1));
        u16::try_from(trucks).unwrap_or(0)
    }

    // Adds the set to the list if the solution enters it too seldom. By how much, less than 0 if it doesn't.
    fn offer(&self, found: &mut Vec<Violated>) -> Result<i64, AllocError> {
        let count = self.trucks(self.load);
        let excess = i64::from(count)
            .wrapping_mul(ONE)
            .wrapping_sub(self.crossed / 2);
        if excess > LEAST_EXCESS {
            found.push(Violated {
                customers: self.set,
                excess,
                count,
            })?;
        }
        Ok(excess)
    }

    // Adds one customer after another, and each violated set to the list. The most violated set, or else one of about two truckloads.
    fn grow(
        &mut self,
        customers: CustomerSet,
        growth: Growth,
        found: &mut Vec<Violated>,
    ) -> Result<CustomerSet, AllocError> {
        let mut seed = self.set;
        let mut most = 0;
        for _ in 1..customers.len() {
            let Some(next) = self.next(customers, growth) else {
                break;
            };
            self.add(next);
            let excess = self.offer(found)?;
            if excess > most {
                (seed, most) = (self.set, excess);
            } else if most == 0 && self.trucks(self.load) <= 2 {
                seed = self.set;
            }
        }
        Ok(seed)
    }

    // The customer to add next.
    fn next(&self, customers: CustomerSet, growth: Growth) -> Option<u16>
        ensures { IfSome result (λ customer. customer < PLACES) }
    {
        let mut next = 0;
        let mut most = i64::MIN;
        for customer in customers.difference(self.set).iter() {
            let score = self.score(customer, growth);
            if score > most {
                (next, most) = (customer, score);
            }
        }
        if next > 0 && usize::from(next) < PLACES {
            Some(next)
        } else {
            None
        }
    }

    // How much speaks for a customer.
    fn score(&self, customer: u16, growth: Growth) -> i64 {
        let joined = at(&self.joins, customer);
        let demand = i64::try_from(self.demand(customer)).unwrap_or(i64::MAX);
        match growth {
            Growth::ByFlow => joined.wrapping_mul(1 << 32).saturating_add(demand),
            Growth::ByBorder => {
                let capacity = i64::from(self.fleet.capacity).max(1);
                let part = demand.min(capacity).wrapping_mul(ONE / 50) / capacity;
                let half = joined / 2;
                half.wrapping_sub(self.more_crossed(customer))
                    .wrapping_add(part)
            }
        }
    }

    // Moves one customer after another in or out of the set, and adds each violated set to the list. A customer who was moved stays for some
    // moves.
    fn improve(
        &mut self,
        customers: CustomerSet,
        moves: u32,
        found: &mut Vec<Violated>,
    ) -> Result<(), AllocError> {
        let mut free_from = [0u32; PLACES];
        for step in 1..moves {
            let Some(customer) = self.best_move(customers, step, &free_from) else {
                break;
            };
            if self.set.contains(customer) {
                self.remove(customer);
            } else {
                self.add(customer);
            }
            let stay = 6 + (step.wrapping_add(u32::from(customer))) % 5;
            free_from[usize::from(customer)] = step.saturating_add(stay);
            self.offer(found)?;
        }
        Ok(())
    }

    // The customer whose move leaves the most violated set.
    fn best_move(&self, customers: CustomerSet, step: u32, free_from: &[u32; PLACES]) -> Option<u16>
        ensures { IfSome result (λ customer. customer < PLACES) }
    {
        let mut best = 0;
        let mut most = i64::MIN;
        for customer in customers.iter() {
            let is_in = self.set.contains(customer);
            let is_far = !is_in && at(&self.joins, customer) <= 0;
            if is_far || free_from[usize::from(customer)] > step {
                continue;
            }
            let value = self.value_of_move(customer, is_in);
            if value > most {
                (best, most) = (customer, value);
            }
        }
        if best > 0 && usize::from(best) < PLACES {
            Some(best)
        } else {
            None
        }
    }

    // How much the set is violated once a customer was moved. What its demand exceeds full trucks by counts a little, so that a set with
    // slack is preferred.
    fn value_of_move(&self, customer: u16, is_in: bool) -> i64 {
        let demand = self.demand(customer);
        let more = self.more_crossed(customer);
        let (load, crossed) = if is_in {
            (
                self.load.saturating_sub(demand),
                self.crossed.wrapping_sub(more),
            )
        } else {
            (
                self.load.saturating_add(demand),
                self.crossed.wrapping_add(more),
            )
        };
        if load == 0 {
            return i64::MIN;
        }
        let trucks = i64::from(self.trucks(load));
        let capacity = u64::from(self.fleet.capacity).max(1);
        let over = (load - 1) % capacity + 1;
        let slack = over.min(capacity.saturating_sub(over));
        let bonus = i64::try_from(slack.saturating_mul(10_486) / capacity).unwrap_or(0);
        trucks
            .wrapping_mul(ONE)
            .wrapping_sub(crossed / 2)
            .wrapping_add(bonus)
    }
}
