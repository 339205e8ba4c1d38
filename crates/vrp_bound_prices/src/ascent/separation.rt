//! Separation: sets of customers whose border the mean flow crosses less often than the trucks that serve them must.
ghost use Rattle.std.specs.Prelude.{◌<◌};

use crate::ascent::flow::{Flow, USE};
use std::alloc::Global;
use vrp_bound::trucks_needed;
use vrp_model::{Instance, NoMemory};

// The most customers of a set.
const MOST_GROWN: u16 = 125;

// A set is violated if at least this much of a crossing is missing: a fifth of one.
const LEAST_WANTING: i64 = USE / 5;

/// A set of customers, the trucks that must serve it, and the crossings of its border that the flow lacks.
#[derive(Drop)]
pub(crate) struct ViolatedCut {
    pub(crate) inside: Vec<bool>,
    pub(crate) trucks: i64,
    pub(crate) wanting: i64,
}

/// The most violated sets that grow from each customer, the most violated first.
pub(crate) fn violated_cuts(
    alloc: Global,
    instance: &Instance,
    flow: &Flow,
) -> Result<Vec<ViolatedCut>, NoMemory> {
    let mut violated = Vec::new(alloc);
    for index in 0..instance.customers() {
        let mut growing = GrowingSet::new(alloc, instance, flow)?;
        growing.take_in(usize::from(index) + 1);
        if let Some(cut) = growing.most_wanting(alloc)? {
            violated.push(cut)?;
        }
    }
    violated.sort_unstable_by_key(|cut| cut.wanting.saturating_neg());
    Ok(violated)
}

// A set that grows by the customer with the largest flow into it.
#[derive(Drop)]
struct GrowingSet<'a> {
    instance: &'a Instance,
    flow: &'a Flow,
    inside: Vec<bool>,
    // The flow between the set and each place.
    joins: Vec<i64>,
    // The flow across the border.
    crossings: i64,
    load: u64,
    trucks: i64,
}

impl<'a> GrowingSet<'a> {
    // The empty one.
    fn new(
        alloc: Global,
        instance: &'a Instance,
        flow: &'a Flow,
    ) -> Result<GrowingSet<'a>, NoMemory> {
        let places = usize::from(instance.customers()) + 1;
        Ok(GrowingSet {
            instance,
            flow,
            inside: vec![in alloc; false; places]?,
            joins: vec![in alloc; 0; places]?,
            crossings: 0,
            load: 0,
            trucks: 0,
        })
    }

    // The most violated set on the way to many or nearly all customers, if it is violated enough.
    fn most_wanting(mut self, alloc: Global) -> Result<Option<ViolatedCut>, NoMemory> {
        let mut most = LEAST_WANTING;
        let mut found = None;
        for _ in 3..self.instance.customers().min(MOST_GROWN) + 1 {
            let Some(customer) = self.most_joined() else {
                break;
            };
            self.take_in(customer);
            let wanting = self
                .trucks
                .wrapping_mul(2 * USE)
                .wrapping_sub(self.crossings);
            if wanting > most {
                most = wanting;
                found = Some(ViolatedCut {
                    inside: Vec::from_slice(alloc, &self.inside)?,
                    trucks: self.trucks,
                    wanting,
                });
            }
        }
        Ok(found)
    }

    // The customer outside with the largest flow into the set.
    fn most_joined(&self) -> Option<usize> {
        let mut most = i64::MIN;
        let mut joined = None;
        for (place, (&inside, &flow)) in self.inside.iter().zip(&self.joins).enumerate() {
            if place > 0 && !inside && flow >= most {
                most = flow;
                joined = Some(place);
            }
        }
        joined
    }

    // Adds a customer.
    fn take_in(&mut self, customer: usize) {
        let flow = self.flow.of(customer);
        let own = self.joins.get(customer).copied().unwrap_or(0);
        let through = flow.iter().fold(0i64, |sum, &uses| sum.wrapping_add(uses));
        self.crossings = self
            .crossings
            .wrapping_add(through)
            .wrapping_sub(own.wrapping_mul(2));
        for (join, &uses) in self.joins.iter_mut().zip(flow) {
            *join = join.wrapping_add(uses);
        }
        if let Some(inside) = self.inside.get_mut(customer) {
            *inside = true;
        }
        self.load = self.load.saturating_add(demand(self.instance, customer));
        let capacity = self.instance.capacity().max(1);
        self.trucks = i64::try_from(trucks_needed(capacity, self.load)).unwrap_or(0);
    }
}

// The demand of a customer, 0 if there is no such customer.
fn demand(instance: &Instance, customer: usize) -> u64 {
    if customer <= usize::from(instance.customers()) {
        instance.demand(customer as u16)
    } else {
        0
    }
}
