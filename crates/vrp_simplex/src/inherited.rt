//! The inheritance of a node: the prices offered for the node before, with their bound and their cuts.
use crate::cut::{Cut, CutKind};
use crate::node::NO_BOUND;
use crate::row_prices::RowPrices;
use crate::scope::Scope;
use std::alloc::{AllocError, Global};
use vrp_duals::Duals;
use vrp_model::{CustomerSet, FleetView};

/// Prices offered for a pool of this many routes, and their bound on the choices in their scope.
#[derive(Clone, Debug, Drop)]
pub(crate) struct Inherited {
    pub(crate) scope: Scope,
    pub(crate) count: usize,
    pub(crate) bound: i64,
    pub(crate) prices: RowPrices,
}

impl Inherited {
    /// The prices of column generation. They bound no pool.
    pub(crate) fn of_duals(alloc: Global, duals: &Duals) -> Result<Inherited, AllocError> {
        Ok(Inherited {
            scope: Scope {
                customers: CustomerSet::empty(),
                least_routes: 0,
                most_routes: 0,
            },
            count: 0,
            bound: NO_BOUND,
            prices: RowPrices::of_duals(alloc, duals)?,
        })
    }

    /// Whether the bound holds for a pool of this many routes and a scope: a longer pool is no part of the earlier one.
    pub(crate) fn holds_for(&self, scope: &Scope, count: usize) -> bool {
        self.scope == *scope && count <= self.count
    }

    /// The cuts of these prices, restricted to the customers of a new program: subset rows, and sets that more than one truck must visit.
    pub(crate) fn cuts(
        &self,
        alloc: Global,
        customers: CustomerSet,
        fleet: &FleetView<'_>,
    ) -> Result<Vec<Cut>, AllocError> {
        let mut cuts = Vec::new(alloc);
        for found in self.prices.subset_rows() {
            if found.set.is_subset(customers) {
                let kind = CutKind::SubsetRow;
                cuts.push(Cut {
                    set: found.set,
                    kind,
                })?;
            }
        }
        for found in self.prices.capacity_cuts() {
            let set = found.set.intersection(customers);
            let kind = CutKind::Capacity(trucks_for(set, fleet));
            let cut = Cut { set, kind };
            if cut.side() > 1 && !cuts.contains(&cut) {
                cuts.push(cut)?;
            }
        }
        Ok(cuts)
    }
}

/// The number of trucks that carry the demand of a set of customers.
pub(crate) fn trucks_for(set: CustomerSet, fleet: &FleetView<'_>) -> u32 {
    let mut load = 0u64;
    for customer in set.iter() {
        load = load.saturating_add(fleet.demand(usize::from(customer)));
    }
    let trucks = load.div_ceil(u64::from(fleet.capacity).max(1));
    u32::try_from(trucks).unwrap_or(0)
}
