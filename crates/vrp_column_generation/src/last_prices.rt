//! The last prices of column generation: they list the routes for lower limits.
ghost use Rattle.std.specs.Prelude.{◌≡◌, ◌≤◌, IfOk, IfSome};
ghost use Rattle.std.specs.Option.{option_map};
ghost use Rattle.vrp_column_generation.specs.Last.{HaveAllPlans};
ghost use Rattle.vrp_column_generation.specs.Pools.{ArePools};
ghost use Rattle.vrp_routes.specs.Pool.{IsPoolIn};

use crate::guide::Settings;
use crate::leaf_prices::LeafPrices;
use crate::pools::{LeafPools, Pools};
use std::marker::Model;
use std::thread::Threads;
use vrp_duals::Duals;
use vrp_model::{Crew, CustomerSet, NoMemory, Watch};
use vrp_routes::{Leaves, RoutePool};

/// Dual prices of an instance, and the arcs that plans within a limit use: with a lower limit, the same prices leave fewer routes. Where
/// column generation branched on the number of routes, there are prices for each of both leaves.
#[derive(Drop)]
pub struct LastPrices<'a> {
    leaf: LeafPrices<'a>,
    other: Option<LeafPrices<'a>>,
    // By place, the customers that a label can remember.
    near: Vec<CustomerSet>,
}

impl<'a> Model for LastPrices<'a> {
    ghost use Rattle.std.specs.Option.{option_map};
    ghost use Rattle.vrp_column_generation.specs.Last.{HaveAllPlans, LastPricesOf};

    ghost Value = { LastPricesOf };

    ghost view = { λ a. record { problem = a.leaf.arcs.problem; limit = a.leaf.arcs.range.limit } };

    ghost invariant = { λ a. HaveAllPlans a.leaf.arcs.problem a.leaf.arcs.range.limit a.leaf.arcs (option_map (λ leaf. leaf.arcs) a.other) };
}

impl<'a> LastPrices<'a> {
    // The prices of one leaf, or of two that have all plans, with what a pass by them needs.
    pub(crate) fn new(
        leaf: LeafPrices<'a>,
        other: Option<LeafPrices<'a>>,
        near: Vec<CustomerSet>,
    ) -> LastPrices<'a>
        requires { HaveAllPlans leaf.arcs.problem leaf.arcs.range.limit leaf.arcs (option_map (λ leaf. leaf.arcs) other) }
        ensures { result ≡ record { problem = leaf.entry.arcs.problem; limit = leaf.entry.arcs.range.limit } }
    {
        LastPrices { leaf, other, near }
    }

    /// The prices of the first leaf, or those for all plans; no clause pins them.
    pub fn duals(&self) -> &Duals {
        self.leaf.duals()
    }

    /// The prices of the other leaf, if there is one; no clause pins them.
    pub fn other_duals(&self) -> Option<&Duals> {
        match &self.other {
            Some(leaf) => Some(leaf.duals()),
            None => None,
        }
    }

    /// The routes that may be in the canonical plan, if that costs no more than this: by a pass along the arcs that are left, leaf by leaf.
    /// None if a limit on labels is met or the crew's watch stops it. The only error is lack of memory.
    pub fn routes_within<R: Threads + Sync, W: Watch + Sync>(
        &self,
        crew: &Crew<'_, R, W>,
        limit: u64,
        settings: Settings,
    ) -> Result<Option<Pools>, NoMemory>
        requires { limit ≤ self.now.limit }
        ensures { IfOk result (λ pools. IfSome pools (ArePools self.now.problem limit)) }
    {
        let first = self.routes_of(&self.leaf, crew, limit, settings)?;
        let Some(few) = first else {
            return Ok(None);
        };
        let Some(other) = &self.other else {
            return Ok(Some(Pools::Whole(few)));
        };
        let Some(many) = self.routes_of(other, crew, limit, settings)? else {
            drop(few);
            return Ok(None);
        };
        let leaves = Leaves {
            few: self.leaf.range_within(limit),
            many: other.range_within(limit),
        };
        Ok(Some(Pools::Leaves(LeafPools { leaves, few, many })))
    }

    // The routes of a leaf.
    fn routes_of<R: Threads + Sync, W: Watch + Sync>(
        &self,
        leaf: &LeafPrices<'a>,
        crew: &Crew<'_, R, W>,
        limit: u64,
        settings: Settings,
    ) -> Result<Option<RoutePool>, NoMemory>
        requires { limit ≤ leaf.now.arcs.range.limit }
        ensures { IfOk result (λ pool. IfSome pool (IsPoolIn leaf.now.arcs.problem (record leaf.now.arcs.range { limit = limit }))) }
    {
        leaf.routes_within(crew, limit, &self.near, settings)
    }
}
