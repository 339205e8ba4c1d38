//! The graph of labels by dual prices of an instance.
ghost use Rattle.std.specs.Prelude.{◌≡◌, ◌≤◌, ◌↔◌, IfErr, IfOk, IsTrue, length};
ghost use Rattle.std.specs.List.{All};
ghost use Rattle.vrp_model.specs.declared.customers.customer_set.TheConstants.{PLACES};
ghost use Rattle.vrp_duals.specs.Duals.{AreDualsOf, IsNeededFor};
ghost use Rattle.vrp_duals.specs.declared.rows.EntryRow.{EntryRow};
ghost use Rattle.vrp_model.specs.Problem.{place_count};
ghost use Rattle.vrp_priced_routes.specs.Fault.{IsFault};
ghost use Rattle.vrp_priced_routes.specs.Priced.{IsPriceBound};

use crate::alive_arcs::AliveArcs;
use crate::bounds::PriceBound;
use crate::fault::PassFault;
use crate::units::{UnitDemands, unit_demands};
use std::alloc::Global;
use std::marker::Model;
use vrp_duals::{Duals, EntryRow};
use vrp_labels::{GraphParts, RouteGraph};
use vrp_model::{CustomerSet, Instance, NoMemory};
use vrp_routes::PlanRange;

/// An instance, a range of plans, dual prices, and the graph of labels by them: plans in the range go along its arcs.
#[derive(Drop)]
pub struct PricedGraph<'a, 'd> {
    pub(crate) instance: &'a Instance,
    pub(crate) range: PlanRange,
    pub(crate) duals: &'d Duals,
    pub(crate) graph: RouteGraph,
}

impl<'a, 'd> Model for PricedGraph<'a, 'd> {
    ghost use Rattle.vrp_priced_routes.specs.Priced.{IsPriced, PricedOf};

    ghost Value = { PricedOf };

    ghost view = { λ a. record { problem = a.instance.now; range = a.range; duals = a.duals.now; graph = a.graph } };

    ghost invariant = { λ a. IsPriced (record { problem = a.instance.now; range = a.range; duals = a.duals.now; graph = a.graph }) };
}

impl<'a, 'd> PricedGraph<'a, 'd> {
    /// The graph of these arcs by these prices, where labels can remember these customers.
    pub fn new(
        alloc: Global,
        arcs: &AliveArcs<'a>,
        duals: &'d Duals,
        near: &[CustomerSet],
    ) -> Result<Result<PricedGraph<'a, 'd>, PassFault>, NoMemory>
        requires { AreDualsOf arcs.now.problem duals.now }
        ensures problem { IfOk result (λ made. IfOk made (λ priced. priced.problem ≡ arcs.now.problem)) }
        ensures range { IfOk result (λ made. IfOk made (λ priced. priced.range ≡ arcs.now.range)) }
        ensures followers { IfOk result (λ made. IfOk made (λ priced. priced.graph.followers ≡ arcs.now.followers)) }
        ensures refused { IfOk result (λ made. IfErr made (λ fault. IsFault arcs.now.problem arcs.now.range duals.now (length near.now) fault)) }
    {
        let instance = arcs.instance();
        let range = arcs.range();
        if !are_needed(instance, range, duals.entries()) {
            return Ok(Err(PassFault::EntryRow));
        }
        let Some(units) = unit_demands(alloc, instance)? else {
            return Ok(Err(PassFault::Demands));
        };
        let UnitDemands { demands, capacity } = units;
        let parts = GraphParts {
            folded: duals.fold(alloc, instance)?,
            capacity,
            demands,
            near: Vec::from_slice(alloc, near)?,
            followers: Vec::from_slice(alloc, arcs.followers())?,
        };
        let Some(graph) = RouteGraph::new(parts) else {
            return Ok(Err(PassFault::NearSets));
        };
        Ok(Ok(PricedGraph {
            instance,
            range,
            duals,
            graph,
        }))
    }

    /// What is known of the prices.
    pub fn price_bound(&self) -> PriceBound
        ensures { IsPriceBound self.now result }
    {
        PriceBound {
            scale: self.duals.scale(),
            low: self.duals.low(),
            customers: self.instance.customers(),
        }
    }
}

// Whether every feasible plan in the range obeys each of these entry rows.
fn are_needed(instance: &Instance, range: PlanRange, entries: &[EntryRow]) -> bool
    requires { place_count instance.now ≤ PLACES }
    ensures { IsTrue result ↔ All (IsNeededFor instance.now range.least_routes range.most_routes) entries.now }
{
    for index in 0..entries.len() {
        if !entries[index].is_needed_for(instance, range.least_routes, range.most_routes) {
            return false;
        }
    }
    true
}
