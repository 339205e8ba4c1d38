//! One pass by dual prices: close the labels, find the arcs that plans within the limit use, and the lower bound.
ghost use Rattle.std.specs.Prelude.{◌≡◌, IfOk, length};
ghost use Rattle.vrp_duals.specs.Duals.{AreDualsOf};
ghost use Rattle.vrp_labels.specs.Fixing.{AreAlive, KeepsCheap};
ghost use Rattle.vrp_priced_routes.specs.Fault.{IsFault};
ghost use Rattle.vrp_priced_routes.specs.Passed.{IfPassed, IfRefused};
ghost use Rattle.vrp_priced_routes.specs.Priced.{ArePricedLabels};

use crate::alive_arcs::AliveArcs;
use crate::closed::Round;
use crate::fault::PassFault;
use crate::priced_graph::PricedGraph;
use crate::priced_labels::PricedLabels;
use std::alloc::Global;
use vrp_duals::Duals;
use vrp_labels::{ClosingLimit, LabelPiles};
use vrp_model::{Crew, CustomerSet, NoMemory, Watch};

/// What comes of a pass.
#[derive(Drop)]
pub enum Passed<'a, 'd> {
    Closed(Pass<'a, 'd>),
    /// Labels were not closed.
    Met(ClosingLimit),
    /// The pass can't use the prices or the ng-sets.
    Refused(PassFault),
}

/// The arcs and the closed labels that a pass leaves.
#[derive(Drop)]
pub struct Pass<'a, 'd> {
    /// Of the arcs before, those that plans in the range use, and maybe more.
    pub arcs: AliveArcs<'a>,
    /// They give the lower bound and the list of routes.
    pub labels: PricedLabels<'a, 'd>,
}

/// One pass by dual prices of an instance: over the arcs that are alive, where labels at each place can remember the customers of its
/// ng-set. `guess` says how far below 0, in price units, the folded cost of a route may be: where some route may cost less, labels are
/// closed twice. At most about `most_labels` labels are in memory. What the pass gives is true for any prices, ng-sets and guess; how much
/// it gives depends on them. The contract leaves open which arcs stay alive, how high the bound is, and which limit is met and when.
pub fn run_pass<'a, 'd, R, W: Watch>(
    crew: &Crew<'_, R, W>,
    arcs: &AliveArcs<'a>,
    duals: &'d Duals,
    near: &[CustomerSet],
    guess: u64,
    most_labels: usize,
) -> Result<Passed<'a, 'd>, NoMemory>
    requires { AreDualsOf arcs.now.problem duals.now }
    ensures refused { IfOk result (λ passed. IfRefused passed (IsFault arcs.now.problem arcs.now.range duals.now (length near.now))) }
    ensures problem { IfOk result (λ passed. IfPassed passed (λ pass. pass.arcs.problem ≡ arcs.now.problem)) }
    ensures range { IfOk result (λ passed. IfPassed passed (λ pass. pass.arcs.range ≡ arcs.now.range)) }
    ensures labels { IfOk result (λ passed. IfPassed passed (λ pass. pass.labels.priced.problem ≡ arcs.now.problem)) }
    ensures labels_range { IfOk result (λ passed. IfPassed passed (λ pass. pass.labels.priced.range ≡ arcs.now.range)) }
{
    let priced = match PricedGraph::new(crew.alloc, arcs, duals, near)? {
        Ok(priced) => priced,
        Err(fault) => return Ok(Passed::Refused(fault)),
    };
    let closed = match priced.close(crew, guess, most_labels)? {
        Round::Closed(closed) => closed,
        Round::Met(limit) => return Ok(Passed::Met(limit)),
        Round::TooWide => return Ok(Passed::Refused(PassFault::Gap)),
    };
    let bound = priced.price_bound().least_cost(closed.depth);
    let gap = closed.gap;
    let followers = closed.useful_arcs(crew, &priced.graph, arcs.followers(), most_labels)?;
    let labels = closed.completions.into_labels();
    let pass = priced.passed(crew.alloc, gap, labels, bound, followers)?;
    Ok(Passed::Closed(pass))
}

impl<'a, 'd> PricedGraph<'a, 'd> {
    // What a pass leaves that closed these labels with this gap, and found these arcs and this lower bound.
    fn passed(
        self,
        alloc: Global,
        gap: i64,
        labels: LabelPiles,
        bound: u64,
        followers: Vec<CustomerSet>,
    ) -> Result<Pass<'a, 'd>, NoMemory>
        requires keeps { KeepsCheap self.graph gap followers.items }
        requires alive { AreAlive self.graph followers.items }
        requires labels { ArePricedLabels (record { priced = self; gap = gap; labels = labels; bound = bound }) }
        ensures problem { IfOk result (λ pass. pass.arcs.problem ≡ self.entry.problem) }
        ensures range { IfOk result (λ pass. pass.arcs.range ≡ self.entry.range) }
        ensures labels { IfOk result (λ pass. pass.labels.priced.problem ≡ self.entry.problem) }
        ensures labels_range { IfOk result (λ pass. pass.labels.priced.range ≡ self.entry.range) }
    {
        let PricedGraph {
            instance,
            range,
            duals,
            graph,
        } = self;
        let arcs = AliveArcs::of(instance, range, Vec::from_slice(alloc, &followers)?);
        let priced = PricedGraph {
            instance,
            range,
            duals,
            graph: graph.keep_arcs(followers),
        };
        let labels = PricedLabels::new(priced, gap, labels, bound);
        Ok(Pass { arcs, labels })
    }
}
