//! Closed labels by dual prices: the lower bound that they prove, and the list of useful routes.
ghost use Rattle.std.specs.Prelude.{◌≡◌, IfOk};
ghost use Rattle.vrp_priced_routes.specs.Priced.{ArePricedLabels, BoundsPlansIn};
ghost use Rattle.vrp_routes.specs.Listing.{IfPool};
ghost use Rattle.vrp_routes.specs.Pool.{IsPoolIn};

use crate::label_test::LabelTest;
use crate::priced_graph::PricedGraph;
use std::marker::Model;
use std::thread::Threads;
use vrp_labels::{Completions, LabelPiles};
use vrp_model::{Crew, NoMemory, Watch};
use vrp_routes::{Limit, Listed, RoutePool, list_routes};

/// The closed labels of an instance by dual prices, for plans in a range.
#[derive(Drop)]
pub struct PricedLabels<'a, 'd> {
    priced: PricedGraph<'a, 'd>,
    gap: i64,
    labels: LabelPiles,
    lower_bound: u64,
}

impl<'a, 'd> Model for PricedLabels<'a, 'd> {
    ghost use Rattle.vrp_priced_routes.specs.Priced.{ArePricedLabels, PricedLabelsOf};

    ghost Value = { PricedLabelsOf };

    ghost view = { λ a. record { priced = a.priced; gap = a.gap; labels = a.labels; bound = a.lower_bound } };

    ghost invariant = { λ a. ArePricedLabels (record { priced = a.priced; gap = a.gap; labels = a.labels; bound = a.lower_bound }) };
}

impl<'a, 'd> PricedLabels<'a, 'd> {
    // The labels that are closed with this gap, and a lower bound.
    pub(crate) fn new(
        priced: PricedGraph<'a, 'd>,
        gap: i64,
        labels: LabelPiles,
        lower_bound: u64,
    ) -> PricedLabels<'a, 'd>
        requires { ArePricedLabels (record { priced = priced; gap = gap; labels = labels; bound = lower_bound }) }
        ensures { result ≡ record { priced = priced.entry; gap = gap; labels = labels; bound = lower_bound } }
    {
        PricedLabels {
            priced,
            gap,
            labels,
            lower_bound,
        }
    }

    /// What a feasible plan in the range costs at least. If that is more than its limit, there is none.
    pub fn lower_bound(&self) -> u64
        ensures value { result ≡ self.now.bound }
        ensures bound { BoundsPlansIn self.now.priced.problem self.now.priced.range result }
    {
        self.lower_bound
    }

    /// The number of labels; no clause pins it.
    pub fn count(&self) -> usize {
        let mut count: usize = 0;
        for at in 0..self.labels.len() {
            count = count.saturating_add(self.labels.get(at).len());
        }
        count
    }

    /// The routes that may be in the canonical plan, if that is in the range. A beginning is kept where a label completes it;
    /// subset rows are counted in full. The rest is as in `vrp_routes::list_routes`, and the contract leaves open the same. Where the lower
    /// bound is above the limit, the pool is empty.
    pub fn list_routes<R: Threads + Sync, W: Watch + Sync>(
        self,
        crew: &Crew<'_, R, W>,
        most_labels: u32,
    ) -> Result<Listed, NoMemory>
        ensures { IfOk result (λ listed. IfPool listed (IsPoolIn self.entry.priced.problem self.entry.priced.range)) }
    {
        let PricedLabels {
            priced,
            gap,
            labels,
            lower_bound,
        } = self;
        let PricedGraph {
            instance,
            range,
            duals,
            graph,
        } = priced;
        if lower_bound > range.limit {
            return Ok(Listed::Pool(RoutePool::empty(crew.alloc)));
        }
        let memories = duals.full_memories(crew.alloc)?;
        // Full memories have what any have, so there is a wide graph.
        let Some(wide) = graph.widen(memories) else {
            return Ok(Listed::Met(Limit::Labels));
        };
        let completions = Completions::widened(crew.alloc, &wide, gap, labels)?;
        let test = LabelTest::new(instance, range, &wide, gap, &completions);
        list_routes(crew, &test, most_labels)
    }
}
