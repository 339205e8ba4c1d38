//! The completion test by labels: a beginning of a route is kept where a label of endings completes it.
ghost use Rattle.std.specs.Prelude.{◌≡◌, ℕ, IsTrue, List, []};
ghost use Rattle.vrp_labels.specs.Completion.{IsForward};
ghost use Rattle.vrp_labels.specs.Label.{IsLabelOf};
ghost use Rattle.vrp_labels.specs.Route.{IsCheap, joined};
ghost use Rattle.vrp_model.specs.Problem.{place_count};
ghost use Rattle.vrp_routes.specs.Useful.{IsUsefulIn};
ghost use Rattle.vrp_priced_routes.specs.LabelTest.{AreLabelled, label_by};

use std::marker::Model;
use std::mem::size_of;
use vrp_duals::RowSet;
use vrp_labels::{Completions, Label, RouteGraph};
use vrp_model::{CustomerSet, Instance};
use vrp_routes::{CompletionTest, PlanRange};

/// What the test counts along a beginning: the subset rows in state 1, the cost in price units, and the load in units of demand.
#[derive(Clone, Copy, Debug)]
pub struct LabelResources {
    pub rows: RowSet,
    pub cost: i64,
    pub load: u32,
}

const _: () = prove!(size_of::<vrp_routes::Label<LabelResources>>() == 112);

impl LabelResources {
    // The resources of a label.
    fn of(label: &Label) -> LabelResources
        ensures { (set last : ℕ) → set ≡ label.now.visited → last ≡ label.now.at → label_by result set last ≡ label.now }
    {
        LabelResources {
            rows: label.rows,
            cost: label.cost,
            load: label.load,
        }
    }

    // The label of a beginning with these customers and this last stop.
    fn label(&self, visited: CustomerSet, at: u16) -> Label
        ensures { result ≡ label_by self.now visited at }
    {
        Label {
            visited,
            rows: self.rows,
            cost: self.cost,
            load: self.load,
            at,
        }
    }
}

/// The test by the completions of an instance, for canonical plans in a range.
#[derive(Drop)]
pub struct LabelTest<'a> {
    instance: &'a Instance,
    range: PlanRange,
    // The graph and the gap of the completions.
    graph: &'a RouteGraph,
    gap: i64,
    completions: &'a Completions<'a>,
}

impl<'a> Model for LabelTest<'a> {
    ghost use Rattle.vrp_priced_routes.specs.LabelTest.{IsLabelTest, LabelTestOf};

    ghost Value = { LabelTestOf };

    ghost view = { λ a. record { problem = a.instance.now; range = a.range; completions = a.completions.now } };

    ghost invariant = { λ a.
        IsLabelTest (record { problem = a.instance.now; range = a.range; completions = a.completions.now }) a.graph.now a.gap };
}

impl<'a> LabelTest<'a> {
    /// The test by completions that have a label for each ending of a useful route.
    pub fn new(
        instance: &'a Instance,
        range: PlanRange,
        graph: &'a RouteGraph,
        gap: i64,
        completions: &'a Completions<'a>,
    ) -> LabelTest<'a>
        requires graph { completions.now.graph ≡ graph.now }
        requires gap { completions.now.gap ≡ gap }
        requires places { graph.now.folded.places ≡ place_count instance.now }
        requires cheap { (stops : List ℕ) → IsUsefulIn instance.now range stops → IsCheap graph.now gap stops }
        ensures { result ≡ record { problem = instance.now; range = range; completions = completions.now } }
    {
        // The facts known of every instance come with the number of customers.
        let _customers = instance.customers();
        LabelTest {
            instance,
            range,
            graph,
            gap,
            completions,
        }
    }

    // Whether a beginning may be a whole cheap route.
    #[inline(always)]
    fn may_end(&self, forward: &Label) -> bool
        requires { IsLabelOf self.now.completions.graph forward.now }
        ensures ends { (beginning : List ℕ) → IsForward self.now.completions.graph beginning forward.now
            → IsCheap self.now.completions.graph self.now.completions.gap (joined beginning []) → IsTrue result }
        // What is known of every test by labels.
        ensures cheap { (stops : List ℕ) → IsUsefulIn self.now.problem self.now.range stops
            → IsCheap self.now.completions.graph self.now.completions.gap stops }
    {
        // What is known of every graph comes with its places.
        let _places = self.graph.places();
        self.graph.follows(forward.at, 0)
            && forward.cost + self.graph.arc(forward.at, 0) <= self.gap
    }
}

impl<'a> CompletionTest for LabelTest<'a> {
    type Resources = LabelResources;

    ghost problem = { λ t. t.problem };

    ghost range = { λ t. t.range };

    ghost Counts = { λ t stops resources. AreLabelled t.completions.graph stops resources };

    #[inline(always)]
    fn instance(&self) -> &Instance {
        self.instance
    }

    fn start(&self) -> LabelResources {
        LabelResources::of(&self.graph.root())
    }

    #[inline(always)]
    fn extended(
        &self,
        resources: &LabelResources,
        set: CustomerSet,
        _load: u32,
        last: u16,
        stop: u16,
    ) -> Option<LabelResources> {
        // Most customers are told by their arcs alone.
        if !self.graph.follows(last, stop) {
            return None;
        }
        let forward = resources.label(set, last);
        if !self.graph.may_advance(&forward, stop) {
            return None;
        }
        if !self.completions.may_continue(&forward, stop) {
            return None;
        }
        Some(LabelResources::of(&self.graph.advanced(&forward, stop)))
    }

    #[inline(always)]
    fn may_close(
        &self,
        resources: &LabelResources,
        set: CustomerSet,
        _load: u32,
        last: u16,
    ) -> bool {
        let forward = resources.label(set, last);
        self.may_end(&forward)
    }
}
