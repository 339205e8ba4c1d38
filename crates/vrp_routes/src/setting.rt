//! The setting that all labels share.
ghost use Rattle.std.specs.Prelude.{◌≡◌, ◌≢◌, ◌≤◌, ◌<◌, List, [], ◌∷◌, ◌++◌, IfNone, IfSome, ℕ};
ghost use Rattle.vrp_model.specs.Problem.{IsProblem, place_count};
ghost use Rattle.vrp_model.specs.Route.{route_cost};
ghost use Rattle.vrp_model.specs.declared.customers.customer_set.TheConstants.{PLACES};
ghost use Rattle.vrp_routes.specs.Label.{IsLabel};
ghost use Rattle.vrp_routes.specs.Setting.{setting_of};
ghost use Rattle.vrp_routes.specs.Useful.{BeginsUseful, IsUsefulIn};

use crate::completion_test::CompletionTest;
use crate::label::Label;
use vrp_model::CustomerSet;

/// The completion test of all labels, for an instance whose customers fit a set.
#[derive(Drop)]
pub struct Setting<'a, T: CompletionTest> {
    pub test: &'a T,
    ghost few: { place_count (T.problem test.now) ≤ PLACES },
    ghost instance: { IsProblem (T.problem test.now) },
}

impl<'a, T: CompletionTest> Setting<'a, T> {
    /// The setting of a test.
    pub fn new(test: &'a T) -> Setting<'a, T>
        requires few { place_count (T.problem test.now) ≤ PLACES }
        ensures { result.test.now ≡ test.now }
    {
        // The facts known of every instance come with the number of customers.
        let _customers = test.instance().customers();
        Setting { test }
    }

    /// The number of places, the depot included.
    pub fn places(&self) -> u16
        ensures value { result ≡ place_count (T.problem self.now.test.now) }
        // What is known of every instance.
        ensures problem { IsProblem (T.problem self.now.test.now) }
    {
        self.test.instance().customers() + 1
    }

    /// The label of no customers.
    pub fn root(&self) -> Label<T::Resources>
        ensures { IsLabel (setting_of T.CompletionTest self.now.test.now) [] result }
    {
        Label {
            set: CustomerSet::empty(),
            cost: 0,
            resources: self.test.start(),
            load: 0,
            parent: 0,
            first: 0,
            last: 0,
        }
    }

    /// The cost of the route that a closed label makes. `None` if it is not a useful route.
    pub fn close(&self, label: &Label<T::Resources>) -> Option<u64>
        requires label { (stops : List ℕ)
            × IsLabel (setting_of T.CompletionTest self.now.test.now) stops label.now × (stops ≢ []) }
        ensures cost { IfSome result (λ cost. (stops : List ℕ)
            → IsLabel (setting_of T.CompletionTest self.now.test.now) stops label.now
            → cost ≡ route_cost (T.problem self.now.test.now) stops) }
        ensures none { IfNone result ((stops : List ℕ)
            → IsLabel (setting_of T.CompletionTest self.now.test.now) stops label.now
            → IsUsefulIn (T.problem self.now.test.now) (T.range self.now.test.now) stops → ⊥) }
    {
        let problem = self.test.instance();
        if label.first > label.last && problem.symmetric() {
            return None;
        }
        if !self
            .test
            .may_close(&label.resources, label.set, label.load, label.last)
        {
            return None;
        }
        let cost = label.cost + problem.weight(label.last, 0);
        Some(cost)
    }

    /// The label extended by one customer. `None` if no useful route begins so.
    #[inline(always)]
    pub fn extended(
        &self,
        label: &Label<T::Resources>,
        stop: u16,
        parent: u32,
    ) -> Option<Label<T::Resources>>
        requires label { (stops : List ℕ)
            × IsLabel (setting_of T.CompletionTest self.now.test.now) stops label.now }
        requires some { 0 < stop }
        requires place { stop < place_count (T.problem self.now.test.now) }
        ensures label { IfSome result (λ child. (stops : List ℕ)
            → IsLabel (setting_of T.CompletionTest self.now.test.now) stops label.now
            → IsLabel (setting_of T.CompletionTest self.now.test.now) (stops ++ stop ∷ []) child) }
        ensures parent { IfSome result (λ child. child.parent ≡ parent) }
        ensures last { IfSome result (λ child. child.last ≡ stop) }
        ensures none { IfNone result ((stops : List ℕ)
            → IsLabel (setting_of T.CompletionTest self.now.test.now) stops label.now
            → BeginsUseful (T.problem self.now.test.now) (T.range self.now.test.now) (stops ++ stop ∷ []) → ⊥) }
    {
        let problem = self.test.instance();
        let load = label.load as u64 + problem.demand(stop);
        if load > problem.capacity() {
            return None;
        }
        if label.set.contains(stop) {
            return None;
        }
        let Some(resources) = self
            .test
            .extended(&label.resources, label.set, label.load, label.last, stop)
        else {
            return None;
        };
        let cost = label.cost + problem.weight(label.last, stop);
        Some(Label {
            set: label.set.with(stop),
            cost,
            resources,
            load: load as u32,
            parent,
            first: label.first_with(stop),
            last: stop,
        })
    }
}
