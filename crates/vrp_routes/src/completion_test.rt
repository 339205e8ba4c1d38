//! The test whether a beginning of a route can be completed to a useful route.
ghost use Rattle.std.specs.Prelude.{◌≡◌, ◌≢◌, ◌++◌, ◌∷◌, ℕ, List, [], false, IfNone, IfSome};
ghost use Rattle.vrp_model.specs.Problem.{Problem};
ghost use Rattle.vrp_routes.specs.Label.{IsBeginning, IsBeginningWith};
ghost use Rattle.vrp_routes.specs.Useful.{BeginsUseful, IsUsefulIn};
ghost use Rattle.vrp_routes.specs.declared.plan_range.PlanRange.{PlanRange};

use vrp_model::{CustomerSet, Instance};

/// Whether a beginning of a route can be completed to a useful route of an instance, as far as the test can tell. It tells by
/// resources that it counts along the beginning, customer by customer. A test's type says which instance it is for, in which range
/// of plans the canonical plan is sought, and which resources are those of which stops. It is asked for each label and each customer.
pub trait CompletionTest {
    /// What is counted along a beginning.
    type Resources: Copy + Send + Sync;

    ghost problem: { Self → Problem };

    // Which plans are sought: what matters is whether the canonical plan is one of them.
    ghost range: { Self → PlanRange };

    // These are the resources of these stops.
    ghost Counts: { Self → List ℕ → Self.Resources → Type 0 };

    /// The instance.
    fn instance(&self) -> &Instance
        ensures { result.now ≡ problem self.now };

    /// The resources of no customers.
    fn start(&self) -> Self::Resources
        ensures { Counts self.now [] result };

    /// The resources of a beginning with one customer more, whom the truck can carry too. Of the beginning before, the test is told
    /// the resources, the customers, the load and the last stop. `None` only if no useful route begins with the longer one.
    fn extended(
        &self,
        resources: &Self::Resources,
        set: CustomerSet,
        load: u32,
        last: u16,
        stop: u16,
    ) -> Option<Self::Resources>
        requires { (stops : List ℕ) × IsBeginningWith (problem self.now) stops set load last
            × IsBeginning (problem self.now) (stops ++ stop ∷ [])
            × Counts self.now stops resources.now }
        ensures some { IfSome result (λ longer. (stops : List ℕ)
            → IsBeginningWith (problem self.now) stops set load last
            → Counts self.now stops resources.now
            → Counts self.now (stops ++ stop ∷ []) longer) }
        ensures none { IfNone result ((stops : List ℕ)
            → IsBeginningWith (problem self.now) stops set load last
            → Counts self.now stops resources.now
            → BeginsUseful (problem self.now) (range self.now) (stops ++ stop ∷ []) → ⊥) };

    /// Whether a beginning may be a whole useful route. `false` only if it is none.
    fn may_close(&self, resources: &Self::Resources, set: CustomerSet, load: u32, last: u16) -> bool
        requires { (stops : List ℕ) × IsBeginningWith (problem self.now) stops set load last
            × (stops ≢ [])
            × Counts self.now stops resources.now }
        ensures { result ≡ false → (stops : List ℕ)
            → IsBeginningWith (problem self.now) stops set load last
            → Counts self.now stops resources.now
            → IsUsefulIn (problem self.now) (range self.now) stops → ⊥ };
}
