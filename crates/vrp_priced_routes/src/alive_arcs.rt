//! The arcs that feasible plans in a range go along.
ghost use Rattle.std.specs.Prelude.{◌≡◌, ◌≤◌, ◌<◌, ℕ, IfOk};
ghost use Rattle.vrp_model.specs.declared.customers.customer_set.TheConstants.{PLACES};
ghost use Rattle.vrp_model.specs.Problem.{place_count};
ghost use Rattle.vrp_model.specs.declared.limits.TheConstants.{NO_COST};
ghost use Rattle.vrp_priced_routes.specs.Arcs.{HoldPlans, IsAlive};
ghost use Rattle.vrp_routes.specs.Range.{IsPart, plans_within};

use std::alloc::Global;
use std::marker::Model;
use vrp_model::{CustomerSet, Instance, NoMemory, all_customers};
use vrp_routes::PlanRange;

/// For each place of an instance those that may come behind it on a route: a feasible plan in the range goes along these arcs alone. A pass
/// leaves fewer of them.
#[derive(Drop)]
pub struct AliveArcs<'a> {
    instance: &'a Instance,
    range: PlanRange,
    // By place.
    followers: Vec<CustomerSet>,
}

impl<'a> Model for AliveArcs<'a> {
    ghost use Rattle.vrp_priced_routes.specs.Arcs.{ArcsOf, HoldPlans};

    ghost Value = { ArcsOf };

    ghost view = { λ a. record { problem = a.instance.now; range = a.range; followers = a.followers.items } };

    ghost invariant = { λ a. HoldPlans (record { problem = a.instance.now; range = a.range; followers = a.followers.items }) };
}

impl<'a> AliveArcs<'a> {
    /// All arcs of an instance of at most 256 places, for plans that cost no more than the limit. The only error is lack of memory.
    pub fn all(alloc: Global, instance: &'a Instance, limit: u64) -> Result<AliveArcs<'a>, NoMemory>
        requires few { place_count instance.now ≤ PLACES }
        requires limit { limit ≤ NO_COST }
        ensures problem { IfOk result (λ arcs. arcs.problem ≡ instance.now) }
        ensures range { IfOk result (λ arcs. arcs.range ≡ plans_within limit) }
        ensures all { IfOk result (λ arcs. (from to : ℕ) → from < place_count instance.now → to < place_count instance.now → IsAlive arcs.followers from to) }
    {
        let all = all_customers(instance).with(0);
        let places = usize::from(instance.customers()) + 1;
        Ok(AliveArcs {
            instance,
            range: PlanRange::within(limit),
            followers: vec![in alloc; all; places]?,
        })
    }

    // Arcs that plans in the range go along.
    pub(crate) fn of(
        instance: &'a Instance,
        range: PlanRange,
        followers: Vec<CustomerSet>,
    ) -> AliveArcs<'a>
        requires { HoldPlans (record { problem = instance.now; range = range; followers = followers.items }) }
        ensures { result ≡ record { problem = instance.now; range = range; followers = followers.items } }
    {
        AliveArcs {
            instance,
            range,
            followers,
        }
    }

    /// A copy of these arcs for a part of the plans. The only error is lack of memory.
    pub fn part(&self, alloc: Global, range: PlanRange) -> Result<AliveArcs<'a>, NoMemory>
        requires { IsPart range self.now.range }
        ensures { IfOk result (λ arcs. arcs ≡ record { problem = self.now.problem; range = range; followers = self.now.followers }) }
    {
        let followers = Vec::from_slice(alloc, &self.followers)?;
        Ok(AliveArcs::of(self.instance, range, followers))
    }

    /// The instance.
    pub fn instance(&self) -> &'a Instance
        ensures value { result.now ≡ self.now.problem }
        // What is known of all alive arcs.
        ensures alive { HoldPlans self.now }
    {
        self.instance
    }

    /// Which plans are sought.
    pub fn range(&self) -> PlanRange
        ensures { result ≡ self.now.range }
    {
        self.range
    }

    /// For each place, the depot's first, those that may come behind it.
    pub fn followers(&self) -> &[CustomerSet]
        ensures { result.now ≡ self.now.followers }
    {
        &self.followers
    }
}
