//! The tally of a word, and the lower bound on plans under it.
ghost use Rattle.std.specs.Prelude.{◌≡◌, ◌↔◌, ◌⊎◌, ◌-◌, ◌*◌, ◌≤◌, ◌<◌, [], IsTrue};
ghost use Rattle.vrp_bound.specs.Capacity.{IsInboundSumOf};
ghost use Rattle.vrp_model.specs.Problem.{HasTrucks, customers, place_count};
ghost use Rattle.vrp_model.specs.Route.{load_of};
ghost use Rattle.vrp_model.specs.declared.limits.TheConstants.{MAX_ARCS};
ghost use Rattle.vrp_search_tree.specs.Inner.Tallied.{IsLowOf, routes_by};
ghost use Rattle.vrp_search_tree.specs.Tally.{IsTally};

use vrp_bound::{Tables, bound};
use vrp_model::Instance;

/// The tally of a word, in the units of the instance.
#[derive(Clone, Copy, Default)]
pub struct Tally {
    pub(crate) cost: u64,
    /// Of the open route, 0 if none is open.
    pub(crate) load: u64,
    /// The demand of the unserved customers.
    pub(crate) rest: u64,
    /// The sum of the least arcs into the unserved customers.
    pub(crate) inbound_sum: u64,
    /// The first customer of the last route, 0 if there is no route yet.
    pub(crate) first_customer: u16,
    /// The number of unserved customers.
    pub(crate) unserved: u16,
    /// The greatest unserved customer, 0 if there is none.
    pub(crate) greatest: u16,
    /// The number of routes, an open one included.
    pub(crate) routes: u16,
}

impl Tally {
    /// The tally of the empty word.
    pub(crate) fn root(instance: &Instance) -> Tally
        ensures { IsTally instance.now [] result }
    {
        let customers = instance.customers();
        Tally {
            cost: 0,
            load: 0,
            rest: instance.whole_demand(),
            inbound_sum: whole_inbound_sum(instance),
            first_customer: 0,
            unserved: customers,
            greatest: customers,
            routes: 0,
        }
    }

    /// Whether the word, which ends at this place, is a partial plan without completion. That is so in a symmetric instance if every
    /// unserved customer is below the first one of the last route, and one is left, or the open route ends below its first.
    #[inline(always)]
    pub(crate) fn has_no_completion(self, at: u16) -> bool
        ensures { IsTrue result ↔ (self.greatest < self.first_customer)
            × ((0 < self.greatest) ⊎ ((0 < at) × (at < self.first_customer))) }
    {
        self.greatest < self.first_customer
            && (self.greatest > 0 || (at > 0 && at < self.first_customer))
    }

    /// The cost of the word plus the bound on what is still to pay from its end. `None` if the bound says that there is no plan.
    // Called for each partial plan that is looked at.
    #[inline(always)]
    pub(crate) fn low(self, instance: &Instance, tables: &Tables<'_>, at: u16) -> Option<u64>
        requires tables { tables.now.problem ≡ instance.now }
        requires place { at < place_count instance.now }
        requires load { self.load ≤ instance.now.capacity }
        requires depot { at ≡ 0 → self.load ≡ 0 }
        requires inbound_sum { self.inbound_sum ≤ MAX_ARCS }
        requires cost { self.cost ≤ 2 * MAX_ARCS }
        requires rest { self.rest ≤ load_of instance.now tables.now.among }
        requires all { self.rest ≤ load_of instance.now (customers instance.now) }
        requires trucks { HasTrucks instance.now self.routes }
        ensures { IsLowOf instance.now tables.now.among at self result }
    {
        let left = self.routes_left(instance);
        let more = bound(
            tables,
            instance,
            at,
            self.load,
            self.inbound_sum,
            self.rest,
            left,
        )?;
        Some(self.cost + more)
    }

    // The number of routes that may still be opened; `None` if trucks are not limited.
    #[inline(always)]
    fn routes_left(self, instance: &Instance) -> Option<u16>
        requires { HasTrucks instance.now self.routes }
        ensures { result ≡ routes_by instance.now self }
    {
        Some(instance.trucks()? - self.routes)
    }
}

// The sum of the least arcs into all customers.
fn whole_inbound_sum(instance: &Instance) -> u64
    ensures inbound_sum { IsInboundSumOf instance.now [] result }
    ensures small { result ≤ MAX_ARCS }
{
    let mut inbound_sum = 0;
    for index in 0..instance.customers() {
        inbound_sum += instance.least_in(index + 1);
    }
    inbound_sum
}
