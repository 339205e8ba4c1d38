//! The size of the tables, and the number of steps to fill them.
ghost use Rattle.std.specs.Prelude.{◌≡◌, ◌≤◌};
ghost use Rattle.vrp_model.specs.Problem.{place_count};

use crate::amounts::{capacity_in_units, demand_in_units};
use vrp_model::Instance;

/// The size of the tables, by demands in units.
#[derive(Clone, Copy, Debug)]
pub struct Size {
    /// The number of places, the depot included.
    pub places: u64,
    /// The lesser of the whole demand and the capacity, in units.
    pub room: u64,
    /// The total demand of all customers, in units.
    pub whole: u64,
    /// The number of looks for ng-sets, for each load.
    pub looks: u64,
}

impl Size {
    /// The size for an instance in this unit, without ng-sets. The contract leaves the whole demand in units open.
    pub fn in_units(instance: &Instance, unit: u64) -> Size
        requires some { 1 ≤ unit }
        ensures places { result.places ≡ place_count instance.now }
        ensures room { result.room ≤ result.whole }
        ensures looks { result.looks ≡ 0 }
    {
        let whole = whole_in_units(instance, unit);
        Size {
            places: u64::from(instance.customers()) + 1,
            room: capacity_in_units(instance, unit).min(whole),
            whole,
            looks: 0,
        }
    }

    /// The size with this many looks for ng-sets of each load.
    pub fn with_looks(self, looks: u64) -> Size
        ensures { result ≡ record self { looks = looks } }
    {
        Size { looks, ..self }
    }

    /// The number of steps to fill the tables once over all arcs, where a step is a look from one cell at another; `u64::MAX`
    /// if there are more. The contract leaves the number open.
    pub fn steps(self) -> u64 {
        self.steps_over(self.places.saturating_mul(self.places))
    }

    /// The number of steps to fill the tables once if the walks of one load take this many looks along rows of arcs;
    /// `u64::MAX` if there are more. The contract leaves the number open.
    pub fn steps_over(self, arcs: u64) -> u64 {
        let loads = self.room.saturating_add(1);
        let of_one = arcs.saturating_add(self.looks).saturating_add(self.whole);
        loads.saturating_mul(of_one)
    }

    /// The number of steps to enter the prices of this many cuts, where a step is a look at an arc; `u64::MAX` if there are
    /// more. The contract leaves the number open.
    pub fn cut_prices(self, cuts: u64) -> u64 {
        cuts.saturating_mul(self.places).saturating_mul(self.places)
    }
}

// The total demand of all customers in units.
fn whole_in_units(instance: &Instance, unit: u64) -> u64
    requires some { 1 ≤ unit }
{
    let mut whole = 0u64;
    for index in 0..instance.customers() {
        whole = whole.saturating_add(demand_in_units(instance, unit, index + 1));
    }
    whole
}
