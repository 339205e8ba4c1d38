//! The scope of tables: some customers of an instance.
ghost use Rattle.std.specs.Prelude.{◌≡◌, ◌+◌, ◌*◌, ◌≤◌, ◌<◌, ◌↔◌, All, Contains, IsTrue, length};
ghost use Rattle.std.specs.List.Sorted.{IsStrictlyIncreasing};
ghost use Rattle.vrp_model.specs.Problem.{customers as customers_of, place_count, IsProblem};
ghost use Rattle.vrp_model.specs.Route.{load_of};
ghost use Rattle.vrp_bound.specs.Tables.{AllDemand, AreMadeWithin};
ghost use Rattle.vrp_model.specs.declared.limits.TheConstants.{MAX_CAPACITY, MAX_NODES};

use vrp_model::Instance;

/// The greatest number of steps to fill the table of the tours, and that of the walks if partial plans are looked up in it.
pub(crate) const MOST_STEPS: u64 = 200_000_000;

/// Some customers of an instance, and its number of places.
#[derive(Clone, Copy)]
pub struct Scope<'a> {
    pub(crate) instance: &'a Instance,
    pub(crate) customers: &'a [u16],
    pub(crate) places: usize,
    ghost problem: { IsProblem instance.now },
    ghost counted: { places ≡ place_count instance.now },
    ghost few: { length customers.now ≤ MAX_NODES },
    ghost known: { All (λ customer. customer < place_count instance.now) customers.now },
}

impl<'a> Scope<'a> {
    /// These customers of an instance.
    pub fn new(instance: &'a Instance, customers: &'a [u16]) -> Scope<'a>
        requires rising { IsStrictlyIncreasing customers.now }
        requires customers { All (Contains (customers_of instance.now)) customers.now }
        ensures instance { result.instance.now ≡ instance.now }
        ensures customers { result.customers.now ≡ customers.now }
    {
        Scope {
            instance,
            customers,
            places: usize::from(instance.customers()) + 1,
        }
    }
}

/// Whether tables are made over these customers, where those of the walks may take so many steps to fill.
pub(crate) fn are_made(scope: Scope<'_>, most_steps: u64) -> bool
    ensures { IsTrue result ↔ AreMadeWithin most_steps scope.entry.instance.now scope.entry.customers.now }
{
    if !all_demand(scope) {
        return false;
    }
    let demand = demand_of_all(scope);
    let room = scope.instance.capacity().min(demand);
    let customers = scope.customers.len() as u64;
    (room + 1) * customers * customers <= most_steps && demand.saturating_mul(room) <= MOST_STEPS
}

// Whether each of these customers has a demand.
fn all_demand(scope: Scope<'_>) -> bool
    ensures { IsTrue result ↔ AllDemand scope.entry.instance.now scope.entry.customers.now }
{
    for customer in scope.customers {
        if scope.instance.demand(*customer) == 0 {
            return false;
        }
    }
    true
}

/// The total demand of these customers.
pub(crate) fn demand_of_all(scope: Scope<'_>) -> u64
    ensures value { result ≡ load_of scope.entry.instance.now scope.entry.customers.now }
    ensures small { result ≤ MAX_CAPACITY * length scope.entry.customers.now }
{
    let mut demand = 0;
    for customer in scope.customers {
        demand += scope.instance.demand(*customer);
    }
    demand
}
