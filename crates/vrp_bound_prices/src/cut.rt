//! Cuts: a set of customers whose border is crossed by the trucks that serve them, and a price for each arc across it.
ghost use Rattle.std.specs.Prelude.{◌≡◌, ◌≤◌, vec_len, length};
ghost use Rattle.vrp_bound.specs.Capacity.{IsTrucks};
ghost use Rattle.vrp_model.specs.Problem.{place_count};
ghost use Rattle.vrp_model.specs.Route.{load_of};
ghost use Rattle.vrp_model.specs.Word.{stands_in};
ghost use Rattle.vrp_model.specs.declared.limits.TheConstants.{MAX_NODES};
ghost use Rattle.vrp_bound_prices.specs.CapacityCut.{IsCut, crosses, marked};
ghost use Rattle.vrp_bound_prices.specs.declared.limits.TheConstants.{MAX_CUT_PRICE};

use std::marker::Model;
use vrp_bound::trucks_needed;
use vrp_model::Instance;

/// A set of customers, the number of trucks that their demand needs, and a cut price: the amount taken off each arc that
/// crosses the border, with exactly one end inside (the rounded capacity inequalities of Laporte and Nobert 1983).
#[derive(Debug, Drop)]
pub struct CapacityCut {
    // A mark for each place.
    inside: Vec<bool>,
    trucks: u64,
    cut_price: u64,
}

impl Model for CapacityCut {
    ghost use Rattle.std.specs.Prelude.{◌≤◌};
    ghost use Rattle.vrp_model.specs.declared.limits.TheConstants.{MAX_NODES};
    ghost use Rattle.vrp_bound_prices.specs.CapacityCut.{CapacityCut, cut_of};
    ghost use Rattle.vrp_bound_prices.specs.declared.limits.TheConstants.{MAX_CUT_PRICE};

    ghost Value = { CapacityCut };

    ghost view = { λ a. cut_of a.inside.items a.trucks a.cut_price };

    ghost invariant = { λ a. (a.trucks ≤ MAX_NODES) × (a.cut_price ≤ MAX_CUT_PRICE) };
}

impl CapacityCut {
    /// The cut of the marked customers, with a mark for each place; the depot's mark is ignored.
    pub fn new(instance: &Instance, inside: Vec<bool>, cut_price: u64) -> CapacityCut
        requires one_each { vec_len inside ≡ place_count instance.now }
        requires small { cut_price ≤ MAX_CUT_PRICE }
        ensures cut { IsCut instance.now result }
        ensures inside { result.inside ≡ marked inside.items }
        ensures cut_price { result.cut_price ≡ cut_price }
    {
        let trucks = trucks_for(instance, inside.as_slice());
        CapacityCut {
            inside,
            trucks,
            cut_price,
        }
    }

    /// The number of trucks that its customers' demand needs.
    pub fn trucks(&self) -> u64
        ensures value { result ≡ self.now.trucks }
        ensures few { result ≤ MAX_NODES }
    {
        self.trucks
    }

    /// The amount taken off each arc that crosses its border.
    pub fn cut_price(&self) -> u64
        ensures value { result ≡ self.now.cut_price }
        ensures small { result ≤ MAX_CUT_PRICE }
    {
        self.cut_price
    }

    /// Whether an arc crosses its border.
    pub fn is_crossed(&self, from: u16, to: u16) -> bool
        ensures { result ≡ crosses self.now.inside from to }
    {
        self.has(from) != self.has(to)
    }

    /// Whether a place is inside.
    pub(crate) fn has(&self, place: u16) -> bool
        ensures { result ≡ stands_in self.now.inside place }
    {
        let place = usize::from(place);
        if place == 0 || place >= self.inside.len() {
            return false;
        }
        self.inside[place]
    }
}

// The number of trucks that the marked customers' demand needs.
fn trucks_for(instance: &Instance, inside: &[bool]) -> u64
    requires one_each { length inside.now ≡ place_count instance.now }
    ensures carry { let load = load_of instance.now (marked inside.now) in
        IsTrucks instance.now.capacity load result }
    ensures few { result ≤ MAX_NODES }
{
    let mut load = 0;
    for index in 0..instance.customers() {
        let customer = index + 1;
        if inside[usize::from(customer)] {
            let demand = instance.demand(customer);
            load += demand;
        }
    }
    trucks_needed(instance.capacity(), load)
}
