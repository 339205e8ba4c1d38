//! Prices of the rows of the set partitioning (customers, two kinds of cuts, trucks), with reduced costs and the lower bound.
ghost use Rattle.std.specs.Prelude.{◌≡◌, ◌≤◌, ◌≤ℤ◌, ◌+ℤ◌, ◌*◌, ◌^◌, [], List, pos, length, unsigned_abs, ◌↔◌, IfNone, IfOk, IfSome, IsTrue};
ghost use Rattle.std.specs.List.{All};
ghost use Rattle.vrp_partition.specs.Prices.{AllFit, AreModerate, AreValid, IsAdmissible, IsCapacityCut, IsGranted, IsNeeded, IsSubsetRow, load_of, charges, dual_sum, lower_bound_of, prices_of, reduced_cost_of, rewards};
ghost use Rattle.vrp_partition.specs.declared.prices.Cut.{Cut};
ghost use Rattle.vrp_partition.specs.declared.route.Route.{Route};
ghost use Rattle.vrp_partition.specs.declared.prices.TheConstants.{SCALE};

use std::alloc::{AllocError, Global};
use std::marker::Model;
use vrp_model::{CustomerSet, PLACES};

/// The number of price units in a unit of cost.
pub const SCALE: u64 = 1 << 20;

// The most cuts of each kind.
const MOST_CUTS: usize = 512;

// The greatest absolute price of a customer.
const MOST_DUAL: u64 = 1 << 52;

// The highest price of a cut, or of a truck.
const MOST_CUT_PRICE: u64 = 1 << 50;

/// A cut over a set of customers. Its price is paid by each route that has two of three customers (a subset-row cut; Jepsen, Petersen,
/// Spoorendonk and Pisinger 2008), or to each route that comes to the set (a strong capacity cut; Baldacci, Christofides and Mingozzi
/// 2008).
#[derive(Debug, Clone, Copy)]
pub struct Cut {
    pub set: CustomerSet,
    // The least number of routes that come to the set; unused for a subset-row cut.
    pub count: u32,
    pub price: u64,
}

/// Prices that bound choices: the duals of the customers, of any sign, and the prices of the cuts and of a truck.
#[derive(Debug, Drop)]
pub struct Prices {
    duals: Vec<i64>,
    subset_rows: Vec<Cut>,
    capacity_cuts: Vec<Cut>,
    truck_price: u64,
}

impl Model for Prices {
    ghost use Rattle.vrp_partition.specs.Prices.{AreModerate, Prices};

    ghost Value = { Prices };

    ghost view = { λ a. record { duals = a.duals.items; subset_rows = a.subset_rows.items; capacity_cuts = a.capacity_cuts.items; truck_price = a.truck_price } };

    ghost invariant = { λ a. AreModerate (record { duals = a.duals.items; subset_rows = a.subset_rows.items; capacity_cuts = a.capacity_cuts.items; truck_price = a.truck_price }) };
}

/// Untrusted prices. There is a dual for each place, the first one for the depot's 0.
#[derive(Debug, Drop)]
pub struct PriceOffer {
    pub duals: Vec<i64>,
    pub subset_rows: Vec<Cut>,
    pub capacity_cuts: Vec<Cut>,
    // The price that each route pays for its truck. 0 if trucks are not limited.
    pub truck_price: u64,
    // The number of reduced costs that were looked at to find the prices.
    pub work: u64,
}

impl PriceOffer {
    /// Prices of 0, by which each reduced cost is the cost itself.
    pub fn zeros(alloc: Global) -> Result<PriceOffer, AllocError>
        ensures duals { IfOk result (λ offer. All (λ dual. dual ≡ pos 0) offer.duals.items) }
        ensures rows { IfOk result (λ offer. offer.subset_rows.items ≡ []) }
        ensures cuts { IfOk result (λ offer. offer.capacity_cuts.items ≡ []) }
        ensures trucks { IfOk result (λ offer. offer.truck_price ≡ 0) }
    {
        Ok(PriceOffer {
            duals: vec![in alloc; 0; PLACES]?,
            subset_rows: Vec::new(alloc),
            capacity_cuts: Vec::new(alloc),
            truck_price: 0,
            work: 0,
        })
    }
}

impl Prices {
    /// The offered prices, if they are admissible: a dual for each place, at most 512 cuts of each kind, prices of moderate size,
    /// subset-row cuts of at most three customers, and capacity cuts over some of these customers that ask for no more routes than their
    /// demand does. A cut over all of them may ask for `least_routes`, since the prices are for choices with at least so many routes.
    /// Otherwise `None`. The demands are those of all places.
    pub fn admit(
        offer: PriceOffer,
        demands: &[u32],
        capacity: u32,
        customers: CustomerSet,
        least_routes: u16,
    ) -> Option<Prices>
        requires { length demands.now ≡ PLACES }
        ensures valid { IfSome result (λ prices. (pool : List Route)
            → AllFit demands.now capacity pool → AreValid prices pool customers least_routes) }
        ensures same { IfSome result (λ prices. prices ≡ prices_of offer) }
        ensures none { IfNone result (IsAdmissible demands.now capacity customers least_routes (prices_of offer) → ⊥) }
    {
        let PriceOffer {
            duals,
            subset_rows,
            capacity_cuts,
            truck_price,
            work: _work,
        } = offer;
        if duals.len() == PLACES
            && subset_rows.len() <= MOST_CUTS
            && capacity_cuts.len() <= MOST_CUTS
            && truck_price <= MOST_CUT_PRICE
            && are_moderate(duals.as_slice())
            && are_subset_rows(subset_rows.as_slice())
            && are_capacity_cuts(
                capacity_cuts.as_slice(),
                demands,
                capacity,
                customers,
                least_routes,
            )
        {
            Some(Prices {
                duals,
                subset_rows,
                capacity_cuts,
                truck_price,
            })
        } else {
            None
        }
    }

    /// An offer of the same prices with `least` added to each dual. If `least` is the least reduced cost, and negative, all reduced costs
    /// rise to at least 0. No clause pins the offer.
    pub fn lowered(self, least: i64) -> PriceOffer {
        let Prices {
            mut duals,
            subset_rows,
            capacity_cuts,
            truck_price,
        } = self;
        for price in duals.iter_mut() {
            *price = price.saturating_add(least);
        }
        PriceOffer {
            duals,
            subset_rows,
            capacity_cuts,
            truck_price,
            work: 0,
        }
    }

    /// The reduced cost of a route: its cost, plus the prices of the subset-row cuts of which it has two customers and of a truck, minus
    /// its duals and the prices of the capacity cuts that it comes to.
    pub fn reduced_cost(&self, set: CustomerSet, cost: u32) -> i64
        ensures { result ≡ reduced_cost_of self.now SCALE (record { set = set; cost = cost }) }
    {
        let charged = self.charged(set) as i64;
        let rewarded = self.rewarded(set) as i64;
        let dual_sum = dual_sum_of(self.duals.as_slice(), set);
        (SCALE * u64::from(cost)) as i64 + charged + self.truck_price as i64 - dual_sum - rewarded
    }

    // The price that a route with these customers pays for subset-row cuts.
    fn charged(&self, set: CustomerSet) -> u64
        ensures value { result ≡ charges self.now.subset_rows set }
        ensures small { result ≤ 2 ^ 59 }
    {
        let mut total = 0;
        for cut in &self.subset_rows {
            if set.intersection(cut.set).has_two() {
                total += cut.price;
            }
        }
        total
    }

    // The price that a route with these customers gets for capacity cuts.
    fn rewarded(&self, set: CustomerSet) -> u64
        ensures value { result ≡ rewards self.now.capacity_cuts set }
        ensures small { result ≤ 2 ^ 59 }
    {
        let mut total = 0;
        for cut in &self.capacity_cuts {
            if !set.is_disjoint(cut.set) {
                total += cut.price;
            }
        }
        total
    }

    /// A lower bound on each choice with this many trucks, in price units, if no reduced cost is negative. It is at least -2 ^ 61.
    pub fn lower_bound(&self, customers: CustomerSet, trucks: u8) -> i128
        ensures value { result ≡ lower_bound_of self.now customers trucks }
        ensures small { pos 0 ≤ℤ (result +ℤ pos (2 ^ 61)) }
    {
        let dual_sum = dual_sum_of(self.duals.as_slice(), customers);
        let mut due: u128 = 0;
        for cut in &self.capacity_cuts {
            due += u128::from(cut.count) * u128::from(cut.price);
        }
        let mut spent: u64 = 0;
        for cut in &self.subset_rows {
            spent += cut.price;
        }
        let paid = fleet_price(trucks, self.truck_price);
        i128::from(dual_sum) + due as i128 - i128::from(spent + paid)
    }
}

// The price of this many trucks.
fn fleet_price(trucks: u8, price: u64) -> u64
    requires { price ≤ 2 ^ 50 }
    ensures value { result ≡ trucks * price }
    ensures small { result ≤ 2 ^ 58 }
{
    u64::from(trucks) * price
}

// Whether no price is too far from 0.
fn are_moderate(prices: &[i64]) -> bool
    ensures { IsTrue result ↔ All (λ price. unsigned_abs price ≤ 2 ^ 52) prices.now }
{
    prices.iter().all(|price| price.unsigned_abs() <= MOST_DUAL)
}

// Whether each cut has three customers at most, and a price that is not too high.
fn are_subset_rows(cuts: &[Cut]) -> bool
    ensures { IsTrue result ↔ All IsSubsetRow cuts.now }
{
    cuts.iter()
        .all(|cut| cut.price <= MOST_CUT_PRICE && cut.set.len() <= 3)
}

// Whether each cut has a price that is not too high, and asks for no more routes than come to its set.
fn are_capacity_cuts(
    cuts: &[Cut],
    demands: &[u32],
    capacity: u32,
    customers: CustomerSet,
    least_routes: u16,
) -> bool
    requires { length demands.now ≡ PLACES }
    ensures { IsTrue result ↔ All (IsCapacityCut demands.now capacity customers least_routes) cuts.now }
{
    for cut in cuts {
        if cut.price > MOST_CUT_PRICE {
            return false;
        }
        if !is_granted(cut, customers, least_routes)
            && !is_needed(cut, demands, capacity, customers)
        {
            return false;
        }
    }
    true
}

// Whether a cut is over all customers, and asks for no more routes than the choices in question have.
fn is_granted(cut: &Cut, customers: CustomerSet, least_routes: u16) -> bool
    ensures { IsTrue result ↔ IsGranted customers least_routes cut.now }
{
    cut.set == customers && cut.count <= u32::from(least_routes)
}

// Whether a cut is within the customers, and asks for no more routes than its demand does.
fn is_needed(cut: &Cut, demands: &[u32], capacity: u32, customers: CustomerSet) -> bool
    requires { length demands.now ≡ PLACES }
    ensures { IsTrue result ↔ IsNeeded demands.now capacity customers cut.now }
{
    if !cut.set.is_subset(customers) {
        return false;
    }
    let load = demand_of(demands, cut.set);
    u64::from(cut.count) * u64::from(capacity) < load + u64::from(capacity)
}

// The demand of a set of customers.
pub fn demand_of(demands: &[u32], set: CustomerSet) -> u64
    requires { length demands.now ≡ PLACES }
    ensures value { result ≡ load_of demands.now set }
    ensures small { result ≤ 2 ^ 40 }
{
    let mut left = set;
    let mut total: u64 = 0;
    while let Some(customer) = left.take_first() {
        total += u64::from(demands[usize::from(customer)]);
    }
    total
}

// The sum of the duals of a set of customers.
fn dual_sum_of(prices: &[i64], set: CustomerSet) -> i64
    requires len { length prices.now ≡ PLACES }
    requires moderate { All (λ price. unsigned_abs price ≤ 2 ^ 52) prices.now }
    ensures value { result ≡ dual_sum prices.now set }
    ensures small { unsigned_abs result ≤ 2 ^ 60 }
{
    let mut left = set;
    let mut total = 0;
    while let Some(customer) = left.take_first() {
        total += prices[usize::from(customer)];
    }
    total
}
