//! An instance of the problem: the depot is place 0, and the customers are places 1 to m by rising node number.
ghost use Rattle.std.specs.Prelude.{◌≡◌, ◌↔◌, ℕ, ◌+◌, ◌*◌, ◌-◌, ◌≤◌, ◌<◌, IsTrue, Option, Some, EachIndex, IfOk, IfErr, OnOk, not, length, slice_index, vec_len};
ghost use Rattle.std.specs.Option.{ForSome};
ghost use Rattle.vrp_model.specs.LeastArc.{IsLeastHome, IsLeastIn};
ghost use Rattle.vrp_model.specs.Problem.{place_count, customers, node_of, demand_of, weight_of, with_amounts, IsProblem, IsSymmetric};
ghost use Rattle.vrp_model.specs.Route.{load_of};
ghost use Rattle.vrp_model.specs.Request.{IsAcceptable, problem_of};

use crate::depots::Depots;
use crate::least::least_arcs;
use crate::limits::{MAX_CAPACITY, MAX_NODES, MAX_WEIGHT, MAX_WHOLE_DEMAND};
use crate::memory::NoMemory;
use crate::places::{demands_of, places, weights_between};
use crate::symmetry::is_symmetric;
use crate::weights::Weights;
use std::alloc::{AllocError, Global};
use std::marker::Model;
use thiserror::Error;

/// Why no instance was made: the first fault in this order, with the lowest node that has it.
#[derive(Clone, Copy, Debug, PartialEq, Eq, Error)]
pub enum InstanceError {
    /// A listed depot has a demand.
    #[error("node {0}: a depot has a demand")]
    DepotDemand(u16),
    /// The chosen node is not listed as a depot.
    #[error("node {0}: not a depot")]
    NotADepot(u16),
    /// A customer's demand is above the capacity.
    #[error("node {0}: demand above capacity")]
    DemandOverCapacity(u16),
    /// An allocation was refused. The faults are checked before any allocation, so the request has none.
    #[error("out of memory")]
    OutOfMemory,
}

/// An instance of the problem.
#[derive(Debug, Drop)]
pub struct Instance {
    nodes: Vec<u16>,
    demands: Vec<u64>,
    weights: Vec<u32>,
    capacity: u64,
    trucks: Option<u16>,
    // The least arc into each place; for the depot 0 if there is no customer.
    least_in: Vec<u32>,
    symmetric: bool,
}

impl Model for Instance {
    ghost use Rattle.vrp_model.specs.Problem.{Problem};
    ghost use Rattle.vrp_model.specs.Inner.Kept.{IsKeptProblem, problem_with};

    ghost Value = { Problem };

    ghost view = { λ a.
        problem_with a.nodes.items a.demands.items a.weights.items a.capacity a.trucks };

    ghost invariant = { λ a.
        let p = problem_with a.nodes.items a.demands.items a.weights.items a.capacity a.trucks in
        IsKeptProblem p a.least_in.items a.symmetric };
}

impl Instance {
    ghost use Rattle.vrp_model.specs.Request.{NoneAbove, request_at, request_of};
    ghost use Rattle.vrp_model.specs.Refusal.{IsRefusal};

    /// The instance of a file's weights, its demands by node number, the capacity of a truck, and its listed depots. The
    /// depot is the chosen node, or else the first listed one. Faults are checked in the order of `InstanceError`, before any
    /// allocation.
    pub fn new(
        alloc: Global,
        weights: Weights,
        demands: &[u64],
        capacity: u64,
        depots: &[u16],
        chosen: Option<u16>,
    ) -> Result<Instance, InstanceError>
        requires one_demand_each { length demands.now ≡ weights.nodes }
        requires some_depot { 0 < length depots.now }
        requires depots_from_one { EachIndex depots.now (λ k. 1 ≤ slice_index depots.now k) }
        requires depots_within { NoneAbove weights.nodes depots.now }
        requires small_capacity { capacity ≤ MAX_CAPACITY }
        ensures acceptable { OnOk result (IsAcceptable
            (request_of weights demands.now capacity depots.now chosen)) }
        ensures value { IfOk result (λ instance. instance ≡ problem_of
            (request_of weights demands.now capacity depots.now chosen)) }
        ensures refused { IfErr result (IsRefusal
            (request_of weights demands.now capacity depots.now chosen)) }
    {
        let depot = chosen.unwrap_or(depots[0]);
        let listed = Depots::new(depots);
        if let Some(node) = listed.lowest_with_demand(demands) {
            return Err(InstanceError::DepotDemand(node));
        }
        // The chosen node may be beyond all marks, so the list itself is searched.
        if !depots.contains(&depot) {
            return Err(InstanceError::NotADepot(depot));
        }
        if let Some(node) = listed.lowest_too_heavy(demands, capacity) {
            return Err(InstanceError::DemandOverCapacity(node));
        }
        match Instance::at_depot(alloc, &weights, demands, capacity, &listed, depot) {
            Ok(instance) => Ok(instance),
            Err(_) => Err(InstanceError::OutOfMemory),
        }
    }

    // The instance of a request without faults.
    fn at_depot(
        alloc: Global,
        weights: &Weights,
        demands: &[u64],
        capacity: u64,
        depots: &Depots<'_>,
        depot: u16,
    ) -> Result<Instance, AllocError>
        requires one_demand_each { length demands.now ≡ weights.now.nodes }
        requires from_one { 1 ≤ depot }
        requires within { depot ≤ weights.now.nodes }
        requires small_capacity { capacity ≤ MAX_CAPACITY }
        requires acceptable { IsAcceptable
            (request_at weights.now demands.now capacity depots.now depot) }
        ensures { IfOk result (λ instance. instance ≡ problem_of
            (request_at weights.now demands.now capacity depots.now depot)) }
    {
        let nodes = places(alloc, weights.nodes(), depots, depot)?;
        let weights = weights_between(alloc, weights, &nodes)?;
        let demands = demands_of(alloc, &nodes, demands)?;
        let least_in = least_arcs(alloc, &weights, nodes.len())?;
        let symmetric = is_symmetric(&weights, nodes.len());
        Ok(Instance {
            nodes,
            demands,
            weights,
            capacity,
            trucks: None,
            least_in,
            symmetric,
        })
    }

    /// The instance with this many trucks: no feasible plan of it has more routes.
    pub fn with_trucks(self, trucks: u16) -> Instance
        requires some { 1 ≤ trucks }
        requires few { trucks ≤ MAX_NODES }
        ensures { result ≡ record self { trucks = Some trucks } }
    {
        Instance {
            trucks: Some(trucks),
            ..self
        }
    }

    /// The instance with other weights, demands and capacity, and the same places and trucks. Weights are row by row, from
    /// each place to each place; demands are place by place.
    pub fn with_amounts(
        &self,
        alloc: Global,
        weights: Vec<u32>,
        demands: Vec<u64>,
        capacity: u64,
    ) -> Result<Instance, NoMemory>
        requires square { vec_len weights ≡ place_count self.now * place_count self.now }
        requires small_weights { (k : ℕ) → slice_index weights.items k ≤ MAX_WEIGHT }
        requires one_demand_each { vec_len demands ≡ place_count self.now }
        requires empty_depot { slice_index demands.items 0 ≡ 0 }
        requires fitting_demands { (place : ℕ) → slice_index demands.items place ≤ capacity }
        requires small_capacity { capacity ≤ MAX_CAPACITY }
        ensures { IfOk result (λ made.
            made ≡ with_amounts self.now weights.items demands.items capacity) }
    {
        let nodes = Vec::from_slice(alloc, &self.nodes)?;
        let least_in = least_arcs(alloc, &weights, nodes.len())?;
        let symmetric = is_symmetric(&weights, nodes.len());
        Ok(Instance {
            nodes,
            demands,
            weights,
            capacity,
            trucks: self.trucks,
            least_in,
            symmetric,
        })
    }

    /// The number of trucks, from 1 to 1,200; `None` if there is no limit.
    pub fn trucks(&self) -> Option<u16>
        ensures value { result ≡ self.now.trucks }
        ensures some { ForSome result (λ trucks. 1 ≤ trucks) }
        ensures few { ForSome result (λ trucks. trucks ≤ MAX_NODES) }
        // An invariant of every instance.
        ensures problem { IsProblem self.now }
    {
        self.trucks
    }

    /// The number of customers: from 0 to 1,199.
    pub fn customers(&self) -> u16
        ensures value { result + 1 ≡ place_count self.now }
        ensures few { result < MAX_NODES }
        // An invariant of every instance.
        ensures problem { IsProblem self.now }
    {
        (self.nodes.len() - 1) as u16
    }

    /// The file's node number of a place.
    pub fn node(&self, place: u16) -> u16
        requires { place < place_count self.now }
        ensures { result ≡ node_of self.now place }
    {
        self.nodes[usize::from(place)]
    }

    /// The demand of a place; the depot's is 0.
    pub fn demand(&self, place: u16) -> u64
        requires { place < place_count self.now }
        ensures value { result ≡ demand_of self.now place }
        ensures fits { result ≤ self.now.capacity }
    {
        self.demands[usize::from(place)]
    }

    /// The total demand of all customers.
    pub fn whole_demand(&self) -> u64
        ensures value { result ≡ load_of self.now (customers self.now) }
        ensures small { result ≤ MAX_WHOLE_DEMAND }
    {
        let mut demand = 0;
        for index in 0..self.customers() {
            demand += self.demand(index + 1);
        }
        demand
    }

    /// The capacity of a truck.
    pub fn capacity(&self) -> u64
        ensures value { result ≡ self.now.capacity }
        ensures small { result ≤ MAX_CAPACITY }
    {
        self.capacity
    }

    /// The weight of the arc from one place to another.
    pub fn weight(&self, from: u16, to: u16) -> u64
        requires from_within { from < place_count self.now }
        requires to_within { to < place_count self.now }
        ensures value { result ≡ weight_of self.now from to }
        ensures small { result ≤ MAX_WEIGHT }
    {
        let row = usize::from(from) * self.nodes.len();
        u64::from(self.weights[row + usize::from(to)])
    }

    /// Whether an arc and its reverse always cost the same.
    pub fn symmetric(&self) -> bool
        ensures { IsTrue result ↔ IsSymmetric self.now }
    {
        self.symmetric
    }

    /// The least weight of an arc into a customer from any other place.
    pub fn least_in(&self, customer: u16) -> u64
        requires some { 0 < customer }
        requires within { customer < place_count self.now }
        ensures least { IsLeastIn self.now customer result }
        ensures small { result ≤ MAX_WEIGHT }
    {
        u64::from(self.least_in[usize::from(customer)])
    }

    /// The least weight of an arc home from a customer; 0 if there is no customer.
    pub fn least_home(&self) -> u64
        ensures least { IsLeastHome self.now result }
        ensures small { result ≤ MAX_WEIGHT }
        // An invariant of every instance.
        ensures problem { IsProblem self.now }
    {
        u64::from(self.least_in[0])
    }
}
