//! What labels see of a problem with dual prices.
ghost use Rattle.std.specs.Prelude.{◌≡◌, ◌≤◌, ◌<◌, ◌+◌, ◌*◌, ◌^◌, ◌↔◌, ℕ, IfNone, IfOk, IfSome, IsTrue, length, slice_index, unsigned_abs};
ghost use Rattle.std.specs.Int.{bit_at};
ghost use Rattle.vrp_duals.specs.Folding.{arc_of, weigh};
ghost use Rattle.vrp_duals.specs.declared.limits.TheConstants.{MAX_ARC_PRICE, MAX_ROW_CHARGE};
ghost use Rattle.vrp_labels.specs.Fixing.{IsEven, IsPairEven, as_forward, with_followers};
ghost use Rattle.vrp_labels.specs.Graph.{Follows, IsGraph, demand_at, graph_of, near_at};
ghost use Rattle.vrp_labels.specs.Label.{IsLabelOf};
ghost use Rattle.vrp_labels.specs.Reversal.{IsReversed};
ghost use Rattle.vrp_labels.specs.Widening.{AreWider, with_memories};

use crate::label::Label;
use crate::widening::are_wider;
use std::alloc::{AllocError, Global};
use std::marker::Model;
use vrp_duals::{FoldedDuals, RowSet};
use vrp_model::CustomerSet;

/// The greatest capacity, in units of demand.
pub const MAX_UNITS: u32 = 4_096;

/// The graph that labels go through: folded dual prices, demands and a capacity in units, ng-sets, and the arcs that are alive. The depot is
/// place 0.
#[derive(Debug, Drop)]
pub struct RouteGraph {
    folded: FoldedDuals,
    capacity: u32,
    // By place.
    demands: Vec<u32>,
    // By place.
    near: Vec<CustomerSet>,
    // By place.
    followers: Vec<CustomerSet>,
}

impl Model for RouteGraph {
    ghost use Rattle.vrp_labels.specs.Graph.{GraphOf, IsGraph, graph_of};

    ghost Value = { GraphOf };

    ghost view = { λ a. graph_of a.folded a.demands.items a.capacity a.near.items a.followers.items };

    ghost invariant = { λ a. IsGraph (graph_of a.folded a.demands.items a.capacity a.near.items a.followers.items) };
}

/// The parts of a graph. Each list has an entry for each place, the depot's first.
#[derive(Debug, Drop)]
pub struct GraphParts {
    /// The dual prices.
    pub folded: FoldedDuals,
    /// What a truck carries, in units: at most `MAX_UNITS`.
    pub capacity: u32,
    /// What each place demands, in units: each customer 1 at least.
    pub demands: Vec<u32>,
    /// The ng-set of each place: the customers that a label there can remember.
    pub near: Vec<CustomerSet>,
    /// For each place those to which the arc is alive.
    pub followers: Vec<CustomerSet>,
}

// Whether each customer demands something.
fn are_positive(demands: &[u32]) -> bool
    ensures { IsTrue result ↔ ((place : ℕ) → 1 ≤ place → place < length demands.now → 1 ≤ slice_index demands.now place) }
{
    for place in 1..demands.len() {
        if demands[place] == 0 {
            return false;
        }
    }
    true
}

impl RouteGraph {
    /// The graph of these parts. `None` if there are too many places, a list hasn't one entry for each place, a customer demands nothing, or
    /// the capacity is too large.
    pub fn new(parts: GraphParts) -> Option<RouteGraph>
        ensures value { IfSome result (λ graph.
            graph ≡ graph_of parts.folded parts.demands.items parts.capacity parts.near.items parts.followers.items) }
        ensures refused { IfNone result
            (IsGraph (graph_of parts.folded parts.demands.items parts.capacity parts.near.items parts.followers.items) → ⊥) }
    {
        let GraphParts {
            folded,
            capacity,
            demands,
            near,
            followers,
        } = parts;
        let count = usize::from(folded.places());
        if capacity <= MAX_UNITS
            && demands.len() == count
            && near.len() == count
            && followers.len() == count
            && are_positive(&demands)
        {
            Some(RouteGraph {
                folded,
                capacity,
                demands,
                near,
                followers,
            })
        } else {
            None
        }
    }

    /// The parts of the graph, so that the next one can use them.
    pub fn into_parts(self) -> GraphParts
        ensures { self ≡ graph_of result.folded result.demands.items result.capacity result.near.items result.followers.items }
    {
        let RouteGraph {
            folded,
            capacity,
            demands,
            near,
            followers,
        } = self;
        GraphParts {
            folded,
            capacity,
            demands,
            near,
            followers,
        }
    }

    /// The graph where rows are remembered at more places. `None` if there isn't one memory for each place, if a row isn't remembered at one
    /// of its customers, or if a new memory lacks what the old one has.
    pub fn widen(self, memories: Vec<RowSet>) -> Option<RouteGraph>
        ensures value { IfSome result (λ wide. wide ≡ with_memories self memories.items) }
        ensures wider { IfSome result (λ _. AreWider self.folded memories.items) }
        ensures refused { IfNone result (length memories.items ≡ self.folded.places → AreWider self.folded memories.items → ⊥) }
    {
        let RouteGraph {
            folded,
            capacity,
            demands,
            near,
            followers,
        } = self;
        if memories.len() == usize::from(folded.places()) && are_wider(&folded, &memories) {
            Some(RouteGraph {
                folded: folded.remembering(memories),
                capacity,
                demands,
                near,
                followers,
            })
        } else {
            None
        }
    }

    /// The graph where these arcs are alive, and no others: for each place, those that follow it.
    pub fn keep_arcs(self, followers: Vec<CustomerSet>) -> RouteGraph
        requires { length followers.items ≡ self.folded.places }
        ensures { result ≡ with_followers self followers.items }
    {
        RouteGraph { followers, ..self }
    }

    /// The graph with each arc turned round: it costs what the arc the other way costs, and is alive if that is. The labels of endings there
    /// are labels of beginnings here. The only error is lack of memory.
    pub fn reversed(&self, alloc: Global) -> Result<RouteGraph, AllocError>
        ensures { IfOk result (IsReversed self.now) }
    {
        Ok(RouteGraph {
            folded: self.folded.reversed(alloc)?,
            capacity: self.capacity,
            demands: Vec::from_slice(alloc, &self.demands)?,
            near: Vec::from_slice(alloc, &self.near)?,
            followers: self.leaders(alloc)?,
        })
    }

    /// The number of places, the depot among them.
    #[inline(always)]
    pub fn places(&self) -> u16
        ensures value { result ≡ self.now.folded.places }
        // What is known of every graph.
        ensures known { IsGraph self.now }
    {
        let _capacity = self.capacity;
        self.folded.places()
    }

    /// What a truck carries, in units.
    #[inline(always)]
    pub fn capacity(&self) -> u32
        ensures value { result ≡ self.now.capacity }
        ensures known { IsGraph self.now }
    {
        self.capacity
    }

    /// What a place demands, in units.
    #[inline(always)]
    pub fn demand(&self, place: u16) -> u32
        requires { place < self.now.folded.places }
        ensures value { result ≡ demand_at self.now place }
        ensures some { 1 ≤ place → 1 ≤ result }
    {
        self.demands[usize::from(place)]
    }

    /// The ng-set of a place.
    #[inline(always)]
    pub fn near(&self, place: u16) -> CustomerSet
        requires { place < self.now.folded.places }
        ensures { result ≡ near_at self.now place }
    {
        self.near[usize::from(place)]
    }

    /// The dual prices.
    #[inline(always)]
    pub fn folded_duals(&self) -> &FoldedDuals
        ensures { result.now ≡ self.now.folded }
    {
        &self.folded
    }

    /// The price of an arc, in price units.
    #[inline(always)]
    pub fn arc(&self, from: u16, to: u16) -> i64
        requires from { from < self.now.folded.places }
        requires to { to < self.now.folded.places }
        ensures value { result ≡ arc_of self.now.folded from to }
        ensures small { unsigned_abs result ≤ MAX_ARC_PRICE }
        ensures known { IsGraph self.now }
    {
        let _capacity = self.capacity;
        self.folded.arc_price(from, to)
    }

    /// The sum of the prices of a set of rows, in price units.
    #[inline(always)]
    pub fn weigh(&self, rows: RowSet) -> u64
        ensures value { result ≡ weigh self.now.folded.row_prices rows }
        ensures small { result ≤ MAX_ROW_CHARGE }
        ensures known { IsGraph self.now }
    {
        let _capacity = self.capacity;
        self.folded.weigh(rows)
    }

    /// Whether the prices of a set of rows sum to no more than a limit, in price units.
    #[inline(always)]
    pub fn weighs_at_most(&self, rows: RowSet, limit: u64) -> bool
        ensures { IsTrue result ↔ (weigh self.now.folded.row_prices rows ≤ limit) }
    {
        self.folded.weighs_at_most(rows, limit)
    }

    /// Whether the arc from one place to another is alive.
    #[inline(always)]
    pub fn follows(&self, from: u16, to: u16) -> bool
        requires from { from < self.now.folded.places }
        requires to { to < self.now.folded.places }
        ensures { IsTrue result ↔ Follows self.now from to }
    {
        self.followers[usize::from(from)].contains(to)
    }

    /// A label of an ending as that of a beginning with the same customers, read from the other end.
    #[inline(always)]
    pub fn as_forward(&self, label: &Label) -> Label
        requires { IsLabelOf self.now label.now }
        ensures value { result ≡ as_forward self.now label.now }
        ensures small { unsigned_abs result.cost ≤ 2 ^ 62 }
        ensures at { result.at < self.now.folded.places }
        ensures light { result.load ≤ self.now.capacity }
    {
        let first = self.arc(0, label.at);
        let last = self.arc(label.at, 0);
        Label {
            visited: label.visited,
            rows: label.rows,
            cost: label.cost + first - last,
            load: label.load,
            at: label.at,
        }
    }

    /// Whether each triangle with the depot costs the same either way round, and each arc is alive both ways, if one.
    pub fn is_even(&self) -> bool
        ensures { IsTrue result ↔ IsEven self.now }
    {
        for i in 0..self.places() {
            for j in 0..self.places() {
                if !self.is_pair_even(i, j) {
                    return false;
                }
            }
        }
        true
    }

    // Whether this triangle does, and this arc is.
    fn is_pair_even(&self, i: u16, j: u16) -> bool
        requires i { i < self.now.folded.places }
        requires j { j < self.now.folded.places }
        ensures { IsTrue result ↔ IsPairEven self.now i j }
    {
        let one = self.arc(i, j) + self.arc(j, 0) + self.arc(0, i);
        let other = self.arc(j, i) + self.arc(0, j) + self.arc(i, 0);
        if one != other {
            return false;
        }
        !self.follows(i, j) || self.follows(j, i)
    }
}
