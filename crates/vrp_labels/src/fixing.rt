//! The arcs that cheap routes use.
ghost use Rattle.std.specs.Prelude.{◌≡◌, ◌⊎◌, ◌≤◌, ◌<◌, ◌^◌, ℕ, IfOk, unsigned_abs};
ghost use Rattle.std.specs.Int.{bit_at};
ghost use Rattle.vrp_labels.specs.Closing.{AreKept};
ghost use Rattle.vrp_labels.specs.Completion.{Links};
ghost use Rattle.vrp_labels.specs.Fixing.{AreAlive, AreMarked, IsEven, KeepsCheap, Marks, read_from};
ghost use Rattle.vrp_labels.specs.Graph.{Follows};
ghost use Rattle.vrp_labels.specs.Label.{IsLabelOf};
ghost use Rattle.vrp_labels.specs.Reversal.{IsClosedReversed};

use crate::completions::Completions;
use crate::graph::RouteGraph;
use crate::label::Label;
use crate::piles::LabelPiles;
use std::alloc::{AllocError, Global};
use vrp_model::CustomerSet;

/// What labels are of.
#[derive(Clone, Copy, Debug)]
pub enum Side {
    /// Endings: they cost from their place home.
    Endings,
    /// Beginnings: they cost from the depot to their place.
    Beginnings,
}

// A label of one side as that of a beginning.
#[inline(always)]
fn read_from(side: Side, graph: &RouteGraph, label: &Label) -> Label
    requires { IsLabelOf graph.now label.now }
    ensures value { result ≡ read_from side graph.now label.now }
    ensures small { unsigned_abs result.cost ≤ 2 ^ 62 }
    ensures at { result.at ≡ label.now.at }
    ensures light { result.load ≤ graph.now.capacity }
{
    match side {
        Side::Endings => graph.as_forward(label),
        Side::Beginnings => {
            let _capacity = graph.capacity();
            *label
        }
    }
}

impl<'a> Completions<'a> {
    /// For each place, the places that follow it in cheap routes, and maybe more to which the arc is alive, where routes cost the same from
    /// either end. The only error is lack of memory.
    pub fn useful_arcs(&self, alloc: Global) -> Result<Vec<CustomerSet>, AllocError>
        requires { IsEven self.now.graph }
        ensures keeps { IfOk result (λ followers. KeepsCheap self.now.graph self.now.gap followers.items) }
        ensures alive { IfOk result (λ followers. AreAlive self.now.graph followers.items) }
    {
        let _places = self.graph.places();
        self.linked_arcs(alloc, Side::Endings, &self.kept)
    }

    /// The same in any graph, by the labels that were closed in the reversed graph for the same gap.
    pub fn useful_arcs_between(
        &self,
        alloc: Global,
        beginnings: &LabelPiles,
    ) -> Result<Vec<CustomerSet>, AllocError>
        requires { IsClosedReversed self.now.graph self.now.gap beginnings.now }
        ensures keeps { IfOk result (λ followers. KeepsCheap self.now.graph self.now.gap followers.items) }
        ensures alive { IfOk result (λ followers. AreAlive self.now.graph followers.items) }
    {
        let _places = self.graph.places();
        self.linked_arcs(alloc, Side::Beginnings, beginnings)
    }

    // For each place, the places to which its labels link.
    fn linked_arcs(
        &self,
        alloc: Global,
        side: Side,
        piles: &LabelPiles,
    ) -> Result<Vec<CustomerSet>, AllocError>
        requires { AreKept self.now.graph piles.now }
        ensures { IfOk result (λ followers. AreMarked self.now side piles.now followers.items) }
    {
        let places = self.graph.places();
        let mut followers = Vec::with_capacity(alloc, places as usize)?;
        for i in 0..places {
            followers.push(self.linked_from(side, piles, i))?;
        }
        Ok(followers)
    }

    // The places to which the labels of one place link.
    fn linked_from(&self, side: Side, piles: &LabelPiles, i: u16) -> CustomerSet
        requires place { i < self.now.graph.folded.places }
        requires are_kept { AreKept self.now.graph piles.now }
        ensures { Marks self.now side piles.now i result }
    {
        if i == 0 {
            return self.with_links(&Label::root(), CustomerSet::empty());
        }
        let mut set = CustomerSet::empty();
        for label in piles.get(i as usize) {
            let forward = read_from(side, self.graph, label);
            set = self.with_links(&forward, set);
        }
        set
    }

    // These places, and those that may follow a beginning in cheap routes.
    fn with_links(&self, forward: &Label, known: CustomerSet) -> CustomerSet
        requires place { forward.now.at < self.now.graph.folded.places }
        requires light { forward.now.load ≤ self.now.graph.capacity }
        requires small { unsigned_abs forward.now.cost ≤ 2 ^ 62 }
        ensures still { (j : ℕ) → bit_at known j ≡ 1 → bit_at result j ≡ 1 }
        ensures linked { (j : ℕ) → j < self.now.graph.folded.places → Links self.now forward.now j → bit_at result j ≡ 1 }
        ensures alive { (j : ℕ) → bit_at result j ≡ 1 → (bit_at known j ≡ 1) ⊎ Follows self.now.graph forward.now.at j }
    {
        let mut set = known;
        for place in 0..self.graph.places() {
            if !set.contains(place) && self.links(forward, place) {
                set = set.with(place);
            }
        }
        set
    }
}
