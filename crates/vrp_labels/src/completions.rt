//! What completes a beginning of a route.
ghost use Rattle.std.specs.Prelude.{◌≡◌, ◌⊎◌, ◌≤◌, ◌<◌, ◌≤ℤ◌, ◌^◌, pos, ℕ, List, ◌∷◌, IfOk, IsTrue, unsigned_abs};
ghost use Rattle.vrp_duals.specs.Folding.{folded_cost};
ghost use Rattle.vrp_labels.specs.Closing.{AreKept};
ghost use Rattle.vrp_labels.specs.Completion.{BoundsCompletions, IsForward, IsLinkCost, Links};
ghost use Rattle.vrp_labels.specs.Label.{IsClosed, IsLabelOf, root_label};
ghost use Rattle.vrp_labels.specs.Route.{IsAliveRoute, IsCheap, joined};
ghost use Rattle.vrp_labels.specs.Widening.{IsClosedBelow};

use crate::bands::{Band, band_shift, bands_by_place};
use crate::graph::RouteGraph;
use crate::label::Label;
use crate::lookup::{least_in_bands, meets_in_bands};
use crate::piles::LabelPiles;
use std::alloc::{AllocError, Global};
use std::marker::Model;

// No completion adds more.
const FAR: i64 = 1 << 62;

/// The closed labels of a graph, in bands of load and cheapest first: what completes a beginning of a route.
#[derive(Debug, Drop)]
pub struct Completions<'a> {
    pub(crate) graph: &'a RouteGraph,
    pub(crate) gap: i64,
    pub(crate) kept: LabelPiles,
    shift: u32,
    // By place.
    bands: Vec<Vec<Band>>,
}

impl<'a> Model for Completions<'a> {
    ghost use Rattle.vrp_labels.specs.Bands.{AreLookedUp};
    ghost use Rattle.vrp_labels.specs.Completion.{CompletionsOf};

    ghost Value = { CompletionsOf };

    ghost view = { λ a. record { graph = a.graph.now; gap = a.gap; kept = a.kept } };

    ghost invariant = { λ a. AreLookedUp (record { graph = a.graph.now; gap = a.gap; kept = a.kept }) a.shift a.bands.items };
}

impl<'a> Completions<'a> {
    /// The completions by the closed labels of a graph. The only error is lack of memory.
    pub fn new(
        alloc: Global,
        graph: &'a RouteGraph,
        gap: i64,
        mut kept: LabelPiles,
    ) -> Result<Completions<'a>, AllocError>
        requires are_kept { AreKept graph.now kept }
        requires closed { IsClosed graph.now gap kept }
        ensures graph { IfOk result (λ completions. completions.graph ≡ graph.now) }
        ensures gap { IfOk result (λ completions. completions.gap ≡ gap) }
    {
        let shift = band_shift(graph.capacity());
        for at in 0..graph.places() {
            kept.sort_by_band(at as usize, shift);
        }
        let bands = bands_by_place(alloc, &kept, shift)?;
        Ok(Completions {
            graph,
            gap,
            kept,
            shift,
            bands,
        })
    }

    /// The completions by labels that were closed where rows are remembered at fewer places, or the same, and where more arcs are alive, or
    /// the same. So if all rows are remembered everywhere in this graph, whoever asks may count the customers of each row in full. The only
    /// error is lack of memory.
    pub fn widened(
        alloc: Global,
        graph: &'a RouteGraph,
        gap: i64,
        kept: LabelPiles,
    ) -> Result<Completions<'a>, AllocError>
        requires { IsClosedBelow graph.now gap kept }
        ensures graph { IfOk result (λ completions. completions.graph ≡ graph.now) }
        ensures gap { IfOk result (λ completions. completions.gap ≡ gap) }
    {
        Completions::new(alloc, graph, gap, kept)
    }

    /// The labels, for completions in another graph.
    pub fn into_labels(self) -> LabelPiles
        ensures are_kept { AreKept self.entry.graph result }
        ensures closed { IsClosed self.entry.graph self.entry.gap result }
    {
        self.kept
    }

    /// A number that no completion of the beginning to a cheap route adds less than, in price units: what the arc to the depot or some label
    /// adds, or 2 ^ 62 if there is neither.
    pub fn least(&self, forward: &Label) -> i64
        requires { IsLabelOf self.now.graph forward.now }
        ensures bound { BoundsCompletions self.now.graph self.now.gap forward.now result }
        ensures attained { (result ≡ pos (2 ^ 62)) ⊎ IsLinkCost self.now forward.now result }
    {
        let mut best = FAR;
        if self.graph.follows(forward.at, 0) {
            best = self.graph.arc(forward.at, 0);
        }
        for place in 1..self.graph.places() {
            if self.graph.follows(forward.at, place) {
                best = least_in_bands(
                    self.graph,
                    self.kept.get(place as usize),
                    self.bands[place as usize].as_slice(),
                    self.shift,
                    place,
                    forward,
                    best,
                );
            }
        }
        best
    }

    /// Whether a customer may come next on a cheap route that begins so: true for each such route, and only where some label of the customer
    /// links to the beginning.
    #[inline(always)]
    pub fn may_continue(&self, forward: &Label, customer: u16) -> bool
        requires place { customer < self.now.graph.folded.places }
        requires label { IsLabelOf self.now.graph forward.now }
        ensures continues { (beginning ending : List ℕ) → IsForward self.now.graph beginning forward.now
            → IsCheap self.now.graph self.now.gap (joined beginning (customer ∷ ending)) → IsTrue result }
        ensures found { IsTrue result → Links self.now forward.now customer }
    {
        // What is known of every graph comes with its places.
        let _places = self.graph.places();
        self.links(forward, customer)
    }

    // Whether a place may follow a beginning in a cheap route.
    #[inline(always)]
    pub(crate) fn links(&self, forward: &Label, place: u16) -> bool
        requires place { place < self.now.graph.folded.places }
        requires at { forward.now.at < self.now.graph.folded.places }
        requires light { forward.now.load ≤ self.now.graph.capacity }
        requires small { unsigned_abs forward.now.cost ≤ 2 ^ 62 }
        ensures none { Links self.now forward.now place → IsTrue result }
        ensures found { IsTrue result → Links self.now forward.now place }
    {
        if !self.graph.follows(forward.at, place) {
            return false;
        }
        if place == 0 {
            return forward.cost + self.graph.arc(forward.at, 0) <= self.gap;
        }
        meets_in_bands(
            self.graph,
            self.kept.get(place as usize),
            self.bands[place as usize].as_slice(),
            self.shift,
            place,
            forward,
            &self.gap,
        )
    }

    /// A number, 0 at most, that no route along alive arcs within the capacity costs less than, in price units: 0, the gap, or what some
    /// label costs with the arc from the depot.
    pub fn least_route(&self) -> i64
        ensures least { (route : List ℕ) → IsAliveRoute self.now.graph route
            → result ≤ℤ folded_cost self.now.graph.folded route }
        ensures most { result ≤ℤ pos 0 }
        ensures attained { (result ≡ pos 0) ⊎ ((result ≡ self.now.gap) ⊎ IsLinkCost self.now root_label result) }
    {
        self.least(&self.graph.root()).min(self.gap).min(0)
    }
}
