//! Labels closed under dual prices, with a gap that is wide enough.
ghost use Rattle.std.specs.Prelude.{◌≡◌, ◌≤ℤ◌, ◌+ℤ◌, ◌+◌, ◌-◌, ◌*◌, pos, IfOk, length};
ghost use Rattle.vrp_duals.specs.Duals.{low_of};
ghost use Rattle.vrp_labels.specs.Fixing.{AreAlive, KeepsCheap};
ghost use Rattle.vrp_labels.specs.Plans.{IsGapFor};
ghost use Rattle.vrp_model.specs.Problem.{customers};
ghost use Rattle.vrp_priced_routes.specs.Closed.{IfRoundClosed};
ghost use Rattle.vrp_priced_routes.specs.Priced.{HasDepth};

use crate::priced_graph::PricedGraph;
use vrp_labels::{Closing, ClosingLimit, Completions, RouteGraph, close};
use vrp_model::{Crew, CustomerSet, NoMemory, Watch};

/// What comes of closing labels.
#[derive(Drop)]
pub enum Round<'g> {
    Closed(ClosedLabels<'g>),
    /// There was an end before.
    Met(ClosingLimit),
    /// The gap would have to be more than 2 ^ 61.
    TooWide,
}

/// The completions by closed labels, the gap that they are closed with, and how far below 0 a route may cost, all in price units.
#[derive(Drop)]
pub struct ClosedLabels<'g> {
    pub completions: Completions<'g>,
    pub gap: i64,
    pub depth: u64,
}

impl<'a, 'd> PricedGraph<'a, 'd> {
    /// The labels closed with the gap for this depth.
    fn close_at<R, W: Watch>(
        &self,
        crew: &Crew<'_, R, W>,
        depth: u64,
        most_labels: usize,
    ) -> Result<Round<'_>, NoMemory>
        ensures graph { IfOk result (λ round. IfRoundClosed round (λ closed. closed.completions.graph ≡ self.now.graph)) }
        ensures gap { IfOk result (λ round. IfRoundClosed round (λ closed. closed.completions.gap ≡ closed.gap)) }
        ensures depth { IfOk result (λ round. IfRoundClosed round (λ closed. HasDepth self.now.graph closed.depth)) }
        ensures covers { IfOk result (λ round. IfRoundClosed round (λ closed.
            pos (self.now.duals.scale * self.now.range.limit + (length (customers self.now.problem) - 1) * depth)
            ≤ℤ (low_of self.now.duals +ℤ closed.gap))) }
    {
        let Some(gap) = self.price_bound().gap(self.range.limit, depth) else {
            return Ok(Round::TooWide);
        };
        let kept = match close(crew, &self.graph, gap, most_labels)? {
            Closing::Closed(kept) => kept,
            Closing::Met(limit) => return Ok(Round::Met(limit)),
        };
        let completions = Completions::new(crew.alloc, &self.graph, gap, kept)?;
        let depth = completions.least_route().unsigned_abs();
        Ok(Round::Closed(ClosedLabels {
            completions,
            gap,
            depth,
        }))
    }

    /// The labels closed with a gap that is wide enough. First it is guessed how far below 0 a route may cost; where the labels say that
    /// it may be further, they are closed once more.
    pub fn close<R, W: Watch>(
        &self,
        crew: &Crew<'_, R, W>,
        guess: u64,
        most_labels: usize,
    ) -> Result<Round<'_>, NoMemory>
        ensures graph { IfOk result (λ round. IfRoundClosed round (λ closed. closed.completions.graph ≡ self.now.graph)) }
        ensures gap { IfOk result (λ round. IfRoundClosed round (λ closed. closed.completions.gap ≡ closed.gap)) }
        ensures depth { IfOk result (λ round. IfRoundClosed round (λ closed. HasDepth self.now.graph closed.depth)) }
        ensures wide { IfOk result (λ round. IfRoundClosed round (λ closed.
            IsGapFor self.now.duals self.now.graph (length (customers self.now.problem)) self.now.range.limit closed.gap)) }
    {
        let first = match self.close_at(crew, guess, most_labels)? {
            Round::Closed(closed) => closed,
            other => return Ok(other),
        };
        if first.depth <= guess {
            return Ok(Round::Closed(first));
        }
        let depth = first.depth;
        drop(first);
        self.close_at(crew, depth, most_labels)
    }
}

impl<'g> ClosedLabels<'g> {
    /// For each place, those that follow it on cheap routes, and maybe more to which the arc is alive. Where routes don't cost the same
    /// from either end, labels are closed in the reversed graph too; if that meets a limit, the arcs stay as they are, `alive`.
    pub fn useful_arcs<R, W: Watch>(
        &self,
        crew: &Crew<'_, R, W>,
        graph: &RouteGraph,
        alive: &[CustomerSet],
        most_labels: usize,
    ) -> Result<Vec<CustomerSet>, NoMemory>
        requires graph { self.now.completions.graph ≡ graph.now }
        requires gap { self.now.completions.gap ≡ self.now.gap }
        requires alive { alive.now ≡ graph.now.followers }
        ensures keeps { IfOk result (λ followers. KeepsCheap graph.now self.now.completions.gap followers.items) }
        ensures alive { IfOk result (λ followers. AreAlive graph.now followers.items) }
    {
        if graph.is_even() {
            return Ok(self.completions.useful_arcs(crew.alloc)?);
        }
        // What is known of every graph comes with its places.
        let _places = graph.places();
        let reversed = graph.reversed(crew.alloc)?;
        match close(crew, &reversed, self.gap, most_labels)? {
            Closing::Closed(beginnings) => Ok(
                self.completions
                    .useful_arcs_between(crew.alloc, &beginnings)?,
            ),
            Closing::Met(_) => Ok(Vec::from_slice(crew.alloc, alive)?),
        }
    }
}
