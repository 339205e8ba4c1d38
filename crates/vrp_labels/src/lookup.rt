//! Which labels of a pile meet a beginning of a route, and what they add to it at least.
ghost use Rattle.std.specs.Prelude.{◌≡◌, ◌⊎◌, ◌≤◌, ◌<◌, ◌≤ℤ◌, ◌+ℤ◌, ◌+◌, ◌-◌, ◌*◌, ◌^◌, ◌↔◌, IsTrue, length, slice_index_or, unsigned_abs};
ghost use Rattle.std.specs.List.{All, Contains, slice_range};
ghost use Rattle.vrp_duals.specs.Folding.{arc_of};
ghost use Rattle.vrp_labels.specs.Bands.{AreBands, IsShift, no_band};
ghost use Rattle.vrp_labels.specs.Completion.{CanJoin, IsJoinCost, IsLeastJoin, Meets, join_cost};
ghost use Rattle.vrp_labels.specs.Label.{IsLabelOf};
ghost use Rattle.vrp_labels.specs.Sorting.{IsRising, band_at};
ghost use Rattle.vrp_labels.specs.declared.bands.TheConstants.{BANDS};
ghost use Rattle.vrp_labels.specs.declared.label.Label.{Label};

use crate::bands::Band;
use crate::graph::RouteGraph;
use crate::label::Label;

// Whether some label of a band makes a beginning a route whose cost is at most the gap.
fn meets(graph: &RouteGraph, pile: &[Label], place: u16, forward: &Label, gap: &i64) -> bool
    requires labels { All (λ label. IsLabelOf graph.now label × (label.at ≡ place)) pile.now }
    requires rising { IsRising pile.now }
    requires place { place < graph.now.folded.places }
    requires at { forward.now.at < graph.now.folded.places }
    requires light { forward.now.load ≤ graph.now.capacity }
    requires small { unsigned_abs forward.now.cost ≤ 2 ^ 62 }
    ensures none { (label : Label) → Contains pile.now label → Meets graph.now gap.now forward.now label → IsTrue result }
    ensures found { IsTrue result → (label : Label) × Contains pile.now label × Meets graph.now gap.now forward.now label }
{
    let base = forward.cost + graph.arc(forward.at, place);
    for label in pile {
        let cost = base + label.cost;
        if cost > *gap {
            return false;
        }
        if joins(graph, label, forward, cost, gap) {
            return true;
        }
    }
    false
}

// The highest band whose labels may be light enough.
#[inline(always)]
fn top_band(graph: &RouteGraph, shift: u32, forward: &Label) -> usize
    requires shift { IsShift shift graph.now.capacity }
    requires light { forward.now.load ≤ graph.now.capacity }
    ensures value { result ≡ band_at shift (graph.now.capacity - forward.now.load) }
    ensures small { result < BANDS }
{
    ((graph.capacity() - forward.load) >> shift) as usize
}

// The labels of a band.
#[inline(always)]
fn band_labels<'a>(pile: &'a [Label], bands: &[Band], b: usize) -> &'a [Label]
    requires known { b < length bands.now }
    requires order { (slice_index_or bands.now b no_band).from ≤ (slice_index_or bands.now b no_band).to }
    requires within { (slice_index_or bands.now b no_band).to ≤ length pile.now }
    ensures { result.now ≡ slice_range pile.now (slice_index_or bands.now b no_band).from (slice_index_or bands.now b no_band).to }
{
    let band = bands[b];
    &pile[band.from..band.to]
}

/// Whether some label of a place, whose bands these are, makes a beginning a route whose cost is at most the gap. The highest band that may be
/// light enough is looked at first, and none below once all of them cost too much.
pub fn meets_in_bands(
    graph: &RouteGraph,
    pile: &[Label],
    bands: &[Band],
    shift: u32,
    place: u16,
    forward: &Label,
    gap: &i64,
) -> bool
    requires labels { All (λ label. IsLabelOf graph.now label × (label.at ≡ place)) pile.now }
    requires bands { AreBands shift pile.now bands.now }
    requires shift { IsShift shift graph.now.capacity }
    requires place { place < graph.now.folded.places }
    requires at { forward.now.at < graph.now.folded.places }
    requires light { forward.now.load ≤ graph.now.capacity }
    requires small { unsigned_abs forward.now.cost ≤ 2 ^ 62 }
    ensures none { (label : Label) → Contains pile.now label → Meets graph.now gap.now forward.now label → IsTrue result }
    ensures found { IsTrue result → (label : Label) × Contains pile.now label × Meets graph.now gap.now forward.now label }
{
    let top = top_band(graph, shift, forward);
    let base = forward.cost + graph.arc(forward.at, place);
    for k in 0..top + 1 {
        if base + bands[top - k].least > *gap {
            return false;
        }
        if meets(
            graph,
            band_labels(pile, bands, top - k),
            place,
            forward,
            gap,
        ) {
            return true;
        }
    }
    false
}

/// The least that labels of one place, whose bands these are, add to a beginning, if it is below what is known.
pub fn least_in_bands(
    graph: &RouteGraph,
    pile: &[Label],
    bands: &[Band],
    shift: u32,
    place: u16,
    forward: &Label,
    known: i64,
) -> i64
    requires labels { All (λ label. IsLabelOf graph.now label × (label.at ≡ place)) pile.now }
    requires bands { AreBands shift pile.now bands.now }
    requires shift { IsShift shift graph.now.capacity }
    requires place { place < graph.now.folded.places }
    requires forward { IsLabelOf graph.now forward.now }
    ensures below { result ≤ℤ known }
    ensures least { IsLeastJoin graph.now forward.now pile.now result }
    ensures attained { (result ≡ known) ⊎ IsJoinCost graph.now forward.now pile.now result }
{
    let top = top_band(graph, shift, forward);
    let arc = graph.arc(forward.at, place);
    let mut best = known;
    for k in 0..top + 1 {
        if arc + bands[top - k].least >= best {
            return best;
        }
        let labels = band_labels(pile, bands, top - k);
        best = least_join(graph, labels, place, forward, best);
    }
    best
}

// Whether a label can join, and with the prices of the rows that meet the whole costs at most the gap.
#[inline(always)]
fn joins(graph: &RouteGraph, label: &Label, forward: &Label, cost: i64, gap: &i64) -> bool
    requires forward { forward.now.load ≤ graph.now.capacity }
    requires cost { cost ≡ (forward.now.cost +ℤ (arc_of graph.now.folded forward.now.at label.now.at +ℤ label.now.cost)) }
    requires small { unsigned_abs cost ≤ 2 ^ 62 + 3 * 2 ^ 60 + 2 ^ 45 }
    ensures { IsTrue result ↔ Meets graph.now gap.now forward.now label.now }
{
    if *gap < cost {
        return false;
    }
    if label.load > graph.capacity() - forward.load {
        return false;
    }
    if !label.visited.is_disjoint(forward.visited) {
        return false;
    }
    graph.weighs_at_most(forward.rows.intersection(label.rows), gap.abs_diff(cost))
}

// The lesser of what is known and what a label adds to a beginning, if it can join.
#[inline(always)]
fn lesser_join(graph: &RouteGraph, label: &Label, forward: &Label, cost: i64, known: i64) -> i64
    requires label { IsLabelOf graph.now label.now }
    requires forward { IsLabelOf graph.now forward.now }
    requires cost { cost ≡ (arc_of graph.now.folded forward.now.at label.now.at +ℤ label.now.cost) }
    requires small { unsigned_abs cost ≤ 2 ^ 62 }
    ensures below { result ≤ℤ known }
    ensures least { CanJoin graph.now forward.now label.now → result ≤ℤ join_cost graph.now forward.now label.now }
    ensures attained { (result ≡ known) ⊎ (CanJoin graph.now forward.now label.now × (result ≡ join_cost graph.now forward.now label.now)) }
{
    if !label.visited.is_disjoint(forward.visited) {
        return known;
    }
    if label.load > graph.capacity() - forward.load {
        return known;
    }
    let whole = cost + graph.weigh(forward.rows.intersection(label.rows)) as i64;
    if whole < known { whole } else { known }
}

// The least that labels of a band add to a beginning, if it is below what is known.
fn least_join(graph: &RouteGraph, pile: &[Label], place: u16, forward: &Label, known: i64) -> i64
    requires labels { All (λ label. IsLabelOf graph.now label × (label.at ≡ place)) pile.now }
    requires rising { IsRising pile.now }
    requires place { place < graph.now.folded.places }
    requires forward { IsLabelOf graph.now forward.now }
    ensures below { result ≤ℤ known }
    ensures least { IsLeastJoin graph.now forward.now pile.now result }
    ensures attained { (result ≡ known) ⊎ IsJoinCost graph.now forward.now pile.now result }
{
    let arc = graph.arc(forward.at, place);
    let mut best = known;
    for label in pile {
        let cost = arc + label.cost;
        if cost >= best {
            return best;
        }
        best = lesser_join(graph, label, forward, cost, best);
    }
    best
}
