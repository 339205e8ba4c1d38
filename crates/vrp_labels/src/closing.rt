//! The closure of labels: by rising load each label is extended that no kept label dominates.
ghost use Rattle.std.specs.Prelude.{◌≡◌, ◌≤◌, ◌<◌, ◌+◌, ◌*◌, ◌^◌, ℕ, [], IfNone, IfOk, IfSome, OnOk, IsTrue, length};
ghost use Rattle.std.specs.List.{All, Any};
ghost use Rattle.vrp_labels.specs.Closed.{IfClosed};
ghost use Rattle.vrp_labels.specs.Closing.{AreKept, AreOffered, ArePending, IsClosing};
ghost use Rattle.vrp_labels.specs.Label.{Dominates, IsClosed, IsLabelOf, IsBeyondGap, MayExtend, extended_by};
ghost use Rattle.vrp_labels.specs.OnwardBound.{IsBoundTable};
ghost use Rattle.vrp_labels.specs.Reversal.{AreLeaders};

use crate::digest::Digest;
use crate::graph::RouteGraph;
use crate::label::Label;
use crate::onward::OnwardBound;
use crate::piles::LabelPiles;
use crate::runs::{PlaceRuns, Runs};
use std::alloc::AllocError;
use vrp_model::{Crew, NoMemory, Watch};

/// What comes of closing: the labels that are kept, by their customers, or the limit that was met.
#[derive(Debug, Drop)]
pub enum Closing {
    /// Each ending of a cheap route has a label that stands for it.
    Closed(LabelPiles),
    /// There was an end before.
    Met(ClosingLimit),
}

/// Why labels aren't closed.
#[derive(Clone, Copy, Debug, PartialEq, Eq)]
pub enum ClosingLimit {
    /// More labels are in memory than allowed.
    Labels,
    /// The caller stopped it.
    Stopped,
}

/// The labels of endings that no other dominates, by rising load, but for those that no route whose folded cost is at most the gap can have:
/// a bound on the rest of the route shows which (completion bounds). At most about `most_labels` labels are in memory at a time: those that
/// are kept, and those that wait to be looked at. Once for each load the watch is asked whether to go on. The contract leaves open which
/// limit is met and when, and that no kept label dominates another. The only error is lack of memory.
pub fn close<R, W: Watch>(
    crew: &Crew<'_, R, W>,
    graph: &RouteGraph,
    gap: i64,
    most_labels: usize,
) -> Result<Closing, NoMemory>
    ensures closed { IfOk result (λ closing. IfClosed closing (IsClosed graph.now gap)) }
    ensures kept { IfOk result (λ closing. IfClosed closing (AreKept graph.now)) }
{
    let alloc = crew.alloc;
    let onward = OnwardBound::new(alloc, graph, gap)?;
    let mut kept = LabelPiles::new(alloc, graph.places() as usize)?;
    let mut runs = Runs::new(alloc, graph.places() as usize)?;
    let mut pending = LabelPiles::new(alloc, graph.capacity() as usize + 1)?;
    let mut held = offer_extensions(graph, &onward, &mut pending, &Label::root())?;
    for load in 0..graph.capacity() + 1 {
        if !crew.watch.should_continue() {
            return Ok(Closing::Met(ClosingLimit::Stopped));
        }
        let mut hand = pending.take(load as usize);
        hand.sort_unstable_by_key(|label| (label.at, label.cost));
        let room = most_labels.saturating_sub(held);
        let more = keep_undominated(
            graph,
            &onward,
            &mut kept,
            &mut runs,
            &mut pending,
            &hand,
            room,
        )?;
        match more {
            Some(more) => held = held.saturating_add(more).saturating_sub(hand.len()),
            None => return Ok(Closing::Met(ClosingLimit::Labels)),
        }
    }
    Ok(Closing::Closed(kept))
}

// Keeps each label in hand that no kept label dominates, and adds its extensions to the labels that wait. How many labels more there are,
// which no clause says, or `None` once they are more than there is room for.
fn keep_undominated(
    graph: &RouteGraph,
    onward: &OnwardBound,
    kept: &mut LabelPiles,
    runs: &mut Runs,
    pending: &mut LabelPiles,
    hand: &[Label],
    room: usize,
) -> Result<Option<usize>, AllocError>
    requires table { IsBoundTable graph.now onward.now.table.items }
    requires leaders { AreLeaders graph.now onward.now.leaders.items }
    requires closing { (from : ℕ) × IsClosing graph.now onward.now.gap from hand.now kept.old pending.old }
    requires runs { length runs.old.by_place.items ≡ graph.now.folded.places }
    ensures closing { IfOk result (λ more. IfSome more (λ _. (from : ℕ) → IsClosing graph.now onward.now.gap from hand.now kept.old pending.old
        → IsClosing graph.now onward.now.gap from [] kept.new pending.new)) }
    ensures runs { IfOk result (λ more. IfSome more (λ _. length runs.new.by_place.items ≡ graph.now.folded.places)) }
{
    let mut more: usize = 0;
    for label in hand {
        let at = label.at as usize;
        let pile = kept.get(at);
        if !is_dominated(graph, pile, runs.of(at), label) {
            runs.note(label)?;
            let offered = offer_extensions(graph, onward, pending, label)?;
            kept.push(at, *label)?;
            more = more.saturating_add(offered).saturating_add(1);
            if more > room {
                return Ok(None);
            }
        }
    }
    Ok(Some(more))
}

// Adds each extension of a label to the labels that wait, but for those that no cheap route has. How many, which no clause says.
fn offer_extensions(
    graph: &RouteGraph,
    onward: &OnwardBound,
    pending: &mut LabelPiles,
    label: &Label,
) -> Result<usize, AllocError>
    requires table { IsBoundTable graph.now onward.now.table.items }
    requires leaders { AreLeaders graph.now onward.now.leaders.items }
    requires label { IsLabelOf graph.now label.now }
    requires pending { ArePending graph.now pending.old }
    ensures { OnOk result (AreOffered graph.now onward.now.gap label.now graph.now.folded.places pending.old pending.new) }
{
    let leaders = onward.leaders[label.at as usize];
    let mut offered: usize = 0;
    for j in 1..graph.places() {
        if leaders.contains(j) && graph.may_extend(label, j) {
            if let Some(extended) = extension(graph, onward, label, j) {
                pending.push(extended.load as usize, extended)?;
                offered = offered.wrapping_add(1);
            }
        }
    }
    Ok(offered)
}

// The label with one more customer in front, or `None` where no cheap route has it. Most are told by their arcs alone.
#[inline(always)]
fn extension(
    graph: &RouteGraph,
    onward: &OnwardBound,
    label: &Label,
    customer: u16,
) -> Option<Label>
    requires table { IsBoundTable graph.now onward.now.table.items }
    requires label { IsLabelOf graph.now label.now }
    requires may { MayExtend graph.now label.now customer }
    ensures value { IfSome result (λ extended. extended ≡ extended_by graph.now label.now customer) }
    ensures label { IfSome result (IsLabelOf graph.now) }
    ensures heavier { IfSome result (λ extended. label.now.load < extended.load) }
    ensures beyond { IfNone result (IsBeyondGap graph.now onward.now.gap (extended_by graph.now label.now customer)) }
{
    if is_beyond_gap(graph, onward, &graph.outline(label, customer)) {
        return None;
    }
    let extended = graph.extended(label, customer);
    if is_beyond_gap(graph, onward, &extended) {
        return None;
    }
    Some(extended)
}

// Whether the other part of a route costs too much, whatever it is.
#[inline(always)]
fn is_beyond_gap(graph: &RouteGraph, onward: &OnwardBound, label: &Label) -> bool
    requires table { IsBoundTable graph.now onward.now.table.items }
    requires some { 1 ≤ label.now.at }
    requires label { IsLabelOf graph.now label.now }
    ensures { IsTrue result → IsBeyondGap graph.now onward.now.gap label.now }
{
    let room = (graph.capacity() - label.load) as usize;
    let least = onward.table[room * graph.places() as usize + label.at as usize].least;
    label.cost + least > onward.gap
}

// Whether one of the kept labels of its place dominates the label. The newest run is looked at first, since its labels are most like this
// one.
fn is_dominated(graph: &RouteGraph, kept: &[Label], place: &PlaceRuns, label: &Label) -> bool
    requires { All (λ other. IsLabelOf graph.now other × (other.at ≡ label.now.at)) kept.now }
    ensures { IsTrue result → Any (λ other. Dominates graph.now other label.now) kept.now }
{
    let digest = Digest::of(label);
    let mut end = kept.len().min(place.digests.len());
    for run in place.runs.iter().rev() {
        if run.least_before > label.cost {
            return false;
        }
        let start = run.start.min(end);
        if run.least <= label.cost {
            let digests = &place.digests[start..end];
            if is_dominated_in(graph, &kept[start..end], digests, label, digest) {
                return true;
            }
        }
        end = start;
    }
    false
}

// Whether one of these labels dominates the label, if they come by rising cost. Their digests show most that don't.
#[inline(always)]
fn is_dominated_in(
    graph: &RouteGraph,
    run: &[Label],
    digests: &[Digest],
    label: &Label,
    digest: Digest,
) -> bool
    requires { All (λ other. IsLabelOf graph.now other × (other.at ≡ label.now.at)) run.now }
    ensures { IsTrue result → Any (λ other. Dominates graph.now other label.now) run.now }
{
    for k in 0..run.len().min(digests.len()) {
        let other = digests[k];
        if other.cost > digest.cost {
            return false;
        }
        if other.is_within(digest) && graph.dominates(&run[k], label) {
            return true;
        }
    }
    false
}
