//! The labels of several workers, merged in one order.
ghost use Rattle.std.specs.Prelude.{◌≡◌, ◌⊎◌, ◌+◌, ◌*◌, ◌^◌, ◌<◌, ◌≤◌, ℕ, List, Vec, OnOk, IfOk, IsTrue, false, length, slice_index_or, vec_len};
ghost use Rattle.std.specs.Global.{Global};
ghost use Rattle.std.specs.List.{AllPairs};
ghost use Rattle.vrp_routes.specs.Level.{ComesFirst};
ghost use Rattle.vrp_routes.specs.Merge.{AreMerged, AreRanges, CanMerge, IsCut, IsMerged, labels_at};
ghost use Rattle.vrp_routes.specs.declared.label.Label.{Label};

use crate::label::Label;
use crate::tasks::values_of;
use std::alloc::Global;
use std::thread::Threads;
use vrp_model::NoMemory;

// The labels of this many parents are merged at once: they fit a processor's cache.
const PARENTS_AT_ONCE: usize = 16_384;

/// The labels of all parts, by rising parent, and for one parent by rising last customer. Each worker merges the labels of one range of
/// parents at a time.
pub fn all_merged<R: Threads + Sync, X: Copy + Send + Sync>(
    rt: &R,
    alloc: Global,
    parts: &[Vec<Label<X>>],
    parents: usize,
    workers: u16,
) -> Result<Vec<Label<X>>, NoMemory>
    requires workers { 0 < workers }
    requires can { CanMerge parts.now }
    requires few { parents < 2 ^ 32 }
    ensures { IfOk result (λ labels. (to : ℕ) × (parents ≤ to)
        × AreMerged parts.now (length parts.now) 0 to labels.items) }
{
    let mut merged = Vec::with_capacity(alloc, label_count(parts))?;
    let mut from = 0;
    while from < parents {
        let ranges = ranges_from(rt, alloc, parts, from, workers)?;
        append_ranges(&mut merged, &ranges)?;
        from += usize::from(workers) * PARENTS_AT_ONCE;
    }
    Ok(merged)
}

// The number of labels.
fn label_count<X: Copy>(parts: &[Vec<Label<X>>]) -> usize {
    parts
        .iter()
        .fold(0usize, |sum, part| sum.saturating_add(part.len()))
}

// The labels of some ranges of parents, one range for each worker; the first range begins with this parent.
fn ranges_from<R: Threads + Sync, X: Copy + Send + Sync>(
    rt: &R,
    alloc: Global,
    parts: &[Vec<Label<X>>],
    from: usize,
    workers: u16,
) -> Result<Vec<Vec<Label<X>>>, NoMemory>
    requires workers { 0 < workers }
    requires can { CanMerge parts.now }
    requires few { from < 2 ^ 32 }
    ensures count { IfOk result (λ ranges. vec_len ranges ≡ workers) }
    ensures each { IfOk result (λ ranges. AreRanges parts.now from PARENTS_AT_ONCE ranges.items) }
{
    values_of(
        rt,
        alloc,
        workers,
        usize::from(workers),
        &|range: usize| -> Result<Vec<Label<X>>, NoMemory>
            requires can { CanMerge parts.now }
            requires few { from + range * PARENTS_AT_ONCE + PARENTS_AT_ONCE < 2 ^ 64 }
            ensures { IfOk result (λ merged. AreMerged parts.entry.now (length parts.entry.now)
                (from + range * PARENTS_AT_ONCE) (from + range * PARENTS_AT_ONCE + PARENTS_AT_ONCE) merged.items) }
        {
            let first = from + range * PARENTS_AT_ONCE;
            merged_between(alloc, parts, first, first + PARENTS_AT_ONCE)
        },
    )
}

// Appends the labels of some ranges.
fn append_ranges<X: Copy>(
    merged: &mut Vec<Label<X>>,
    ranges: &[Vec<Label<X>>],
) -> Result<(), NoMemory>
    ensures { OnOk result ((parts : List (Vec (Label X) Global)) (from : ℕ)
        → AreMerged parts (length parts) 0 from merged.old.items → AreRanges parts from PARENTS_AT_ONCE ranges.now
        → AreMerged parts (length parts) 0 (from + length ranges.now * PARENTS_AT_ONCE) merged.new.items) }
{
    for index in 0..ranges.len() {
        merged.extend_from_slice(ranges[index].as_slice())?;
    }
    Ok(())
}

// The labels of all parts whose parents are in a range.
fn merged_between<X: Copy>(
    alloc: Global,
    parts: &[Vec<Label<X>>],
    from: usize,
    to: usize,
) -> Result<Vec<Label<X>>, NoMemory>
    requires can { CanMerge parts.now }
    requires some { from ≤ to }
    ensures { IfOk result (λ merged. AreMerged parts.now (length parts.now) from to merged.items) }
{
    let mut labels = Vec::new(alloc);
    for index in 0..parts.len() {
        let more = labels_between(parts[index].as_slice(), from, to);
        labels = merged(alloc, &labels, more)?;
    }
    Ok(labels)
}

// The labels whose parents are in a range.
fn labels_between<X: Copy>(labels: &[Label<X>], from: usize, to: usize) -> &[Label<X>]
    requires rising { AllPairs ComesFirst labels.now }
    requires some { from ≤ to }
    ensures { IsCut from to labels.now result.now }
{
    let low = place_from(labels, from);
    let high = place_from(labels, to);
    &labels[low..high]
}

// The first position of a label whose parent's number is at least this.
fn place_from<X: Copy>(labels: &[Label<X>], parent: usize) -> usize
    requires rising { AllPairs ComesFirst labels.now }
    ensures within { result ≤ length labels.now }
    ensures below { (i : ℕ) (d : Label X) → i < result → (slice_index_or labels.now i d).parent < parent }
    ensures above { (i : ℕ) (d : Label X) → result ≤ i → i < length labels.now → parent ≤ (slice_index_or labels.now i d).parent }
{
    labels.partition_point(|label| (label.parent as usize) < parent)
}

// The labels of both lists.
fn merged<X: Copy>(
    alloc: Global,
    left: &[Label<X>],
    right: &[Label<X>],
) -> Result<Vec<Label<X>>, NoMemory>
    ensures { IfOk result (λ merged. IsMerged left.now right.now merged.items) }
{
    let mut merged = Vec::with_capacity(alloc, left.len() + right.len())?;
    let (mut i, mut j) = (0, 0);
    for _at in 0..left.len() + right.len() {
        if takes_left(left, i, right, j) {
            merged.push(left[i])?;
            i += 1;
        } else {
            merged.push(right[j])?;
            j += 1;
        }
    }
    Ok(merged)
}

// Whether the next label is one of the left list.
fn takes_left<X: Copy>(left: &[Label<X>], i: usize, right: &[Label<X>], j: usize) -> bool
    requires some { i + j < length left.now + length right.now }
    requires left { i ≤ length left.now }
    requires right { j ≤ length right.now }
    ensures yes { IsTrue result → (i < length left.now)
        × (j < length right.now → (d e : Label X) → ComesFirst (slice_index_or left.now i d) (slice_index_or right.now j e)) }
    ensures no { (result ≡ false) → (j < length right.now)
        × (i < length left.now → (d e : Label X) → ComesFirst (slice_index_or left.now i d) (slice_index_or right.now j e) → ⊥) }
{
    if j == right.len() {
        return true;
    }
    if i == left.len() {
        return false;
    }
    let (label, other) = (&left[i], &right[j]);
    if label.parent == other.parent {
        label.last < other.last
    } else {
        label.parent < other.parent
    }
}
