//! The square of weights that a matrix in a file means.
ghost use Rattle.std.specs.Prelude.{◌≡◌, ℕ, ◌+◌, ◌-◌, ◌*◌, ◌≤◌, IfOk, length, slice_index, vec_len};
ghost use Rattle.vrp_model.specs.Grid.{grid_of};
ghost use Rattle.vrp_model.specs.Layout.{cells, HasEntries};
ghost use Rattle.vrp_model.specs.Inner.Listing.{IsListed, IsWritten, IsFilled};

use crate::layout::Layout;
use crate::limits::{MAX_NODES, MAX_WEIGHT};
use crate::memory::NoMemory;
use std::alloc::Global;

/// The weights from each node to each, row by row, from the ones that a file lists in a layout.
pub(crate) fn square(
    alloc: Global,
    layout: Layout,
    entries: &[u64],
    nodes: u16,
) -> Result<Vec<u32>, NoMemory>
    requires few { nodes ≤ MAX_NODES }
    requires count { length entries.now ≡ length (cells layout nodes) }
    requires small { (k : ℕ) → slice_index entries.now k ≤ MAX_WEIGHT }
    ensures len { IfOk result (λ square. vec_len square ≡ nodes * nodes) }
    ensures entries { IfOk result (λ all. HasEntries layout entries.now (grid_of nodes all.items)) }
    ensures small { IfOk result (λ square. (k : ℕ) → slice_index square.items k ≤ MAX_WEIGHT) }
{
    let side = usize::from(nodes);
    let mut square = vec![in alloc; 0u32; side * side]?;
    let mut next = 0;
    for line in 1..nodes + 1 {
        next = fill_line(&mut square, layout, entries, nodes, line, next);
    }
    Ok(square)
}

// Enters the weights of one line, after those of the lines before it, and returns the index of the next entry.
fn fill_line(
    square: &mut [u32],
    layout: Layout,
    entries: &[u64],
    nodes: u16,
    line: u16,
    first: usize,
) -> usize
    requires few { nodes ≤ MAX_NODES }
    requires count { length entries.now ≡ length (cells layout nodes) }
    requires small { (k : ℕ) → slice_index entries.now k ≤ MAX_WEIGHT }
    requires room { length square.old ≡ nodes * nodes }
    requires line_from_one { 1 ≤ line }
    requires line_within { line ≤ nodes }
    requires so_far { IsFilled layout nodes entries.now square.old first (line - 1) (nodes + 1) }
    ensures { IsFilled layout nodes entries.now square.new result line (nodes + 1) }
{
    let mut next = first;
    for across in 1..nodes + 1 {
        let (row, column) = layout.cell(line, across);
        if layout.lists(row, column) {
            write(square, layout, nodes, row, column, entries[next] as u32);
            next += 1;
        }
    }
    next
}

// Enters the weight of a cell, and for the reverse arc too unless weights hold in one direction only.
fn write(square: &mut [u32], layout: Layout, nodes: u16, row: u16, column: u16, weight: u32)
    requires room { length square.old ≡ nodes * nodes }
    requires listed { IsListed layout nodes row column }
    ensures { IsWritten layout nodes row column weight square.old square.new }
{
    let side = usize::from(nodes);
    let row = usize::from(row) - 1;
    let column = usize::from(column) - 1;
    square[row * side + column] = weight;
    if !layout.is_full() {
        square[column * side + row] = weight;
    }
}
