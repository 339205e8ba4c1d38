//! The table of the ng-walks: the least cost of a walk from each place to the depot, by its load.
ghost use Rattle.std.specs.Prelude.{◌≡◌, ℕ, ◌+◌, ◌*◌, ◌≤◌, ◌<◌, ◌++◌, IfOk, SomeIndex, length, slice_index, vec_len, vec_capacity};
ghost use Rattle.vrp_bound.specs.Inner.CompletionCells.{mark};
ghost use Rattle.vrp_bound.specs.Inner.NgCells.{ArePulled, IsRow};
ghost use Rattle.vrp_bound.specs.Inner.NgScaled.{AreLeastNgWalks, AreNgWalksOver, AreNgWalksOverSoFar, AreLeastOverNgSets, load_cells, place_count_of};
ghost use Rattle.vrp_bound.specs.Inner.Scaled.{room_over};

use crate::ng_scope::NgScope;
use crate::walks::MARK;
use std::alloc::Global;
use vrp_model::NoMemory;

/// The cells, by load and then by place, for loads up to the capacity: the least over all ng-sets.
pub(crate) fn walks_by_ng_set(
    alloc: Global,
    scope: NgScope<'_>,
    room: u64,
) -> Result<Vec<u64>, NoMemory>
    requires room { room ≡ room_over scope.units }
    ensures { IfOk result (λ cells. AreLeastOverNgSets scope.entry cells.items) }
{
    let cells = ng_walks(alloc, scope, room)?;
    least_walks(alloc, scope, &cells)
}

// The cells by load, then by place, then by ng-set.
fn ng_walks(alloc: Global, scope: NgScope<'_>, room: u64) -> Result<Vec<u64>, NoMemory>
    requires room { room ≡ room_over scope.units }
    ensures { IfOk result (λ cells. AreNgWalksOver scope.entry cells.items) }
{
    let loads = room as usize + 1;
    let mut cells = Vec::with_capacity(alloc, loads * scope.units.places * scope.masks)?;
    let mut row = vec![in alloc; MARK; scope.masks]?;
    for load in 0..loads {
        push_load(&mut cells, &mut row, scope, load);
    }
    Ok(cells)
}

// The least of the cells of each load and place, over all ng-sets.
fn least_walks(alloc: Global, scope: NgScope<'_>, cells: &[u64]) -> Result<Vec<u64>, NoMemory>
    requires cells { AreNgWalksOver scope cells.now }
    ensures { IfOk result (λ walks. AreLeastOverNgSets scope.entry walks.items) }
{
    let count = cells.len() / scope.masks;
    let mut walks = Vec::with_capacity(alloc, count)?;
    for place in 0..count {
        let least = least_of(cells_of(cells, place, scope.masks));
        walks.push_reserved(least);
    }
    Ok(walks)
}

// The least of these cells, or the mark if all are above it.
fn least_of(row: &[u64]) -> u64
    ensures within { result ≤ mark }
    ensures low { (m : ℕ) → m < length row.now → result ≤ slice_index row.now m }
    ensures met { result < mark → SomeIndex row.now (λ m. slice_index row.now m ≡ result) }
{
    let mut least = MARK;
    for cell in row {
        least = least.min(*cell);
    }
    least
}

// Adds the cells of a load, after those of smaller loads.
fn push_load(cells: &mut Vec<u64>, row: &mut [u64], scope: NgScope<'_>, load: usize)
    requires row { length row.old ≡ scope.masks }
    requires light { load ≤ 200000000 }
    requires so_far { AreNgWalksOverSoFar scope cells.old.items }
    requires next { vec_len cells.old ≡ load * place_count_of scope * scope.masks }
    requires fits { vec_len cells.old + load_cells scope ≤ vec_capacity cells.old }
    ensures len { vec_len cells.new ≡ vec_len cells.old + load_cells scope.entry }
    ensures capacity { vec_capacity cells.new ≡ vec_capacity cells.old }
    ensures so_far { AreNgWalksOverSoFar scope.entry cells.new.items }
{
    for at in 0..scope.units.places as u16 {
        fill_row(row, scope, cells, load, at);
        append(cells, row);
    }
}

// Adds these cells.
fn append(cells: &mut Vec<u64>, row: &[u64])
    requires { vec_len cells.old + length row.now ≤ vec_capacity cells.old }
    ensures items { cells.new.items ≡ cells.old.items ++ row.now }
    ensures len { vec_len cells.new ≡ vec_len cells.old + length row.now }
    ensures capacity { vec_capacity cells.new ≡ vec_capacity cells.old }
{
    for cell in row {
        cells.push_reserved(*cell);
    }
}

// The cells of a load and a place, by ng-set: pulled from those of each stop that fits in the load.
fn fill_row(row: &mut [u64], scope: NgScope<'_>, cells: &[u64], load: usize, at: u16)
    requires place { at < place_count_of scope }
    requires row { length row.old ≡ scope.masks }
    requires light { load ≤ 200000000 }
    requires so_far { AreNgWalksOverSoFar scope cells.now }
    requires next { length cells.now ≡ (load * place_count_of scope + at) * scope.masks }
    ensures least { AreLeastNgWalks scope.entry at load row.new }
    ensures within { (m : ℕ) → slice_index row.new m ≤ mark }
{
    clear(row);
    if load == 0 {
        row[0] = scope.units.instance.weight(at, 0);
        return;
    }
    for customer in scope.units.customers {
        let stop = usize::from(*customer);
        let demand = scope.demands[stop] as usize;
        if demand <= load {
            let place = (load - demand) * scope.units.places + stop;
            let behind = cells_of(cells, place, scope.masks);
            let before = scope.ng_sets.before(at, *customer);
            let weight = scope.units.instance.weight(at, *customer);
            pull(row, weight, behind, before);
        }
    }
}

// Sets the row to "no walk".
fn clear(row: &mut [u64])
    ensures len { length row.new ≡ length row.old }
    ensures marked { (m : ℕ) → m < length row.old → slice_index row.new m ≡ mark }
{
    for cell in row.iter_mut() {
        *cell = MARK;
    }
}

// The cells of a load and a place, by ng-set.
fn cells_of(cells: &[u64], place: usize, masks: usize) -> &[u64]
    requires fits { place * masks + masks ≤ length cells.now }
    ensures len { length result.now ≡ masks }
    ensures value { IsRow masks place cells.entry.now result.now }
{
    let start = place * masks;
    &cells[start..start + masks]
}

// Lowers each cell to the costs, plus this weight, of the cells behind whose ng-set leads to this cell's.
fn pull(row: &mut [u64], weight: u64, behind: &[u64], before: &[u8])
    requires light { weight ≤ 1000000000 }
    requires small { (k : ℕ) → k < length row.old → slice_index behind.now k ≤ mark }
    requires behind { length behind.now ≡ length row.old }
    requires before { length before.now ≡ length row.old }
    ensures { ArePulled weight (length row.old) behind.now before.now row.old row.new }
{
    for ng_set in 0..row.len() {
        let to = usize::from(before[ng_set]);
        if to < row.len() {
            row[to] = row[to].min(weight + behind[ng_set]);
        }
    }
}
