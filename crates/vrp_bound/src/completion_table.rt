//! The completion table: the least cost of the open truck's walk home and of tours, by place, room and rest.
ghost use Rattle.std.specs.Prelude.{◌≡◌, ◌≢◌, ◌+◌, ◌*◌, ◌≤◌, ◌<◌, min, length, IfOk, IfSome, IsTrue, vec_len, vec_capacity};
ghost use Rattle.vrp_model.specs.Problem.{place_count};
ghost use Rattle.vrp_model.specs.Route.{load_of};
ghost use Rattle.vrp_bound.specs.Inner.CompletionCells.{mark, small_mark};
ghost use Rattle.vrp_bound.specs.Inner.Scaled.{IsCompletionTableOver, IsCompletionTableOverSoFar, AreToursOver, AreWalksOver, IsLeastCompletion, room_over, scaled};

use crate::units::UnitScope;
use crate::walks::MARK;
use std::alloc::Global;
use vrp_model::NoMemory;

// The mark for "no completion": above every cost in the table.
const SMALL_MARK: u32 = 4_000_000_000;

// The greatest number of cells of the table.
const MOST_CELLS: usize = 64_000_000;

/// How often tables will be looked up.
#[derive(Clone, Copy)]
pub(crate) enum Looks {
    /// Often enough for the completion table to pay.
    Many,
    Few,
}

/// The cells, by place, then by room, then by rest. `None` if few looks don't pay for a table, if it would have too many cells, or if a
/// cost is too large for one.
pub(crate) fn completion_table(
    looks: Looks,
    alloc: Global,
    scope: UnitScope<'_>,
    walks: &[u64],
    tours: &[u64],
    room: u64,
) -> Result<Option<Vec<u32>>, NoMemory>
    requires walks { AreWalksOver scope walks.now }
    requires tours { AreToursOver scope tours.now }
    requires room { room ≡ room_over scope }
    ensures { IfOk result (λ cells. IfSome cells (λ completion_table. IsCompletionTableOver scope.entry completion_table.items)) }
{
    if let Looks::Few = looks {
        return Ok(None);
    }
    let rooms = room as usize + 1;
    let rows = scope.places * rooms;
    if rows > MOST_CELLS / tours.len() {
        return Ok(None);
    }
    let mut cells = Vec::with_capacity(alloc, rows * tours.len())?;
    for row in 0..rows {
        let at = (row / rooms) as u16;
        if !push_row(&mut cells, scope, walks, tours, at, row % rooms) {
            return Ok(None);
        }
    }
    Ok(Some(cells))
}

// Adds the cells of a place and a room, after those of less room. False if a cost is too large for a cell.
fn push_row(
    cells: &mut Vec<u32>,
    scope: UnitScope<'_>,
    walks: &[u64],
    tours: &[u64],
    at: u16,
    room: usize,
) -> bool
    requires walks { AreWalksOver scope walks.now }
    requires tours { AreToursOver scope tours.now }
    requires place { at < place_count scope.instance.now }
    requires room { room ≤ room_over scope }
    requires so_far { IsCompletionTableOverSoFar scope cells.old.items }
    requires next { vec_len cells.old ≡ (at * (room_over scope + 1) + room) * length tours.now }
    requires fits { vec_len cells.old + length tours.now ≤ vec_capacity cells.old }
    ensures len { IsTrue result → vec_len cells.new ≡ vec_len cells.old + length tours.now }
    ensures capacity { vec_capacity cells.new ≡ vec_capacity cells.old }
    ensures so_far { IsTrue result → IsCompletionTableOverSoFar scope.entry cells.new.items }
{
    let walk = walks[room * scope.places + usize::from(at)];
    for rest in 0..tours.len() {
        let less = if room == 0 {
            SMALL_MARK
        } else {
            cells[cells.len() - tours.len()]
        };
        let whole = if room <= rest {
            walk + tours[rest - room]
        } else {
            MARK
        };
        match lesser(less, whole) {
            Some(cell) => cells.push_reserved(cell),
            None => return false,
        }
    }
    true
}

// The lesser of the cost with less room and that of a walk home that uses the whole room. `None` if it is too large for a
// cell.
fn lesser(less: u32, whole: u64) -> Option<u32>
    ensures none { IfSome result (λ cell. mark ≤ whole → cell ≡ less) }
    ensures some { IfSome result (λ cell. whole < mark → cell ≡ min less whole) }
    ensures small { IfSome result (λ cell. whole < mark → whole < small_mark) }
{
    if whole >= MARK {
        return Some(less);
    }
    if whole >= u64::from(SMALL_MARK) {
        return None;
    }
    Some(less.min(whole as u32))
}

/// A completion table, with the table of the tours and the room that its rows go by.
#[derive(Clone, Copy)]
pub(crate) struct CompletionTable<'a> {
    pub(crate) cells: &'a [u32],
    pub(crate) tours: &'a [u64],
    pub(crate) room: u64,
}

/// The answer of `least_completion`, by one look-up in the table.
#[inline(always)]
pub(crate) fn lookup(
    scope: UnitScope<'_>,
    table: CompletionTable<'_>,
    at: u16,
    free: u64,
    rest: u64,
) -> u64
    requires completion_table { IsCompletionTableOver scope table.cells.now }
    requires tours { AreToursOver scope table.tours.now }
    requires room { table.room ≡ room_over scope }
    requires customer { at ≢ 0 }
    requires place { at < place_count scope.instance.now }
    requires free { free ≤ (scaled scope).capacity }
    requires rest { rest ≤ load_of (scaled scope) scope.customers.now }
    ensures { IsLeastCompletion scope.entry at free rest result }
{
    let CompletionTable { cells, tours, room } = table;
    let left = free.min(room) as usize;
    let row = usize::from(at) * (room as usize + 1) + left;
    let cell = cells[row * tours.len() + rest as usize];
    if cell < SMALL_MARK {
        u64::from(cell)
    } else {
        MARK
    }
}

/// The least cost of carrying the rest from a customer, when the open truck has this much room, over the loads of its walk
/// home.
pub(crate) fn least_completion(
    scope: UnitScope<'_>,
    walks: &[u64],
    tours: &[u64],
    at: u16,
    free: u64,
    rest: u64,
) -> u64
    requires walks { AreWalksOver scope walks.now }
    requires tours { AreToursOver scope tours.now }
    requires customer { at ≢ 0 }
    requires place { at < place_count scope.instance.now }
    requires free { free ≤ (scaled scope).capacity }
    requires rest { rest ≤ load_of (scaled scope) scope.customers.now }
    ensures least { IsLeastCompletion scope.entry at free rest result }
{
    let rest = rest as usize;
    let room = free as usize;
    let mut least = MARK;
    for home in 0..room.min(rest) + 1 {
        least = least.min(walks[home * scope.places + usize::from(at)] + tours[rest - home]);
    }
    least
}
