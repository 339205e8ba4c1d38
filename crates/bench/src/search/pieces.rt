//! The search of all pieces of a cutting, one after the other.
ghost use Rattle.std.specs.Prelude.{◌≡◌, ◌≤◌, IfOk};
ghost use Rattle.std.specs.Option.{ForSome};
ghost use Rattle.vrp_model.specs.Problem.{customers};
ghost use Rattle.vrp_bound.specs.Tables.{tables_over};
ghost use Rattle.vrp_model.specs.Route.{IsPlanOf};
ghost use Rattle.vrp_model.specs.Word.{IsPrefix, unserved_in};
ghost use Rattle.vrp_search_tree.specs.Cutting.{IsCutting};

use std::alloc::Global;
use vrp_bound::Tables;
use vrp_model::{Instance, NoMemory};
use vrp_search_tree::{Cutting, Ended, Local, Piece, search};

// The number of partial plans of a piece that are looked at before it gets its own tables.
const FIRST_LOOK: u64 = 5_000;

/// The tables that a piece is searched with.
#[derive(Clone, Copy, PartialEq)]
pub(crate) enum Whose {
    /// The tables over all customers.
    All,
    /// After a first look with those tables, the piece's own, over its unserved customers.
    Own,
}

/// The tables for a piece, and its budget.
#[derive(Clone, Copy)]
pub(crate) struct Effort {
    pub(crate) whose: Whose,
    pub(crate) budget: u64,
}

/// Searches each piece with this effort, and answers the number of partial plans looked at.
pub(crate) fn search_pieces(
    alloc: Global,
    instance: &Instance,
    tables: &Tables<'_>,
    cutting: &Cutting,
    effort: Effort,
    board: &mut Local,
) -> Result<u64, NoMemory>
    requires tables { tables.now ≡ tables_over instance.now (customers instance.now) }
    requires cutting { IsCutting instance.now cutting.now }
    requires board { ForSome board.old (IsPlanOf instance.now) }
    requires budget { 1 ≤ effort.budget }
{
    let mut looked: u64 = 0;
    for piece in cutting.pieces() {
        let spent = search_piece(alloc, instance, tables, piece, effort, board)?;
        looked = looked.saturating_add(spent);
    }
    Ok(looked)
}

// Searches a piece, and answers the number of partial plans looked at.
fn search_piece(
    alloc: Global,
    instance: &Instance,
    tables: &Tables<'_>,
    piece: &Piece,
    effort: Effort,
    board: &mut Local,
) -> Result<u64, NoMemory>
    requires tables { tables.now ≡ tables_over instance.now (customers instance.now) }
    requires prefix { IsPrefix instance.now piece.now.word }
    requires board { ForSome board.old (IsPlanOf instance.now) }
    requires budget { 1 ≤ effort.budget }
    ensures { ForSome board.new (IsPlanOf instance.now) }
{
    let Effort { whose, budget } = effort;
    let first_budget = match whose {
        Whose::All => budget,
        Whose::Own => budget.min(FIRST_LOOK),
    };
    let looked = match search(alloc, instance, tables, piece, first_budget, board)? {
        Ended::Finished { spent, .. } => return Ok(spent),
        Ended::Unfinished { spent, .. } => spent,
    };
    if whose == Whose::All {
        return Ok(looked);
    }
    let tables = own_tables(alloc, instance, piece)?;
    let ended = search(alloc, instance, &tables, piece, budget, board)?;
    Ok(looked.saturating_add(looked_at(&ended)))
}

// Tables over a piece's unserved customers.
fn own_tables<'a>(
    alloc: Global,
    instance: &'a Instance,
    piece: &Piece,
) -> Result<Tables<'a>, NoMemory>
    requires { IsPrefix instance.now piece.now.word }
    ensures { IfOk result (λ made.
        made ≡ tables_over instance.now (unserved_in instance.now piece.now.word)) }
{
    let unserved = piece.unserved(alloc, instance)?;
    Tables::build(alloc, instance, &unserved)
}

fn looked_at(ended: &Ended) -> u64 {
    match ended {
        Ended::Finished { spent, .. } | Ended::Unfinished { spent, .. } => *spent,
    }
}
