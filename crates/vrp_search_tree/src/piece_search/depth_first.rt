//! The depth-first search of a piece: it enters a partial plan only if a plan under it may be of use.
ghost use Rattle.std.specs.Prelude.{◌≡◌, ◌≤◌, Some, IfNone, IfOk, IfSome};
ghost use Rattle.vrp_model.specs.Word.{IsPrefix, NoneCheaperUnder};
ghost use Rattle.vrp_search_tree.specs.Low.{AreCovered, IsLow};
ghost use Rattle.vrp_search_tree.specs.Search.{EndsSearch};
ghost use Rattle.vrp_search_tree.specs.Pruned.{AllCostMore};
ghost use Rattle.vrp_search_tree.specs.Inner.Under.{EndsUnder};

use crate::partial::Partial;
use crate::piece::Piece;
use crate::piece_search::board::Board;
use crate::piece_search::found::LastOffer;
use crate::piece_search::spending::Spending;
use std::alloc::Global;
use vrp_bound::{Tables, bounds_hold};
use vrp_model::{
    Instance, NoMemory, Plan, plans_cost_less, prefixes_without_completion, words_are_plans,
};

/// How the search of a piece ended.
#[derive(Debug, Drop)]
pub enum Ended {
    /// Each plan under the piece costs more than the board's floor, or is not before `first`, the last plan that the search
    /// offered, which is before all earlier offers. So none costs less than the floor. `spent` partial plans were looked at.
    Finished { spent: u64, first: Option<Plan> },
    /// The tree was not searched completely: the budget was spent, or the board stopped the search. `spent` partial plans
    /// were looked at, and the tree has more. No plan under the piece costs less than `low`, which is the cost along the
    /// piece's word plus the bound on what is still to pay.
    Unfinished { spent: u64, low: u64 },
}

/// Searches the plans under a piece, and offers those to the board that may be before all that it knows. It looks at no more
/// partial plans than the budget allows, each at most once: first at the piece's own word, and at children by rising symbol.
/// It prunes a partial plan if its cost plus bound is above the board's answer, or not below the cost of the last plan that
/// it offered; if the bound says that no plan is under it; or if it is without completion. It asks the board from time to time
/// whether to continue. The tables cover all unserved customers of the piece, and may cover
/// more. If memory is refused, the board has the offers made before.
pub fn search<B: Board>(
    alloc: Global,
    instance: &Instance,
    tables: &Tables<'_>,
    piece: &Piece,
    budget: u64,
    board: &mut B,
) -> Result<Ended, NoMemory>
    requires tables { tables.now.problem ≡ instance.now }
    requires covered { AreCovered instance.now tables.now.among piece.now.word }
    requires piece { IsPrefix instance.now piece.now.word }
    requires board { B.serves board.old instance.now }
    requires budget { 1 ≤ budget }
    ensures serves { B.serves board.new instance.now }
    ensures keeps { (earlier : B) → B.keeps earlier board.old → B.keeps earlier board.new }
    ensures falls { B.floor board.new ≤ B.floor board.old }
    ensures ended { IfOk result (EndsSearch instance.now tables.now.among piece.now.word
        budget (B.may_stop board.new) (B.floor board.new)) }
{
    let Some(Root { mut partial, low }) = open_root(alloc, instance, tables, piece, board)? else {
        return Ok(Ended::Finished {
            spent: 1,
            first: None,
        });
    };
    search_under(alloc, &mut partial, tables, low, budget, board)
}

// A partial plan at a piece's word, and a lower bound on the plans under it.
#[derive(Drop)]
struct Root<'a> {
    partial: Partial<'a>,
    low: u64,
}

// Builds the partial plan of a piece's word. `None` if no plan under it costs as little as the board's answer.
fn open_root<'a, B: Board>(
    alloc: Global,
    instance: &'a Instance,
    tables: &Tables<'_>,
    piece: &Piece,
    board: &mut B,
) -> Result<Option<Root<'a>>, NoMemory>
    requires tables { tables.now.problem ≡ instance.now }
    requires covered { AreCovered instance.now tables.now.among piece.now.word }
    requires piece { IsPrefix instance.now piece.now.word }
    requires board { B.serves board.old instance.now }
    ensures serves { B.serves board.new instance.now }
    ensures keeps { (earlier : B) → B.keeps earlier board.old → B.keeps earlier board.new }
    ensures falls { B.floor board.new ≤ B.floor board.old }
    ensures none { IfOk result (λ root.
        IfNone root (AllCostMore instance.now piece.now.word (B.floor board.new))) }
    ensures at { IfOk result (λ root. IfSome root (λ root.
        root.partial ≡ record { problem = instance.now; word = piece.now.word })) }
    ensures low { IfOk result (λ root. IfSome root (λ root.
        IsLow instance.now tables.now.among piece.now.word (Some root.low))) }
    ensures none_cheaper { IfOk result (λ root. IfSome root (λ root.
        NoneCheaperUnder instance.now piece.now.word root.low)) }
{
    let partial = Partial::at_prefix(alloc, instance, piece.word())?;
    // Nothing under a partial plan is cheaper than its cost plus bound, and nothing is under one without completion.
    bounds_hold();
    prefixes_without_completion();
    if partial.has_no_completion() {
        return Ok(None);
    }
    let Some(low) = partial.low(tables) else {
        return Ok(None);
    };
    if board.least() < low {
        return Ok(None);
    }
    Ok(Some(Root { partial, low }))
}

/// Searches the plans under the current word of a partial plan, its root, with the contract of `search`. No plan under the root costs
/// less than `low`, which is the answer if the search is left unfinished.
pub(crate) fn search_under<B: Board>(
    alloc: Global,
    partial: &mut Partial<'_>,
    tables: &Tables<'_>,
    low: u64,
    budget: u64,
    board: &mut B,
) -> Result<Ended, NoMemory>
    requires tables { tables.now.problem ≡ partial.old.problem }
    requires covered { AreCovered partial.old.problem tables.now.among partial.old.word }
    requires low { NoneCheaperUnder partial.old.problem partial.old.word low }
    requires board { B.serves board.old partial.old.problem }
    requires budget { 1 ≤ budget }
    ensures serves { B.serves board.new partial.old.problem }
    ensures keeps { (earlier : B) → B.keeps earlier board.old → B.keeps earlier board.new }
    ensures falls { B.floor board.new ≤ B.floor board.old }
    ensures ended { IfOk result (EndsUnder partial.old.problem partial.old.word low
        budget (B.may_stop board.new) (B.floor board.new)) }
{
    // All plans cost less than `NO_COST`.
    words_are_plans();
    plans_cost_less();
    let root = partial.depth();
    let mut spending = Spending::first(budget);
    let mut found = LastOffer::nothing();
    found.offer_complete(alloc, partial, board)?;
    let mut next = 0;
    loop {
        match partial.next_child(next) {
            Some(_) if spending.is_over(board) => {
                let spent = spending.spent;
                return Ok(Ended::Unfinished { spent, low });
            }
            Some(symbol) => {
                spending.look();
                let incumbent = board.least();
                if let Some(tally) = partial.promising(tables, symbol, incumbent, found.cost()) {
                    partial.push_counted(symbol, tally);
                    found.offer_complete(alloc, partial, board)?;
                    next = 0;
                } else {
                    next = symbol + 1;
                }
            }
            None if partial.depth() == root => {
                let spent = spending.spent;
                let first = found.into_plan();
                return Ok(Ended::Finished { spent, first });
            }
            None => next = partial.pop() + 1,
        }
    }
}
