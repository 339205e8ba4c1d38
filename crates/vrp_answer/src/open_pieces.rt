//! The unfinished pieces: those that their bounds close, and the least low of the others.
ghost use Rattle.std.specs.Prelude.{◌≡◌, ◌≤◌, Some, false, IfOk, OnOk};
ghost use Rattle.std.specs.List.{All};
ghost use Rattle.vrp_model.specs.Word.{NoneCheaperUnder};
ghost use Rattle.vrp_answer.specs.Answer.{IsOwnLow};
ghost use Rattle.vrp_answer.specs.Inner.Conclusion.{IsSettled, SettlesAll};
ghost use Rattle.vrp_answer.specs.Outcomes.{IsOpenPiece};

use crate::gates::Gate;
use crate::gatherer::Gatherer;
use crate::outcome::{Finished, OpenPiece};
use crate::shared::Shared;
use vrp_bound::Tables;
use vrp_model::NoMemory;
use vrp_search_tree::{one_low, own_low_no_lower};

/// Which pieces are finished, the best plan's cost, `NO_COST` if there is none, and the least of that cost and the lows of
/// the settled pieces.
#[derive(Drop)]
pub(crate) struct OpenPieces {
    pub(crate) gatherer: Gatherer,
    pub(crate) cost: u64,
    pub(crate) low: u64,
}

/// Settles all unfinished pieces, lowest lows first, so that few need their own tables.
pub(crate) fn settle_pieces<R, G: Gate>(
    shared: &Shared<'_, R, G>,
    gatherer: Gatherer,
    mut left: Vec<OpenPiece>,
    cost: u64,
) -> Result<OpenPieces, NoMemory>
    requires { All (λ left. IsOpenPiece shared.now left.piece left) left.items }
    ensures { IfOk result (SettlesAll shared.now gatherer cost left.items) }
{
    // The low by a piece's own tables is unique, and no lower than the one by tables over all customers.
    let _customers = shared.instance.customers();
    one_low();
    own_low_no_lower();
    left.sort_unstable_by_key(|left| left.low);
    let mut open_pieces = OpenPieces {
        gatherer,
        cost,
        low: cost,
    };
    let mut is_open = false;
    for one in left {
        is_open |= open_pieces.settle(shared, &one, is_open)?;
    }
    Ok(open_pieces)
}

impl OpenPieces {
    // Whether the piece's own low may matter. It is no lower than the low over all customers; if that is at least the least
    // so far, the own low changes nothing. But while no piece is open, it may show that this one is finished too.
    fn asks_for_own_low(&self, left: &OpenPiece, is_open: bool) -> bool
        ensures { result ≡ false → self.now.low ≤ left.now.low }
    {
        left.low < self.low || (!is_open && left.low <= self.cost)
    }

    // Settles an unfinished piece: it is finished if each plan under it costs more than the best one; otherwise its low
    // counts. Answers whether it counts.
    fn settle<R, G: Gate>(
        &mut self,
        shared: &Shared<'_, R, G>,
        left: &OpenPiece,
        is_open: bool,
    ) -> Result<bool, NoMemory>
        requires { IsOpenPiece shared.now left.now.piece left.now }
        ensures { OnOk result (IsSettled shared.now self.old left.now self.new) }
    {
        let low = if self.asks_for_own_low(left, is_open) {
            own_low(shared, left)?
        } else {
            left.low
        };
        if self.cost < low {
            // Each piece is left once, so none is refused.
            let _ = self.gatherer.add(Finished {
                number: left.piece.number(),
                floor: self.cost,
                last_offer: None,
            });
        } else {
            self.low = self.low.min(low);
        }
        Ok(low <= self.cost)
    }
}

// The low of an unfinished piece, by tables over its unserved customers.
fn own_low<R, G: Gate>(shared: &Shared<'_, R, G>, left: &OpenPiece) -> Result<u64, NoMemory>
    requires { IsOpenPiece shared.now left.now.piece left.now }
    ensures low { IfOk result (λ low. IsOwnLow shared.now.problem left.now.piece.word (Some low)) }
    ensures none_cheaper { IfOk result (NoneCheaperUnder shared.now.problem left.now.piece.word) }
{
    let _customers = shared.instance.customers();
    own_low_no_lower();
    let unserved = left.piece.unserved(shared.alloc, shared.instance)?;
    let tables = Tables::for_few_looks(shared.alloc, shared.instance, &unserved)?;
    let Some(low) = left.piece.low(shared.alloc, shared.instance, &tables)? else {
        unreachable!()
    };
    Ok(low)
}
