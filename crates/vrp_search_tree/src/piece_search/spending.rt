//! The count of partial plans that a search has looked at, within its budget, and when it asks its board whether to continue.
ghost use Rattle.std.specs.Prelude.{◌≡◌, ◌⊎◌, ◌+◌, ◌<◌, ◌≤◌, IsTrue, false};

use crate::piece_search::board::{Board, LOOKS_BEFORE_ASKING};

/// A count of the partial plans looked at, within a budget.
#[derive(Drop)]
pub(crate) struct Spending {
    pub(crate) spent: u64,
    budget: u64,
    // At this count the board is asked whether to continue, or the budget is spent.
    pause: u64,
    ghost some: { 1 ≤ spent },
    ghost until: { spent ≤ pause },
    ghost within: { pause ≤ budget },
}

impl Spending {
    /// The count after the first partial plan of a budget.
    pub(crate) fn first(budget: u64) -> Spending
        requires { 1 ≤ budget }
        ensures spent { result.spent ≡ 1 }
        ensures budget { result.budget ≡ budget }
    {
        Spending {
            spent: 1,
            budget,
            pause: budget.min(LOOKS_BEFORE_ASKING),
        }
    }

    /// Whether the search must stop: the budget is spent, or the board, which is asked from time to time, says so.
    // Called before each partial plan.
    #[inline(always)]
    pub(crate) fn is_over<B: Board>(&mut self, board: &B) -> bool
        ensures spent { self.new.spent ≡ self.old.spent }
        ensures budget { self.new.budget ≡ self.old.budget }
        ensures over { IsTrue result
            → (self.new.spent ≡ self.new.budget) ⊎ IsTrue (B.may_stop board.now) }
        ensures more { result ≡ false → self.new.spent < self.new.pause }
    {
        if self.spent < self.pause {
            return false;
        }
        if self.spent == self.budget || !board.should_continue() {
            return true;
        }
        self.pause = self
            .budget
            .min(self.spent.saturating_add(LOOKS_BEFORE_ASKING));
        false
    }

    /// Counts one more partial plan.
    #[inline(always)]
    pub(crate) fn look(&mut self)
        requires { self.old.spent < self.old.pause }
        ensures spent { self.new.spent ≡ self.old.spent + 1 }
        ensures budget { self.new.budget ≡ self.old.budget }
    {
        self.spent += 1;
    }
}
