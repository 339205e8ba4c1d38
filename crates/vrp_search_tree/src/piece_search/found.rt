//! The last plan that a search offered to its board.
ghost use Rattle.std.specs.Prelude.{◌≡◌, ◌≤◌, OnOk, None};
ghost use Rattle.vrp_model.specs.Cheapest.{cost_of};
ghost use Rattle.vrp_search_tree.specs.Inner.LastOffer.{IsLastOffer};

use crate::partial::Partial;
use crate::piece_search::board::Board;
use std::alloc::Global;
use vrp_model::{NO_COST, NoMemory, Plan};

/// The last plan that a search offered, if any. It costs less than those that were offered before.
#[derive(Drop)]
pub(crate) struct LastOffer {
    plan: Option<Plan>,
    // The plan's cost, `NO_COST` if there is none; read at each partial plan.
    cost: u64,
    ghost priced: { cost ≡ cost_of plan },
}

impl LastOffer {
    /// No plan yet.
    pub(crate) fn nothing() -> LastOffer
        ensures { result.plan ≡ None }
    {
        LastOffer {
            plan: None,
            cost: NO_COST,
        }
    }

    /// The plan's cost, `NO_COST` if there is none.
    #[inline(always)]
    pub(crate) fn cost(&self) -> u64
        ensures { result ≡ cost_of self.now.plan }
    {
        self.cost
    }

    /// The plan.
    pub(crate) fn into_plan(self) -> Option<Plan>
        ensures { result ≡ self.plan }
    {
        self.plan
    }

    /// If the word is complete and costs less than the kept plan, offers its plan to the board and keeps it.
    // Few words are complete, and the test runs at each push.
    #[inline(always)]
    pub(crate) fn offer_complete<B: Board>(
        &mut self,
        alloc: Global,
        partial: &Partial<'_>,
        board: &mut B,
    ) -> Result<(), NoMemory>
        requires { B.serves board.old partial.now.problem }
        ensures serves { B.serves board.new partial.now.problem }
        ensures keeps { (earlier : B) → B.keeps earlier board.old → B.keeps earlier board.new }
        ensures falls { B.floor board.new ≤ B.floor board.old }
        ensures kept { OnOk result (IsLastOffer partial.now.problem partial.now.word
            (B.floor board.new) self.old.plan self.new.plan) }
    {
        if partial.complete() && partial.cost() < self.cost {
            let plan = partial.plan(alloc)?;
            board.offer(alloc, &plan)?;
            self.cost = plan.cost();
            self.plan = Some(plan);
        }
        Ok(())
    }
}
