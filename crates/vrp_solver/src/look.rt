//! One worker's look at the whole tree, before anything is prepared.
ghost use Rattle.std.specs.Prelude.{◌≤◌, IfOk, IfSome};
ghost use Rattle.vrp_model.specs.Cheapest.{cost_of};
ghost use Rattle.vrp_answer.specs.Answer.{AnswersAll, known_plan};

use crate::pieces::answer_by_pieces;
use crate::stages::share_of;
use std::sync::Wait;
use std::thread::Threads;
use vrp_answer::{Answer, Gate, NoGate, Resources, Shared, Stage};
use vrp_model::NoMemory;
use vrp_search_tree::Cutting;

/// The least budget of a piece with which anything is prepared. With less, a run is a mere look at the tree.
pub const LEAST_PREPARED_BUDGET: u64 = 1_000;

/// The answer of one worker's look at the whole tree, at no more than 20,000 partial plans and no more than the budget. `None` if the
/// budget is below `LEAST_PREPARED_BUDGET`, or the look doesn't suffice. The gate hears nothing. The only error is lack of memory.
pub(crate) fn looked_at<R: Threads + Wait + Sync, G: Gate>(
    shared: &Shared<'_, R, G>,
) -> Result<Option<Answer>, NoMemory>
    ensures answer { IfOk result (λ found. IfSome found (AnswersAll shared.now.problem)) }
    ensures no_costlier { IfOk result (λ found. IfSome found (λ answer. cost_of (known_plan answer) ≤ cost_of shared.now.start_plan)) }
{
    if shared.budget < LEAST_PREPARED_BUDGET {
        return Ok(None);
    }
    let whole = Cutting::whole(shared.alloc, shared.instance)?;
    let look = Shared::new(
        &Resources::new(shared.rt, shared.alloc, &NoGate),
        shared.instance,
        shared.tables,
        shared.start_plan,
        whole.pieces().len() as u32,
        share_of(Stage::FirstLook, shared.instance.customers(), shared.budget).work_for(
            shared.budget,
        ),
    );
    match answer_by_pieces(&look, whole, 1)? {
        Answer::Proven(plan) => Ok(Some(Answer::Proven(plan))),
        Answer::NoPlan => Ok(Some(Answer::NoPlan)),
        Answer::Open { .. } => Ok(None),
    }
}
