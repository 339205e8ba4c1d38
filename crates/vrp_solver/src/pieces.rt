//! The search of the pieces of a cutting by several workers.
ghost use Rattle.std.specs.Prelude.{◌≡◌, ◌+◌, ◌≤◌, IfOk, length, vec_len};
ghost use Rattle.std.specs.Option.{option_map};
ghost use Rattle.vrp_model.specs.Cheapest.{cost_of};
ghost use Rattle.vrp_sharing.specs.Pile.{IsNewPile};
ghost use Rattle.vrp_search_tree.specs.Cutting.{IsCutting};
ghost use Rattle.vrp_solver.specs.Inner.Pieces.{CanSolve, IsAnswered};
ghost use Rattle.vrp_answer.specs.Answer.{IsAnswer, known_plan};
ghost use Rattle.vrp_answer.specs.Outcomes.{words_of};

use crate::team::searched_by_all;
use std::alloc::Global;
use std::marker::Brand;
use std::sync::Wait;
use std::sync::ledger::{Blank, Ledger};
use std::thread::Threads;
use vrp_answer::{Answer, Event, Gate, Shared, Stage, conclude};
use vrp_model::{NoMemory, Plan};
use vrp_search_tree::Cutting;
use vrp_sharing::{Closed, Owner, Pile, Register, Thief};

/// The most workers that may be requested.
pub const MAX_WORKERS: u32 = 64;

/// Searches all pieces of a cutting by this many workers, who draw them from one pile, and answers with the plan and its verdict.
/// There are at least one worker and at most `MAX_WORKERS`, and the shared data are those of as many pieces. The gate hears how many
/// pieces there are. The answer's plan costs no more than the start plan. The cutting is consumed. The only error is lack of memory.
pub(crate) fn answer_by_pieces<R: Threads + Wait + Sync, G: Gate + Sync>(
    shared: &Shared<'_, R, G>,
    cutting: Cutting,
    workers: u32,
) -> Result<Answer, NoMemory>
    requires { CanSolve shared.now cutting workers }
    ensures { IfOk result (IsAnswered shared.now cutting) }
{
    shared.gate.on_event(Event::PieceCount(shared.pieces));
    shared.gate.on_event(Event::Begins(Stage::Pieces));
    let (owner, thieves) = Pile::new(shared.alloc, cutting, workers - 1)?;
    let blank = Blank::new(u64::from(workers));
    solve_pile::<Brand, R, G>(shared, owner, thieves, blank)
}

/// Tells the gate the cost of a plan, if there is one; no clause says so.
pub(crate) fn report_plan<G: Gate>(gate: &G, plan: Option<&Plan>) {
    if let Some(plan) = plan {
        gate.on_event(Event::Plan(plan.cost()));
    }
}

// Searches all pieces on a pile by workers who draw as its owner and its thieves. The blank becomes the ledger of their accepted
// offers.
fn solve_pile<L: Ledger + Send + Sync, R: Threads + Wait + Sync, G: Gate + Sync>(
    shared: &Shared<'_, R, G>,
    owner: Owner,
    thieves: Vec<Thief>,
    blank: Blank,
) -> Result<Answer, NoMemory>
    requires pile { IsNewPile (words_of owner.put) (vec_len thieves) owner thieves.items }
    requires cutting { IsCutting shared.now.problem (words_of owner.put) }
    requires pieces { shared.now.pieces ≡ length owner.put }
    requires name { blank.name ≡ L.name }
    requires parts { blank.parts ≡ L.parts }
    requires as_many { blank.parts ≡ vec_len thieves + 1 }
    ensures answer { IfOk result (IsAnswer shared.now.problem (words_of owner.put) shared.now.budget shared.now.may_stop) }
    ensures no_costlier { IfOk result (λ answer. cost_of (known_plan answer) ≤ cost_of shared.now.start_plan) }
{
    let singles = Plan::singles(shared.alloc, shared.instance)?;
    let opening = copied(shared.alloc, singles.as_ref())?;
    report_plan(shared.gate, opening.as_ref());
    let workers = thieves.len() as u32 + 1;
    let (register, callers) = Register::<L>::new(shared.alloc, opening, blank, workers)?;
    let (callers, searched) = searched_by_all(shared, &register, owner, thieves, callers)?;
    let Closed { book, .. } = register.close(callers);
    let answer = conclude(shared, singles, book.plan(), searched);
    drop(book);
    answer
}

// A copy of a plan, if there is one.
fn copied(alloc: Global, plan: Option<&Plan>) -> Result<Option<Plan>, NoMemory>
    ensures { IfOk result (λ copy. copy ≡ option_map (λ plan. plan.now) plan.entry) }
{
    match plan {
        Some(plan) => Ok(Some(plan.copy(alloc)?)),
        None => Ok(None),
    }
}
