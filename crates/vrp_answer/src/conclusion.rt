//! Turns the workers' results into a plan and its verdict.
ghost use Rattle.std.specs.Prelude.{◌≡◌, ◌↔◌, ◌≤◌, IfOk, IsTrue, OnOk, is_some, length};
ghost use Rattle.std.specs.Option.{ForSome, option_map};
ghost use Rattle.vrp_model.specs.Cheapest.{cost_of};
ghost use Rattle.vrp_model.specs.Problem.{HasTrucks, customers};
ghost use Rattle.vrp_model.specs.Route.{IsPlanOf};
ghost use Rattle.vrp_search_tree.specs.Cutting.{AreNumbered, IsCutting};
ghost use Rattle.vrp_answer.specs.Answer.{IsAnswer, known_plan};
ghost use Rattle.vrp_answer.specs.Inner.Conclusion.{IsNoLater, IsOfferedTo, IsVerdict, NotesAll};
ghost use Rattle.vrp_answer.specs.Outcomes.{IsSearched, words_of};

use crate::answers::Answer;
use crate::gates::Gate;
use crate::gatherer::Gatherer;
use crate::open_pieces::{OpenPieces, settle_pieces};
use crate::outcome::{OpenPiece, PieceOutcome, Searched};
use crate::shared::Shared;
use std::alloc::Global;
use vrp_model::{NO_COST, NoMemory, Plan, plans_cost_less, plans_have_words};
use vrp_search_tree::one_piece;
use vrp_sharing::Book;

/// The plan and its verdict. The last book opens with the plan of one truck for each customer, if there is one. It is offered
/// the start plan, the plan kept by the register, the best of the workers' own plans, and the last offer of each finished
/// piece. The only error is lack of memory. Public for the crates of vrp_solver alone.
pub fn conclude<R, G: Gate>(
    shared: &Shared<'_, R, G>,
    singles: Option<Plan>,
    kept: Option<&Plan>,
    searched: Searched,
) -> Result<Answer, NoMemory>
    requires singles { ForSome singles (IsPlanOf shared.now.problem) }
    requires some { IsTrue (is_some singles) ↔ HasTrucks shared.now.problem (length (customers shared.now.problem)) }
    requires searched { IsSearched shared.now (cost_of singles) searched }
    requires cutting { IsCutting shared.now.problem (words_of searched.pile.put) }
    requires numbers { AreNumbered searched.pile.put }
    requires pieces { shared.now.pieces ≡ length searched.pile.put }
    ensures answer { IfOk result (IsAnswer shared.now.problem (words_of searched.pile.put) shared.now.budget shared.now.may_stop) }
    ensures no_costlier { IfOk result (λ answer. cost_of (known_plan answer) ≤ cost_of shared.now.start_plan) }
{
    let Searched { outcomes, best, .. } = searched;
    let book = open_book(shared, singles, kept, best.as_ref())?;
    let Notes {
        book,
        gatherer,
        left,
    } = note_outcomes(shared, book, outcomes)?;
    // Facts about words hold for plans, and all plans cost less than `NO_COST`.
    let _customers = shared.instance.customers();
    one_piece();
    plans_have_words();
    plans_cost_less();
    let plan = book.into_plan();
    let cost = known_cost(plan.as_ref());
    let open_pieces = settle_pieces(shared, gatherer, left, cost)?;
    Ok(verdict(plan, open_pieces))
}

// The last book, which was offered the start plan, the plan kept by the register, and the best of the workers' own plans, if
// there are such.
fn open_book<R, G: Gate>(
    shared: &Shared<'_, R, G>,
    singles: Option<Plan>,
    kept: Option<&Plan>,
    best: Option<&Plan>,
) -> Result<Book, NoMemory>
    requires singles { ForSome singles (IsPlanOf shared.now.problem) }
    requires best { ForSome (option_map (λ plan. plan.now) best) (IsPlanOf shared.now.problem) }
    ensures plan_of { IfOk result (λ book. ForSome book.plan (IsPlanOf shared.now.problem)) }
    ensures than_singles { IfOk result (λ book. IsNoLater book.plan singles) }
    ensures than_start { IfOk result (λ book. IsNoLater book.plan shared.now.start_plan) }
    ensures than_best { IfOk result (λ book. IsNoLater book.plan (option_map (λ plan. plan.now) best.entry)) }
{
    let mut book = Book::open(shared.alloc, singles)?;
    offer_some(shared.alloc, &mut book, shared.start_plan)?;
    offer_some(shared.alloc, &mut book, fitting(shared, kept))?;
    offer_some(shared.alloc, &mut book, best)?;
    Ok(book)
}

// The state once all outcomes are recorded.
#[derive(Drop)]
struct Notes {
    // The book, which was offered the last offer of each finished piece.
    book: Book,
    gatherer: Gatherer,
    left: Vec<OpenPiece>,
}

// Records each outcome.
fn note_outcomes<R, G: Gate>(
    shared: &Shared<'_, R, G>,
    mut book: Book,
    outcomes: Vec<PieceOutcome>,
) -> Result<Notes, NoMemory>
    requires { ForSome book.plan (IsPlanOf shared.now.problem) }
    ensures later { IfOk result (λ noted. IsNoLater noted.book.plan book.plan) }
    ensures all { IfOk result (λ noted.
        NotesAll shared.now outcomes.items noted.book.plan noted.gatherer noted.left.items) }
{
    let mut gatherer = Gatherer::new(shared.alloc, shared.pieces)?;
    let mut left = Vec::new(shared.alloc);
    for outcome in outcomes {
        match outcome {
            PieceOutcome::Finished(finished) => {
                offer_some(shared.alloc, &mut book, finished.last_offer.as_ref())?;
                // Each number comes once, so none is refused.
                let _ = gatherer.add(finished);
            }
            PieceOutcome::Unfinished(unfinished) => left.push(unfinished)?,
        }
    }
    Ok(Notes {
        book,
        gatherer,
        left,
    })
}

// A plan of unknown origin, if it is feasible for the instance with its stated cost.
fn fitting<'b, R, G: Gate>(shared: &Shared<'_, R, G>, plan: Option<&'b Plan>) -> Option<&'b Plan>
    ensures { ForSome (option_map (λ plan. plan.now) result) (IsPlanOf shared.now.problem) }
{
    match plan {
        Some(plan) if plan.fits(shared.instance) => Some(plan),
        _ => None,
    }
}

// Offers the book a plan, if there is one. All offers to it are under caller 0.
fn offer_some(alloc: Global, book: &mut Book, plan: Option<&Plan>) -> Result<(), NoMemory>
    ensures { OnOk result (IsOfferedTo book.old.plan (option_map (λ plan. plan.now) plan.entry) book.new.plan) }
{
    if let Some(plan) = plan {
        book.offer(alloc, 0, plan)?;
    }
    Ok(())
}

// The cost of a plan, or `NO_COST` if there is none.
fn known_cost(plan: Option<&Plan>) -> u64
    ensures { result ≡ cost_of (option_map (λ plan. plan.now) plan.entry) }
{
    match plan {
        Some(plan) => plan.cost(),
        None => NO_COST,
    }
}

// The best plan, if there is one, and its verdict.
fn verdict(plan: Option<Plan>, open_pieces: OpenPieces) -> Answer
    ensures { IsVerdict plan open_pieces result }
{
    match (open_pieces.gatherer.missing(), plan) {
        (Some(piece), plan) => Answer::Open {
            plan,
            low: open_pieces.low,
            piece,
        },
        (None, Some(plan)) => Answer::Proven(plan),
        (None, None) => Answer::NoPlan,
    }
}
