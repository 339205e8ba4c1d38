//! The place of the next route within a run, found by halving.
ghost use Rattle.std.specs.Prelude.{◌≡◌, ◌+◌, ◌<◌, ◌≤◌, ℕ, List, IfOk, IfSome, length};
ghost use Rattle.std.specs.Int.{bit_at};
ghost use Rattle.std.specs.List.{All};
ghost use Rattle.vrp_canonical.specs.Asking.{Answers, IsRight};
ghost use Rattle.vrp_canonical.specs.Passing.{AllHave, IsBegun, IsNarrowed};
ghost use Rattle.vrp_canonical.specs.Reaching.{IsTask};
ghost use Rattle.vrp_canonical.specs.declared.residual.Residual.{Residual};
ghost use Rattle.vrp_model.specs.declared.customers.customer_set.TheConstants.{PLACES};
ghost use Rattle.vrp_model.specs.Problem.{Problem};

use crate::part::part_of;
use crate::question::{Answered, Question, answer_to};
use crate::searches::Searches;
use std::alloc::{AllocError, Global};
use std::thread::Threads;
use vrp_model::Watch;
use vrp_partition::{Guide, Route};

/// The place of the next route of the canonical plan, if it is in a run of routes that share a customer, and otherwise the end of the
/// run. Each question asks for a route between two places of the run; known answers are used. `None` if an answer is unknown.
pub fn narrow<R: Threads + Sync, P: Guide + Send, W: Watch + Sync>(
    alloc: Global,
    searches: &mut Searches<'_, R, P, W>,
    pool: &[Route],
    answers: &[Answered],
    question: &Question,
) -> Result<Option<usize>, AllocError>
    requires right { All (IsRight pool.now) answers.now }
    requires unserved { bit_at question.now.rest.unserved question.now.customer ≡ 1 }
    requires end { question.now.high ≤ length pool.now }
    requires some { question.now.low < question.now.high }
    requires have { AllHave pool.now question.now.rest.unserved question.now.customer question.now.low question.now.high }
    ensures from { IfOk result (λ answer. IfSome answer (λ at. question.now.low ≤ at)) }
    ensures to { IfOk result (λ answer. IfSome answer (λ at. at ≤ question.now.high)) }
    ensures next { IfOk result (λ answer. IfSome answer (λ at. (p : Problem) (limit : ℕ) (stops : List (List ℕ))
        (whole : Residual) (chosen : List ℕ) → (task : IsTask p limit stops pool.now whole)
        → IsBegun p stops task.plan whole question.now.low chosen question.now.rest
        → IsNarrowed p stops task.plan whole chosen question.now.rest question.now.high at)) }
{
    let Some(some) = answer_of(alloc, searches, pool, answers, question)? else {
        return Ok(None);
    };
    if !some {
        return Ok(Some(question.high));
    }
    let customer = question.customer;
    let mut low = question.low;
    let mut high = question.high;
    while high - low > 1 {
        let middle = middle_between(searches, pool, customer, low, high);
        let lower_half = Question {
            rest: question.rest,
            customer,
            low,
            high: middle,
        };
        let Some(lower) = answer_of(alloc, searches, pool, answers, &lower_half)? else {
            return Ok(None);
        };
        if lower {
            high = middle;
        } else {
            low = middle;
        }
    }
    Ok(Some(low))
}

// The answer to a question: a known one, or one by a search.
fn answer_of<R: Threads + Sync, P: Guide + Send, W: Watch + Sync>(
    alloc: Global,
    searches: &mut Searches<'_, R, P, W>,
    pool: &[Route],
    answers: &[Answered],
    question: &Question,
) -> Result<Option<bool>, AllocError>
    requires right { All (IsRight pool.now) answers.now }
    ensures { IfOk result (λ answer. IfSome answer (Answers pool.now question.now)) }
{
    if let Some(answered) = answer_to(answers, question) {
        let yes = answered.yes;
        if yes {
            searches.know(answered.choice.as_slice())?;
        }
        return Ok(Some(yes));
    }
    let answer = searched_answer(alloc, searches, pool, question)?;
    Ok(answer)
}

// The answer to a question by a search.
fn searched_answer<R: Threads + Sync, P: Guide + Send, W: Watch + Sync>(
    alloc: Global,
    searches: &mut Searches<'_, R, P, W>,
    pool: &[Route],
    question: &Question,
) -> Result<Option<bool>, AllocError>
    ensures { IfOk result (λ answer. IfSome answer (Answers pool.now question.now)) }
{
    let part = part_of(alloc, pool, question)?;
    searches.reaches(part.as_slice(), &question.rest)
}

// A place between two others to ask up to: just before the place of the likely route, or just behind it.
fn middle_between<R: Threads + Sync, P: Guide + Send, W: Watch + Sync>(
    searches: &Searches<'_, R, P, W>,
    pool: &[Route],
    customer: u16,
    low: usize,
    high: usize,
) -> usize
    requires customer { customer < PLACES }
    requires some { low + 1 < high }
    requires high { high ≤ length pool.now }
    ensures from { low < result }
    ensures to { result < high }
{
    match likely_place(pool, low, high, searches.likely(customer)) {
        Some(at) if low < at => at,
        Some(_) => low + 1,
        None => low + (high - low) / 2,
    }
}

/// The first place between two others of a route with this set and cost.
pub fn likely_place(pool: &[Route], low: usize, high: usize, route: Option<Route>) -> Option<usize>
    requires { high ≤ length pool.now }
    ensures from { IfSome result (λ at. low ≤ at) }
    ensures to { IfSome result (λ at. at < high) }
{
    let route = route?;
    for at in low..high {
        let other = &pool[at];
        if other.set == route.set && other.cost == route.cost {
            return Some(at);
        }
    }
    None
}
