//! The places of the canonical plan's routes, by one pass over the pool in the order of its routes' stops.
ghost use Rattle.std.specs.Prelude.{◌<◌, ℕ, List, IfOk, IfSome, length};
ghost use Rattle.std.specs.List.{All};
ghost use Rattle.vrp_canonical.specs.Reaching.{IsTask, plan_at};
ghost use Rattle.vrp_model.specs.Order.{IsCanonical};
ghost use Rattle.vrp_model.specs.Problem.{Problem};

use crate::halving::narrow;
use crate::question::{Answered, Question};
use crate::residual::Residual;
use crate::run::run_from;
use crate::searches::Searches;
use std::alloc::{AllocError, Global};
use std::thread::Threads;
use vrp_model::Watch;
use vrp_partition::{Guide, Route};

/// The places in the pool of the canonical plan's routes, if the pool is in the order of its routes' stops and the residual problem is
/// the whole one at the canonical plan's cost. The routes are taken in runs that share a customer, and questions are asked ahead. `None`
/// if an answer is unknown, or a route has no customer.
pub fn canonical_places<R: Threads + Sync, P: Guide + Send, W: Watch + Sync>(
    alloc: Global,
    searches: &mut Searches<'_, R, P, W>,
    pool: &[Route],
    whole: &Residual,
) -> Result<Option<Vec<usize>>, AllocError>
    ensures within { IfOk result (λ answer. IfSome answer (λ chosen. All (λ at. at < length pool.now) chosen.items)) }
    ensures canonical { IfOk result (λ answer. IfSome answer (λ chosen. (p : Problem) (limit : ℕ) (stops : List (List ℕ))
        → IsTask p limit stops pool.now whole.now → IsCanonical p (plan_at stops chosen.items whole.now.most))) }
{
    let mut chosen = Vec::new(alloc);
    let mut answers = Vec::new(alloc);
    let mut rest = *whole;
    let mut index = 0;
    while index < pool.len() {
        let set = pool[index].set;
        if !set.is_subset(rest.unserved) {
            index += 1;
        } else {
            if set.is_empty() {
                return Ok(None);
            }
            if !reach_to(&answers, index) {
                answers = searches.ask_ahead(pool, &rest, index)?;
            }
            let run = run_from(pool, rest.unserved, index);
            let left = &rest;
            let question = Question {
                rest: *left,
                customer: run.customer,
                low: index,
                high: run.end,
            };
            let Some(at) = narrow(alloc, searches, pool, &answers, &question)? else {
                return Ok(None);
            };
            if at < run.end {
                let Some(next) = rest.without(&pool[at]) else {
                    return Ok(None);
                };
                chosen.push(at)?;
                rest = next;
                index = at + 1;
            } else {
                index = at;
            }
        }
    }
    Ok(Some(chosen))
}

// Whether answers are about this place or later ones. It is not trusted.
fn reach_to(answers: &[Answered], index: usize) -> bool {
    match answers.last() {
        Some(answered) => index <= answered.question.low,
        None => false,
    }
}
