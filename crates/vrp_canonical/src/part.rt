//! Parts of the pool that questions are about.
ghost use Rattle.std.specs.Prelude.{◌≡◌, ◌⊎◌, ◌<◌, ◌≤◌, IfOk, IsTrue, bit_and, length};
ghost use Rattle.std.specs.Int.{bit_at};
ghost use Rattle.vrp_canonical.specs.Passing.{IsPart};

use crate::question::Question;
use std::alloc::{AllocError, Global};
use vrp_partition::Route;

/// The routes that a question is about: those from its first place on that have only unserved customers, and are before its other place
/// or lack its customer.
pub fn part_of(alloc: Global, pool: &[Route], question: &Question) -> Result<Vec<Route>, AllocError>
    ensures { IfOk result (λ part. IsPart pool.now question.now.rest.unserved question.now.customer question.now.low question.now.high
        (length pool.now) part.items) }
{
    let mut part = Vec::new(alloc);
    for index in 0..pool.len() {
        if keeps(question, &pool[index], index) {
            part.push(pool[index])?;
        }
    }
    Ok(part)
}

// Whether a question is about the route at a place.
fn keeps(question: &Question, route: &Route, index: usize) -> bool
    ensures from { IsTrue result → question.now.low ≤ index }
    ensures yes { IsTrue result → (index < question.now.high) ⊎ (bit_at route.now.set question.now.customer ≡ 0) }
    ensures no { question.now.low ≤ index → bit_and route.now.set question.now.rest.unserved ≡ route.now.set
        → (index < question.now.high) ⊎ (bit_at route.now.set question.now.customer ≡ 0) → IsTrue result }
{
    if index < question.low || !route.set.is_subset(question.rest.unserved) {
        return false;
    }
    if index < question.high {
        return true;
    }
    !route.set.contains(question.customer)
}
