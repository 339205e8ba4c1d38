//! From an untrusted word to a feasible plan.
ghost use Rattle.std.specs.Prelude.{◌≡◌, ◌≤◌, [], IfNone, IfOk, IfSome};
ghost use Rattle.vrp_model.specs.Route.{IsPlanOf};
ghost use Rattle.vrp_model.specs.Word.{IsLawfulWord, word_of};

use crate::partial::Partial;
use std::alloc::Global;
use vrp_model::{Instance, NoMemory, Plan};

/// The plan of a word, or `None` if it is not a feasible word of the instance. Each symbol is checked before it is pushed, so the
/// word need not be trusted.
pub fn lawful_plan(
    alloc: Global,
    instance: &Instance,
    word: &[u16],
) -> Result<Option<Plan>, NoMemory>
    ensures lawful { IfOk result (λ plan. IfSome plan (IsPlanOf instance.now)) }
    ensures word { IfOk result (λ found. IfSome found (λ plan. word_of plan.routes ≡ word.now)) }
    ensures none { IfOk result (λ found. IfNone found (IsLawfulWord instance.now word.now → ⊥)) }
{
    let mut partial = Partial::root(alloc, instance)?;
    pushed_plan(alloc, &mut partial, word)
}

/// The plan of a word if it is feasible and before this one, by cost and then by word; otherwise this one. The word need not be
/// trusted. The contract leaves open when its plan is taken.
pub fn cheaper_plan(
    alloc: Global,
    instance: &Instance,
    word: &[u16],
    best: Plan,
) -> Result<Plan, NoMemory>
    requires { IsPlanOf instance.now best }
    ensures lawful { IfOk result (IsPlanOf instance.now) }
    ensures no_costlier { IfOk result (λ plan. plan.cost ≤ best.cost) }
{
    match lawful_plan(alloc, instance, word)? {
        Some(plan) if plan.is_before(&best) => Ok(plan),
        _ => Ok(best),
    }
}

// Pushes the symbols of a word as far as possible, and answers its plan if all of it is a feasible word.
fn pushed_plan(
    alloc: Global,
    partial: &mut Partial<'_>,
    word: &[u16],
) -> Result<Option<Plan>, NoMemory>
    requires { partial.old.word ≡ [] }
    ensures lawful { IfOk result (λ plan. IfSome plan (IsPlanOf partial.old.problem)) }
    ensures word { IfOk result (λ found. IfSome found (λ plan. word_of plan.routes ≡ word.now)) }
    ensures none { IfOk result (λ found.
        IfNone found (IsLawfulWord partial.old.problem word.now → ⊥)) }
{
    for symbol in word {
        if !partial.child(*symbol) {
            return Ok(None);
        }
        partial.push(*symbol);
    }
    if !partial.complete() {
        return Ok(None);
    }
    Ok(Some(partial.plan(alloc)?))
}
