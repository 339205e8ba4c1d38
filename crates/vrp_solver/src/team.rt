//! All workers: made, run in threads, and joined.
ghost use Rattle.std.specs.Prelude.{◌≡◌, ◌+◌, IfOk, [], false, vec_len};
ghost use Rattle.std.specs.List.{All};
ghost use Rattle.vrp_sharing.specs.Pile.{IsNewPile};
ghost use Rattle.vrp_answer.specs.Outcomes.{words_of};
ghost use Rattle.vrp_solver.specs.Inner.Workers.{AreBack, ArePrefixes, AreNewCallers, CanWork, HasHelped, HasWorked, HaveHelped, IsPartly, IsTeam};

use crate::worker::Worker;
use std::sync::Wait;
use std::sync::ledger::Ledger;
use std::thread::{Threads, for_each_mut, join};
use vrp_answer::{Gate, Searched, Shared};
use vrp_model::NoMemory;
use vrp_sharing::{Caller, Owner, Register, Thief};

/// The register's callers after all have worked, and the outcomes of the pieces. The lead offers the heuristic plan, if there
/// is one, before the search.
pub(crate) fn searched_by_all<
    'a,
    R: Threads + Wait + Sync,
    L: Ledger + Send + Sync,
    G: Gate + Sync,
>(
    shared: &Shared<'a, R, G>,
    register: &Register<L>,
    owner: Owner,
    thieves: Vec<Thief>,
    callers: Vec<Caller<L>>,
) -> Result<(Vec<Caller<L>>, Searched), NoMemory>
    requires pile { IsNewPile (words_of owner.put) (vec_len thieves) owner thieves.items }
    requires prefixes { ArePrefixes shared.now owner.put }
    requires callers { AreNewCallers register.now callers.items }
    requires as_many { vec_len callers ≡ vec_len thieves + 1 }
    requires all { register.now.callers ≡ vec_len callers }
    ensures back { IfOk result (λ found. AreBack shared.now register.entry.now found.0.items found.1) }
    ensures put { IfOk result (λ found. found.1.pile.put ≡ owner.put) }
{
    let (lead, helpers) = new_team(shared, register, owner, thieves, callers)?;
    all_searched(shared, lead, helpers)
}

// Worker 0, which draws as the owner of the pile, and a helper for each thief. Each is one of the callers.
fn new_team<'a, R: Wait, L: Ledger, G: Gate>(
    shared: &Shared<'a, R, G>,
    register: &'a Register<L>,
    owner: Owner,
    mut thieves: Vec<Thief>,
    mut callers: Vec<Caller<L>>,
) -> Result<(Worker<'a, Owner, R, L, G>, Vec<Worker<'a, Thief, R, L, G>>), NoMemory>
    requires pile { IsNewPile (words_of owner.put) (vec_len thieves) owner thieves.items }
    requires prefixes { ArePrefixes shared.now owner.put }
    requires callers { AreNewCallers register.now callers.items }
    requires as_many { vec_len callers ≡ vec_len thieves + 1 }
    requires all { register.now.callers ≡ vec_len callers }
    ensures team { IfOk result (λ team. IsTeam shared.now register.entry.now team.0 team.1.items) }
    ensures fine { IfOk result (λ team. All (λ helper. helper.refused ≡ false) team.1.items) }
    ensures put { IfOk result (λ team. team.0.drawer.put ≡ owner.put) }
{
    let mut helpers = Vec::with_capacity(shared.alloc, thieves.len())?;
    while let Some(thief) = thieves.pop() {
        let Some(caller) = callers.pop() else {
            unreachable!()
        };
        helpers.push(Worker::new(shared, register, caller, thief))?;
    }
    let Some(caller) = callers.pop() else {
        unreachable!()
    };
    Ok((Worker::new(shared, register, caller, owner), helpers))
}

// The lead and the helpers, after each has worked in its own thread, if one could be made.
fn run_workers<'a, 'b, R: Threads + Wait + Sync, L: Ledger + Send + Sync, G: Gate + Sync>(
    shared: &Shared<'_, R, G>,
    lead: Worker<'a, Owner, R, L, G>,
    helpers: Vec<Worker<'b, Thief, R, L, G>>,
) -> Result<(Worker<'a, Owner, R, L, G>, Vec<Worker<'b, Thief, R, L, G>>), NoMemory>
    requires team { IsTeam shared.now lead.board.register lead helpers.items }
    requires fine { All (λ helper. helper.refused ≡ false) helpers.items }
    ensures team { IfOk result (λ team. IsTeam shared.now lead.entry.board.register team.0 team.1.items) }
    ensures put { IfOk result (λ team. team.0.drawer.put ≡ lead.entry.drawer.put) }
{
    if helpers.is_empty() {
        return Ok((lead.led(shared)?, helpers));
    }
    let (lead, helpers) = join(
        shared.rt,
        || -> Result<Worker<'_, Owner, R, L, G>, NoMemory>
            requires { CanWork shared.now lead }
            ensures { IfOk result (HasWorked shared.entry.now lead.entry) }
        { lead.led(shared) },
        || -> Vec<Worker<'_, Thief, R, L, G>>
            requires { All (CanWork shared.now) helpers.items }
            ensures { HaveHelped shared.entry.now helpers.entry.items result.items }
        { helped(shared, helpers) },
    );
    Ok((lead?, helpers))
}

// The helpers, after each has worked in its own thread, if one could be made.
fn helped<'a, R: Threads + Wait + Sync, L: Ledger + Send + Sync, G: Gate + Sync>(
    shared: &Shared<'_, R, G>,
    mut helpers: Vec<Worker<'a, Thief, R, L, G>>,
) -> Vec<Worker<'a, Thief, R, L, G>>
    requires { All (CanWork shared.now) helpers.items }
    ensures { HaveHelped shared.now helpers.entry.items result.items }
{
    let threads = helpers.len().max(1);
    for_each_mut(
        shared.rt,
        helpers.as_mut_slice(),
        threads,
        &|_, helper: &mut Worker<'_, Thief, R, L, G>|
            requires { CanWork shared.now helper.now }
            ensures { HasHelped shared.entry.now helper.entry.now helper.exit.now }
        { helper.help(shared) },
    );
    helpers
}

// The callers and the outcomes, after all have worked. Then the lead takes in the helpers and continues to draw, since they
// may have left pieces.
fn all_searched<R: Threads + Wait + Sync, L: Ledger + Send + Sync, G: Gate + Sync>(
    shared: &Shared<'_, R, G>,
    mut lead: Worker<'_, Owner, R, L, G>,
    helpers: Vec<Worker<'_, Thief, R, L, G>>,
) -> Result<(Vec<Caller<L>>, Searched), NoMemory>
    requires team { IsTeam shared.now lead.board.register lead helpers.items }
    requires fine { All (λ helper. helper.refused ≡ false) helpers.items }
    ensures back { IfOk result (λ found. AreBack shared.now lead.entry.board.register found.0.items found.1) }
    ensures put { IfOk result (λ found. found.1.pile.put ≡ lead.entry.drawer.put) }
{
    lead.offer(shared, shared.start_plan)?;
    let (mut lead, helpers) = run_workers(shared, lead, helpers)?;
    let callers = taken_over(shared, &mut lead, helpers)?;
    drain_pile(shared, lead, callers)
}

// The helpers' callers, once the lead has taken in all helpers.
fn taken_over<R: Wait, L: Ledger, G: Gate>(
    shared: &Shared<'_, R, G>,
    lead: &mut Worker<'_, Owner, R, L, G>,
    helpers: Vec<Worker<'_, Thief, R, L, G>>,
) -> Result<Vec<Caller<L>>, NoMemory>
    requires { IsTeam shared.now lead.old.board.register lead.old helpers.items }
    ensures { IfOk result (λ callers.
        IsPartly shared.now lead.old.board.register lead.old.drawer.put callers.items [] lead.new) }
{
    let mut callers = Vec::new(shared.alloc);
    for helper in helpers {
        callers.push(lead.take_over(shared, helper)?)?;
    }
    Ok(callers)
}

// All callers and all outcomes, once the lead, which has taken in all helpers, has drawn the remaining pieces.
fn drain_pile<R: Wait, L: Ledger, G: Gate>(
    shared: &Shared<'_, R, G>,
    mut lead: Worker<'_, Owner, R, L, G>,
    mut callers: Vec<Caller<L>>,
) -> Result<(Vec<Caller<L>>, Searched), NoMemory>
    requires { IsPartly shared.now lead.board.register lead.drawer.put callers.items [] lead }
    ensures back { IfOk result (λ found. AreBack shared.now lead.entry.board.register found.0.items found.1) }
    ensures put { IfOk result (λ found. found.1.pile.put ≡ lead.entry.drawer.put) }
{
    lead.draw_all(shared)?;
    let (caller, searched) = lead.into_searched();
    callers.push(caller)?;
    Ok((callers, searched))
}
