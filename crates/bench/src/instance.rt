//! The instance in a file or of a word, and its heuristic plan.
ghost use Rattle.std.specs.Prelude.{IfOk};
ghost use Rattle.vrp_model.specs.Route.{IsPlanOf};

use anyhow::{Context, Result, ensure};
use std::fs;
use std::rt::Files;
use std::thread::Threads;
use vrp_heuristic::{ENOUGH_MOVES, heuristic_plan};
use vrp_model::{Crew, Instance, MAX_NODES, Plan, Unhurried};

/// The instance in a file. No clause says that it is the one written there: `vrp_text` has that clause for its bytes.
pub(crate) fn read<R: Files + AllocGlobal>(rt: &R, name: &str) -> Result<Instance> {
    let bytes = fs::read(rt, name)?;
    Ok(vrp_text::read(rt.alloc(), &bytes, None)?)
}

/// The instance that a word names: a file, and maybe a limit on trucks behind a colon. No clause says so.
pub(crate) fn instance_of<R: Files + AllocGlobal>(rt: &R, word: &str) -> Result<Instance> {
    let Some((name, trucks)) = word.split_once(':') else {
        return read(rt, word);
    };
    let trucks = trucks.parse::<u16>()?;
    ensure!(1 <= trucks && trucks <= MAX_NODES, "{trucks} trucks");
    Ok(read(rt, name)?.with_trucks(trucks))
}

/// The heuristic plan of an instance, by one worker.
pub(crate) fn plan_by_one<R: AllocGlobal + Threads + Sync>(
    rt: &R,
    instance: &Instance,
) -> Result<Plan>
    ensures { IfOk result (IsPlanOf instance.now) }
{
    let crew = Crew {
        rt,
        alloc: rt.alloc(),
        workers: 1,
        watch: &Unhurried,
    };
    heuristic_plan(&crew, instance, ENOUGH_MOVES)?
        .plan
        .context("no heuristic plan")
}
