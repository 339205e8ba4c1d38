//! One pass by dual prices that has to end.
ghost use Rattle.std.specs.Prelude.{◌≡◌, IfOk};
ghost use Rattle.vrp_duals.specs.Duals.{AreDualsOf};

use anyhow::{Result, bail};
use vrp_duals::Duals;
use vrp_model::{Crew, CustomerSet, Unhurried};
use vrp_priced_routes::{AliveArcs, Pass, Passed, run_pass};

// The number of labels of a pass.
const MOST_LABELS: usize = 50_000_000;

/// The pass, if no limit is met and nothing is refused.
pub(crate) fn pass_over<'a, 'd, R>(
    crew: &Crew<'_, R, Unhurried>,
    arcs: &AliveArcs<'a>,
    duals: &'d Duals,
    near: &[CustomerSet],
    guess: u64,
) -> Result<Pass<'a, 'd>>
    requires { AreDualsOf arcs.now.problem duals.now }
    ensures { IfOk result (λ pass. pass.arcs.problem ≡ arcs.now.problem) }
{
    match run_pass(crew, arcs, duals, near, guess, MOST_LABELS)? {
        Passed::Closed(pass) => Ok(pass),
        Passed::Met(limit) => bail!("{limit:?}"),
        Passed::Refused(fault) => bail!("{fault:?}"),
    }
}
