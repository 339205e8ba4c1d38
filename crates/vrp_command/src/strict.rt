//! Whether a plan's file states a wrong cost.
ghost use Rattle.std.specs.Prelude.{◌≡◌};
ghost use Rattle.vrp_command.specs.Strict.{cost_code};

use std::io::Write;
use vrp_command_streams::{Quoted, stated_cost};
use vrp_plan_text::Solution;

// The exit status for a wrong stated cost.
const OTHER_COST: u8 = 6;

/// The exit status of a checked plan, whose file has this text: 6 if it states a wrong cost, which also goes to `errors`, and
/// otherwise 0. The contract leaves the message open.
pub(crate) fn cost_status<E: Write>(solution: &Solution, text: &[u8], errors: &mut E) -> u8
    ensures { result ≡ cost_code solution.now.states_other_cost }
{
    if !solution.states_other_cost {
        return 0;
    }
    let stated = Quoted(stated_cost(text).unwrap_or(&[]));
    let cost = solution.plan.cost();
    let _ = writeln!(
        errors,
        "cvrp: start plan: the stated cost is {stated}, the true one {cost}"
    );
    OTHER_COST
}
