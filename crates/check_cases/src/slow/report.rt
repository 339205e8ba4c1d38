//! Reports: their text, and the meaning of their last line.

use std::alloc::{AllocError, Global};

/// The verdict on a cheapest plan.
pub(crate) const PROVEN: &str = "Proven";

/// The verdict if there is no plan.
pub(crate) const NO_PLAN: &str = "NoPlan";

/// The cost counted for a missing plan: more than any plan costs.
pub(crate) const NO_COST: u64 = 4_000_000_000_000;

/// The lower bound stated by the verdict on a plan of this cost, or on none. A verdict without a bound counts as too high a
/// bound.
pub(crate) fn lower(verdict: &str, cost: Option<u64>) -> u64 {
    match (verdict, cost) {
        (PROVEN, Some(cost)) => cost,
        (NO_PLAN, None) => NO_COST,
        _ => match verdict.strip_prefix("Open ") {
            Some(lower) => lower.parse::<u64>().unwrap_or(u64::MAX),
            None => u64::MAX,
        },
    }
}

/// A line for each route, the cost, and the verdict.
pub(crate) fn text(
    alloc: Global,
    routes: &[Vec<i64>],
    cost: u64,
    verdict: &str,
) -> Result<String, AllocError> {
    let mut text = String::new(alloc);
    for (index, route) in routes.iter().enumerate() {
        let number = index.saturating_add(1);
        write!(text, "Route #{number}:")?;
        for stop in route {
            write!(text, " {stop}")?;
        }
        writeln!(text)?;
    }
    writeln!(text, "Cost {cost}\n{verdict}")?;
    Ok(text)
}

/// The verdict alone.
pub(crate) fn text_without_plan(alloc: Global, verdict: &str) -> Result<String, AllocError> {
    format!(in alloc; "{verdict}\n")
}
