//! Guesses from below: the canonical plan is sought within limits below the known plan's cost, the lowest first. A guess without a plan
//! is a lower bound, and one with a plan has the cheapest of all.
ghost use Rattle.std.specs.Prelude.{◌≡◌, ◌≤◌, IfOk, IfSome};
ghost use Rattle.vrp_canonical.specs.Ending.{IfBetter, IfBound, IfCanonical};
ghost use Rattle.vrp_column_generation.specs.Last.{LastPricesOf};
ghost use Rattle.vrp_model.specs.declared.customers.customer_set.TheConstants.{PLACES};
ghost use Rattle.vrp_model.specs.Cheapest.{NoneCheaper};
ghost use Rattle.vrp_model.specs.Order.{IsCanonical};
ghost use Rattle.vrp_model.specs.Problem.{place_count};
ghost use Rattle.vrp_model.specs.Route.{IsPlanOf};
ghost use Rattle.vrp_column_generation.specs.Pools.{ArePools};

use crate::choice::chosen_plan;
use crate::columns::settings_of;
use crate::stage_watch::{StageWatch, crew_of};
use std::thread::Threads;
use vrp_answer::{Event, Gate, Shared, Stage};
use vrp_bound::LowerBound;
use vrp_canonical::RoutesOutcome;
use vrp_column_generation::{LastPrices, Pools};
use vrp_model::{NoMemory, Plan};

// The most guesses.
const MOST_GUESSES: u32 = 16;

// The limits of the guesses, in percent of the gap. With the best plan known, guesses take a little longer than none; with another one
// they save most of the list and of the choice.
const PERCENT: &[u64] = &[50, 65, 80, 100];

// The same for a gap of so many thousandths of the cost and more. It may be due to the known plan, so the first guesses are lower.
const WIDE_GAP: u64 = 6;

const PERCENT_OF_WIDE_GAP: &[u64] = &[20, 35, 50, 65, 80, 100];

/// The canonical plan, among the routes that the last prices of column generation list for one limit after another, up to `most`, the
/// limit of these prices. Where a list is too long, the next limit is half as far above the bound. It isn't found if a limit on labels is met,
/// the budget is spent, or the gate stops the search. No plan costs less than `bound`; a guess without a plan raises it, and the gate hears
/// of that. There are 1 to 64 workers. The only error is lack of memory.
pub(crate) fn plan_by_guesses<R: Threads + Sync, G: Gate + Sync>(
    shared: &Shared<'_, R, G>,
    workers: u32,
    known: &Plan,
    prices: &LastPrices<'_>,
    most: u64,
    bound: u64,
) -> Result<RoutesOutcome, NoMemory>
    requires few { place_count shared.now.problem ≤ PLACES }
    requires some_worker { 1 ≤ workers }
    requires few_workers { workers ≤ 64 }
    requires prices { prices.now ≡ record { problem = shared.now.problem; limit = most } }
    requires bound { NoneCheaper shared.now.problem bound }
    ensures canonical { IfOk result (IfCanonical (IsCanonical shared.now.problem)) }
    ensures better { IfOk result (IfBetter (IsPlanOf shared.now.problem)) }
    ensures bound { IfOk result (IfBound (NoneCheaper shared.now.problem)) }
{
    let first = bound;
    let mut bound = bound;
    // A list for a limit above this is too long.
    let mut reach = most;
    for _ in 0..MOST_GUESSES {
        let limit = next_guess(first, most, bound).min(reach);
        if limit < bound {
            break;
        }
        let Some(pools) = pools_within(shared, workers, prices, limit)? else {
            if limit == bound {
                break;
            }
            reach = bound + (limit - bound) / 2;
            continue;
        };
        match chosen_plan(shared, pools, Some(prices), limit, known, workers)? {
            RoutesOutcome::Canonical(plan) => return Ok(RoutesOutcome::Canonical(plan)),
            RoutesOutcome::Unfinished {
                better,
                lower_bound,
            } => {
                bound = bound.max(lower_bound);
                if lower_bound <= limit {
                    return Ok(RoutesOutcome::Unfinished {
                        better,
                        lower_bound: bound,
                    });
                }
            }
        }
        shared
            .gate
            .on_event(Event::Bound(LowerBound::of_cost(bound)));
    }
    Ok(RoutesOutcome::Unfinished {
        better: None,
        lower_bound: bound,
    })
}

// The lowest limit that is guessed, between the first lower bound and the greatest limit, and not below a bound; the greatest limit if
// there is none.
fn next_guess(first: u64, most: u64, bound: u64) -> u64
    ensures { result ≤ most }
{
    for &percent in percents(first, most) {
        let limit = guess(first, most, percent);
        if limit >= bound {
            return limit;
        }
    }
    most
}

// The percents of the gap that are guessed.
fn percents(bound: u64, most: u64) -> &'static [u64] {
    if most.saturating_sub(bound) < most.saturating_mul(WIDE_GAP) / 1_000 {
        PERCENT
    } else {
        PERCENT_OF_WIDE_GAP
    }
}

// The bound and so many percent of the gap, and no more than the greatest limit.
fn guess(bound: u64, most: u64, percent: u64) -> u64
    ensures { result ≤ most }
{
    let gap = most.saturating_sub(bound);
    let part = gap.saturating_mul(percent) / 100;
    bound.saturating_add(part).min(most)
}

// The routes that may be in the canonical plan, if it costs no more than a limit.
fn pools_within<R: Threads + Sync, G: Gate + Sync>(
    shared: &Shared<'_, R, G>,
    workers: u32,
    prices: &LastPrices<'_>,
    limit: u64,
) -> Result<Option<Pools>, NoMemory>
    requires some_worker { 1 ≤ workers }
    requires few_workers { workers ≤ 64 }
    requires limit { limit ≤ prices.now.limit }
    ensures { IfOk result (λ pools. IfSome pools (ArePools prices.now.problem limit)) }
{
    shared.gate.on_event(Event::Begins(Stage::Columns));
    let settings = settings_of(shared);
    let watch = StageWatch::of_stage(shared, Stage::Columns);
    let crew = crew_of(shared, workers, &watch);
    prices.routes_within(&crew, limit, settings)
}
