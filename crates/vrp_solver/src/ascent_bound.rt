//! A lower bound on all plans by prices that ascent finds.
ghost use Rattle.std.specs.Prelude.{◌≡◌, ◌≤◌, IfOk, IfSome};
ghost use Rattle.vrp_model.specs.Cheapest.{NoneCheaper};
ghost use Rattle.vrp_model.specs.Problem.{place_count};
ghost use Rattle.vrp_model.specs.declared.ng_sets.TheConstants.{MOST_NEAR};

use crate::stage_watch::StageWatch;
use crate::stages::share_of;
use vrp_answer::{Event, Gate, Shared, Stage};
use vrp_bound_prices::{FoundPrices, MAX_BOUND_TABLE, find_prices};
use vrp_model::{NoMemory, Watch, plans_have_words};

// The most customers near each place: with more, a round takes longer than it gains.
const MOST_REMEMBERED: usize = 3;

// From this many customers on better prices pay, so this many customers are near each place.
const MANY_FOR_PRICES: u16 = 60;

const MORE_REMEMBERED: usize = 4;

// About the most steps that a processor does in a millisecond. They set the size of a round; the watch ends the time.
const STEPS_A_MILLISECOND: u64 = 2_000_000;

/// No plan costs less than this, by the prices that ascent finds and the least tours that they allow. 0 without a start plan, which ascent
/// aims at, or if no prices are found. The gate hears the bound. The only error is lack of memory.
pub(crate) fn bound_by_ascent<R, G: Gate>(shared: &Shared<'_, R, G>) -> Result<u64, NoMemory>
    ensures { IfOk result (NoneCheaper shared.now.problem) }
{
    let Some(plan) = shared.start_plan else {
        return Ok(0);
    };
    shared.gate.on_event(Event::Begins(Stage::Prices));
    let found = prices_found(shared, plan.cost())?;
    let Some(
        FoundPrices {
            relaxation,
            ng_sets,
        },
    ) = found
    else {
        return Ok(0);
    };
    // A bound on all words is a bound on all plans.
    plans_have_words();
    let bound = relaxation.lower_bound(shared.alloc, &ng_sets, MAX_BOUND_TABLE);
    drop(relaxation);
    let Some(bound) = bound? else {
        return Ok(0);
    };
    shared.gate.on_event(Event::Bound(bound));
    Ok(bound.rounded_up())
}

// Prices that aim at this cost, found in the stage's part of the remaining time, or else in as many steps as the budget allows.
fn prices_found<'a, R, G: Gate>(
    shared: &Shared<'a, R, G>,
    cost: u64,
) -> Result<Option<FoundPrices<'a>>, NoMemory>
    ensures relaxation { IfOk result (λ found. IfSome found (λ prices. prices.relaxation.problem ≡ shared.now.problem)) }
    ensures ng_sets { IfOk result (λ found. IfSome found (λ prices. prices.ng_sets.places ≡ place_count shared.now.problem)) }
{
    let instance = shared.instance;
    let watch = StageWatch::of_stage(shared, Stage::Prices);
    let steps = match watch.milliseconds_left() {
        Some(part) => part.saturating_mul(STEPS_A_MILLISECOND),
        None => share_of(Stage::Prices, instance.customers(), shared.budget).work_for(
            shared.budget_in_all(),
        ),
    };
    let near = most_remembered(instance.customers());
    find_prices(shared.alloc, instance, cost, near, steps, &watch)
}

// The most customers near each place.
fn most_remembered(customers: u16) -> usize
    ensures { result ≤ MOST_NEAR }
{
    if customers < MANY_FOR_PRICES {
        MOST_REMEMBERED
    } else {
        MORE_REMEMBERED
    }
}
