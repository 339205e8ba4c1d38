//! Two leaves where the number of routes in a solution isn't whole: plans with few routes, and plans with more. Each gets prices of its own,
//! and together they have all plans.
ghost use Rattle.std.specs.Prelude.{◌≡◌, ◌⊎◌, ◌≤◌, ℕ, List, IfOk, IfSome};
ghost use Rattle.vrp_column_generation.specs.Pools.{ArePools};
ghost use Rattle.vrp_column_generation.specs.Progress.{AreFor};
ghost use Rattle.vrp_model.specs.declared.customers.customer_set.TheConstants.{PLACES};
ghost use Rattle.vrp_model.specs.Problem.{Problem, place_count};
ghost use Rattle.vrp_priced_routes.specs.Priced.{BoundsPlansIn};
ghost use Rattle.vrp_routes.specs.Pool.{IsPoolIn};
ghost use Rattle.vrp_routes.specs.Range.{HaveAll, IsPart, plans_within};

use crate::generation::Generation;
use crate::guide::Guide;
use crate::last_prices::LastPrices;
use crate::pools::{LeafPools, Pools};
use crate::program_rows::ProgramRow;
use crate::progress::Progress;
use crate::rounds::{AfterRounds, RoundLimits, run_rounds};
use std::thread::Threads;
use vrp_model::{Crew, CustomerSet, Instance, NoMemory, Watch};
use vrp_routes::{Leaves, PlanRange, RoutePool};

/// What column generation leaves that branches: plans with at most so many routes, and plans with more. If it doesn't come to prices for both
/// leaves, those of the root are left.
pub(crate) fn generate_leaves<'a, R: Threads + Sync, W: Watch + Sync>(
    crew: &Crew<'_, R, W>,
    instance: &'a Instance,
    root: Progress<'a>,
    guide: &mut Guide,
    near: Vec<CustomerSet>,
    fewer: u16,
) -> Result<Generation<'a>, NoMemory>
    requires few { place_count instance.now ≤ PLACES }
    requires problem { root.arcs.problem ≡ instance.now }
    requires all { root.arcs.range ≡ plans_within root.arcs.range.limit }
    ensures bound { IfOk result (λ made. BoundsPlansIn root.entry.arcs.problem root.entry.arcs.range made.bound) }
    ensures pools { IfOk result (λ made. IfSome made.pools (ArePools root.entry.arcs.problem root.entry.arcs.range.limit)) }
    ensures prices { IfOk result (λ made. IfSome made.prices (λ prices.
        prices ≡ record { problem = root.entry.arcs.problem; limit = root.entry.arcs.range.limit })) }
{
    let leaves = root.arcs.range().split(fewer);
    let (few_row, many_row) = guide.leaf_rows(fewer);
    let leaf = Leaf {
        range: leaves.few,
        row: few_row,
        elsewhere: root.bound,
    };
    let few = run_leaf(crew, instance, &root, guide, &near, leaf)?;
    let leaf = Leaf {
        range: leaves.many,
        row: many_row,
        elsewhere: few.progress.bound,
    };
    let many = run_leaf(crew, instance, &root, guide, &near, leaf)?;
    let routes = guide.routes()?;
    let bound = few.progress.bound.min(many.progress.bound);
    let pools = pools_of_both(leaves, few.pool, many.pool);
    let prices = prices_of_both(root, few.progress, many.progress, near);
    Ok(Generation {
        bound,
        pools,
        prices,
        routes,
    })
}

// A leaf: its plans, the row that its program has beside the root's, and what all other plans cost at least.
#[derive(Clone, Copy)]
struct Leaf {
    range: PlanRange,
    row: ProgramRow,
    elsewhere: u64,
}

// What comes of rounds in one leaf.
fn run_leaf<'a, R: Threads + Sync, W: Watch + Sync>(
    crew: &Crew<'_, R, W>,
    instance: &'a Instance,
    root: &Progress<'a>,
    guide: &mut Guide,
    near: &[CustomerSet],
    leaf: Leaf,
) -> Result<AfterRounds<'a>, NoMemory>
    requires few { place_count instance.now ≤ PLACES }
    requires problem { root.now.arcs.problem ≡ instance.now }
    requires part { IsPart leaf.range root.now.arcs.range }
    ensures arcs { IfOk result (λ last. AreFor root.now.arcs.problem leaf.range last.progress.arcs) }
    ensures pool { IfOk result (λ last. IfSome last.pool (IsPoolIn root.now.arcs.problem leaf.range)) }
{
    let progress = root.part(crew.alloc, leaf.range)?;
    let Some(mut own) = guide.of_leaf(instance, near, leaf.row)? else {
        return Ok(AfterRounds {
            progress,
            pool: None,
            branch: None,
        });
    };
    let limits = RoundLimits::of_leaf(leaf.elsewhere);
    let last = run_rounds(crew, instance, progress, &mut own, near, limits);
    guide.count_labels(&own);
    drop(own);
    last
}

// The pools of both leaves, if there are both.
fn pools_of_both(leaves: Leaves, few: Option<RoutePool>, many: Option<RoutePool>) -> Option<Pools>
    ensures { (p : Problem) (limit : ℕ) → IfSome few (IsPoolIn p leaves.few) → IfSome many (IsPoolIn p leaves.many)
        → HaveAll (plans_within limit) leaves.few leaves.many → IfSome result (ArePools p limit) }
{
    match (few, many) {
        (Some(few), Some(many)) => Some(Pools::Leaves(LeafPools { leaves, few, many })),
        _ => None,
    }
}

// The last prices of both leaves, or of the root if there are none of some leaf.
fn prices_of_both<'a>(
    root: Progress<'a>,
    few: Progress<'a>,
    many: Progress<'a>,
    near: Vec<CustomerSet>,
) -> Option<LastPrices<'a>>
    requires all { root.arcs.range ≡ plans_within root.arcs.range.limit }
    requires few { few.arcs.problem ≡ root.arcs.problem }
    requires many { many.arcs.problem ≡ root.arcs.problem }
    requires few_limit { few.arcs.range.limit ≡ root.arcs.range.limit }
    requires many_limit { many.arcs.range.limit ≡ root.arcs.range.limit }
    requires leaves { HaveAll root.arcs.range few.arcs.range many.arcs.range }
    ensures { IfSome result (λ prices. prices ≡ record { problem = root.entry.arcs.problem; limit = root.entry.arcs.range.limit }) }
{
    match (few.leaf_prices(), many.leaf_prices()) {
        (Some(leaf), Some(other)) => Some(LastPrices::new(leaf, Some(other), near)),
        _ => match root.leaf_prices() {
            Some(leaf) => Some(LastPrices::new(leaf, None, near)),
            None => None,
        },
    }
}
