//! The canonical plan from the pools of two leaves: the cheapest choice is sought leaf by leaf.
ghost use Rattle.std.specs.Prelude.{◌≡◌, ◌≤◌, ◌+◌, ℕ, List, IfOk, IfSome, length, map, min};
ghost use Rattle.std.specs.List.{All, Contains};
ghost use Rattle.std.specs.Option.{ForSome};
ghost use Rattle.vrp_canonical.specs.Ending.{IfBetter, IfBound, IfCanonical};
ghost use Rattle.vrp_canonical.specs.Leaves.{BoundsLeaf, KeepsChoices};
ghost use Rattle.vrp_canonical.specs.Ordering.{chosen_of};
ghost use Rattle.vrp_model.specs.declared.customers.customer_set.TheConstants.{PLACES};
ghost use Rattle.vrp_model.specs.Cheapest.{NoneCheaper};
ghost use Rattle.vrp_model.specs.Order.{IsCanonical};
ghost use Rattle.vrp_model.specs.Problem.{IsProblem, Problem, place_count};
ghost use Rattle.vrp_model.specs.Route.{IsPlanOf};
ghost use Rattle.vrp_partition.specs.Branching.{IsFound};
ghost use Rattle.vrp_partition.specs.Choice.{NoneBelow};
ghost use Rattle.vrp_partition.specs.Pricing.{MarksWithin};
ghost use Rattle.vrp_partition.specs.declared.route.Route.{Route};
ghost use Rattle.vrp_routes.specs.Pool.{IsPool, IsPoolIn};
ghost use Rattle.vrp_routes.specs.Range.{HaveAll, plans_within};

use crate::canonical::RoutesOutcome;
use crate::known_cost::canonical_plan_as_cheap;
use crate::narrowed::Narrowing;
use crate::ordered::{by_stops, chosen_routes, word_of_choice};
use crate::residual::{Residual, Sought};
use crate::searches::search_for;
use std::alloc::{AllocError, Global};
use std::thread::Threads;
use vrp_model::{Crew, Fleet, Instance, News, NoMemory, Plan, Watch, all_customers};
use vrp_partition::{Chosen, Found, Guide, Route};
use vrp_routes::{PlanRange, RoutePool};
use vrp_search_tree::lawful_plan;

/// A pool of one leaf: complete for the plans in the range.
#[derive(Drop)]
pub struct LeafPool {
    pub range: PlanRange,
    pub pool: RoutePool,
}

/// The guides of both leaves' searches.
#[derive(Clone, Copy)]
pub struct LeafGuides<'a, P> {
    pub few: &'a P,
    pub many: &'a P,
}

/// The canonical plan of an instance, from the pools of two leaves, which together have all plans that cost no more than a limit. The
/// cheapest choice is sought in the leaf of few routes, and then in that of many, as cheap as the first. Then the plan is sought in the
/// pool of the leaf that has a choice of the least cost, or in both pools together if both have one. The search ends unfinished as
/// `canonical_plan` does, and its outcome says the same.
pub fn canonical_plan_of_leaves<R: Threads + Sync, P: Guide + Send, W: Watch + Sync>(
    crew: &Crew<'_, R, W>,
    instance: &Instance,
    few: LeafPool,
    many: LeafPool,
    limit: u64,
    guides: LeafGuides<'_, P>,
    budget: &mut u64,
) -> Result<RoutesOutcome, NoMemory>
    requires few { place_count instance.now ≤ PLACES }
    requires few_pool { IsPoolIn instance.now few.range few.pool }
    requires many_pool { IsPoolIn instance.now many.range many.pool }
    requires all { HaveAll (plans_within limit) few.range many.range }
    ensures canonical { IfOk result (IfCanonical (IsCanonical instance.now)) }
    ensures better { IfOk result (IfBetter (IsPlanOf instance.now)) }
    ensures bound { IfOk result (IfBound (NoneCheaper instance.now)) }
    ensures budget { budget.new ≤ budget.old }
{
    let alloc = crew.alloc;
    // Nothing is known of the plans with many routes.
    let watch = LeafWatch {
        watch: crew.watch,
        elsewhere: 0,
    };
    // Each guide keeps what it learns from its leaf.
    let mut few_guide = guides.few.fork()?;
    let one = choice_of_leaf(
        &crew.watched_by(&watch),
        instance,
        &few,
        limit,
        &mut few_guide,
        budget,
    )?;
    let most = limit.min(one.cost);
    let watch = LeafWatch {
        watch: crew.watch,
        elsewhere: one.lower_bound,
    };
    let mut many_guide = guides.many.fork()?;
    let other = choice_of_leaf(
        &crew.watched_by(&watch),
        instance,
        &many,
        most,
        &mut many_guide,
        budget,
    )?;
    let bounds = LeafBounds {
        few: one.lower_bound,
        many: other.lower_bound,
    };
    let LeafChoice { plan, routes, .. } = cheaper_choice(one, other);
    let Some(plan) = plan else {
        return undecided(None, &bounds, limit);
    };
    let cost = plan.cost();
    if cost > limit || bounds.least() < cost {
        return undecided(Some(plan), &bounds, limit);
    }
    let Some(pool) = pool_of_leaves(alloc, few, many, &bounds, cost)? else {
        return undecided(Some(plan), &bounds, limit);
    };
    let mut guide = if bounds.few > cost {
        many_guide
    } else {
        few_guide
    };
    let routes = routes.as_slice();
    canonical_plan_as_cheap(crew, instance, &pool, plan, routes, &mut guide, budget)
}

// The watch of a search in one leaf. All plans outside it cost at least so much, so what it hears of a lower bound holds for all plans.
#[derive(Clone, Copy, Debug)]
struct LeafWatch<'a, W> {
    watch: &'a W,
    elsewhere: u64,
}

impl<W: Watch> Watch for LeafWatch<'_, W> {
    fn should_continue(&self) -> bool {
        self.watch.should_continue()
    }

    fn milliseconds_left(&self) -> Option<u64> {
        self.watch.milliseconds_left()
    }

    fn on_news(&self, news: News) {
        let news = match news {
            News::Nodes {
                done,
                open,
                incumbent,
                lower_bound,
            } => News::Nodes {
                done,
                open,
                incumbent,
                lower_bound: lower_bound.min(self.elsewhere),
            },
            other => other,
        };
        self.watch.on_news(news);
    }
}

// The cheapest choice of a leaf that a search found. No clause pins the cost: it is one more than the limit if none was found, and it only
// says what is asked next.
#[derive(Drop)]
struct LeafChoice {
    cost: u64,
    // Its plan.
    plan: Option<Plan>,
    // Its routes, which no clause pins.
    routes: Vec<Route>,
    // If the canonical plan is in the leaf, it costs no less.
    lower_bound: u64,
}

// The cheaper of two choices.
fn cheaper_choice(one: LeafChoice, other: LeafChoice) -> LeafChoice
    ensures { (p : Problem) → IfSome one.plan (IsPlanOf p) → IfSome other.plan (IsPlanOf p) → IfSome result.plan (IsPlanOf p) }
{
    if one.cost <= other.cost { one } else { other }
}

// For each leaf: if the canonical plan is in it, it costs no less.
#[derive(Clone, Copy)]
struct LeafBounds {
    few: u64,
    many: u64,
}

impl LeafBounds {
    fn least(&self) -> u64
        ensures { result ≡ min self.now.few self.now.many }
    {
        self.few.min(self.many)
    }
}

// An unfinished outcome: a plan, and the lower bound of both leaves, which holds up to the limit alone.
fn undecided(
    better: Option<Plan>,
    bounds: &LeafBounds,
    limit: u64,
) -> Result<RoutesOutcome, NoMemory>
    ensures canonical { IfOk result (IfCanonical (λ _. ⊥)) }
    ensures better { (p : Problem) → IfSome better (IsPlanOf p) → IfOk result (IfBetter (IsPlanOf p)) }
    ensures bound { IfOk result (IfBound (λ bound. (bound ≤ bounds.now.few) × (bound ≤ bounds.now.many) × (bound ≤ limit + 1))) }
{
    let lower_bound = bounds.least().min(limit.saturating_add(1));
    Ok(RoutesOutcome::Unfinished {
        better,
        lower_bound,
    })
}

// The cheapest choice of a leaf within a cost limit, as far as the search for it comes.
fn choice_of_leaf<R: Threads + Sync, P: Guide + Send, W: Watch>(
    crew: &Crew<'_, R, W>,
    instance: &Instance,
    leaf: &LeafPool,
    most: u64,
    guide: &mut P,
    budget: &mut u64,
) -> Result<LeafChoice, NoMemory>
    requires few { place_count instance.now ≤ PLACES }
    requires pool { IsPoolIn instance.now leaf.now.range leaf.now.pool }
    ensures plan { IfOk result (λ found. IfSome found.plan (IsPlanOf instance.now)) }
    ensures bound { IfOk result (λ found. BoundsLeaf instance.now leaf.now.range found.lower_bound) }
    ensures budget { budget.new ≤ budget.old }
    // What is known of every instance.
    ensures problem { IsProblem instance.now }
{
    let alloc = crew.alloc;
    let unserved = all_customers(instance);
    let fleet = Fleet::of_instance(alloc, instance)?;
    let Some(routes) = chosen_routes(alloc, &leaf.pool)? else {
        return Ok(unknown(alloc, most));
    };
    let sought = Sought {
        rest: Residual {
            unserved,
            trucks: trucks_of(&leaf.range, fleet.trucks),
            most,
        },
        least_routes: leaf.range.least_routes,
    };
    let Some(found) = choice_for(crew, &fleet, routes.as_slice(), &sought, guide, budget)? else {
        return Ok(unknown(alloc, most));
    };
    let plan = plan_of(alloc, instance, &leaf.pool, routes.as_slice(), &found.best)?;
    Ok(LeafChoice {
        cost: found.best.cost,
        plan,
        routes: found.best.routes,
        lower_bound: found.lower_bound,
    })
}

// Nothing is known of a leaf.
fn unknown(alloc: Global, most: u64) -> LeafChoice
    ensures plan { IfSome result.plan (λ _. ⊥) }
    ensures bound { result.lower_bound ≡ 0 }
{
    LeafChoice {
        cost: most.saturating_add(1),
        plan: None,
        routes: Vec::new(alloc),
        lower_bound: 0,
    }
}

// The trucks of a leaf: the fleet's, or as many as its plans have routes at most.
fn trucks_of(range: &PlanRange, trucks: u8) -> u8
    ensures { (count : ℕ) → count ≤ trucks → ForSome range.now.most_routes (λ most. count ≤ most) → count ≤ result }
{
    match range.most_routes {
        Some(most) if most < u16::from(trucks) => most as u8,
        _ => trucks,
    }
}

// The cheapest choice so far, and a lower bound on all.
#[derive(Drop)]
struct BoundedChoice {
    best: Chosen,
    lower_bound: u64,
}

// The cheapest choice of routes that is sought, after the routes are narrowed. The guide keeps what it learns from them.
fn choice_for<R: Threads + Sync, P: Guide + Send, W: Watch>(
    crew: &Crew<'_, R, W>,
    fleet: &Fleet,
    routes: &[Route],
    sought: &Sought,
    guide: &mut P,
    budget: &mut u64,
) -> Result<Option<BoundedChoice>, NoMemory>
    ensures bound { IfOk result (λ answer. IfSome answer (λ found. NoneBelow routes.now sought.now.rest.unserved sought.now.rest.trucks
        sought.now.least_routes found.lower_bound)) }
    ensures budget { budget.new ≤ budget.old }
{
    let narrowing = Narrowing {
        alloc: crew.alloc,
        watch: crew.watch,
        fleet,
    };
    let Some(marks) = narrowing.marks_for(guide, routes, sought, budget)? else {
        return Ok(None);
    };
    let kept = routes_kept(crew.alloc, routes, marks.as_slice())?;
    let found = search_for(crew, guide, fleet, kept.as_slice(), sought, budget)?;
    match found {
        Some(found) => Ok(Some(bounded(found, sought.rest.most))),
        None => Ok(None),
    }
}

// The cheapest choice that a search found within a limit. The lower bound is at most one more than the limit.
fn bounded(found: Found, most: u64) -> BoundedChoice
    ensures bound { (routes : List Route) (customers trucks fewest : ℕ) → IsFound routes customers trucks fewest (most + 1) found
        → NoneBelow routes customers trucks fewest result.lower_bound × (result.lower_bound ≤ most + 1) }
{
    let (best, lower_bound) = match found {
        Found::Cheapest(chosen) => {
            let cost = chosen.cost;
            (chosen, cost)
        }
        Found::Unfinished { best, lower_bound } => (best, lower_bound),
    };
    BoundedChoice {
        best,
        lower_bound: lower_bound.min(most.saturating_add(1)),
    }
}

// The marked routes.
fn routes_kept(alloc: Global, routes: &[Route], marks: &[bool]) -> Result<Vec<Route>, AllocError>
    requires { length marks.now ≡ length routes.now }
    ensures { IfOk result (λ kept. (customers trucks fewest limit : ℕ) → MarksWithin routes.now customers trucks fewest limit marks.now
        → KeepsChoices routes.now customers trucks fewest limit kept.items) }
{
    let mut kept = Vec::new(alloc);
    for at in 0..routes.len() {
        if marks[at] {
            kept.push(routes[at])?;
        }
    }
    Ok(kept)
}

// The plan of a choice of a pool's routes, if it is one. `routes` are those of the pool, as a choice sees them.
fn plan_of(
    alloc: Global,
    instance: &Instance,
    pool: &RoutePool,
    routes: &[Route],
    best: &Chosen,
) -> Result<Option<Plan>, NoMemory>
    requires { length routes.now ≡ length pool.now }
    ensures { IfOk result (λ plan. IfSome plan (IsPlanOf instance.now)) }
{
    // The search found the routes in another order.
    let sorted = by_stops(alloc, pool, routes, best.routes.as_slice())?;
    let word = word_of_choice(alloc, pool, routes, sorted.as_slice())?;
    lawful_plan(alloc, instance, &word)
}

// The pool for all plans that cost as little as the canonical one: that of the leaf which alone may have it, or both pools. `None` if there
// is no room for both.
fn pool_of_leaves(
    alloc: Global,
    few: LeafPool,
    many: LeafPool,
    bounds: &LeafBounds,
    least: u64,
) -> Result<Option<RoutePool>, NoMemory>
    ensures { IfOk result (λ found. IfSome found (λ pool. (p : Problem) (limit : ℕ) → least ≤ limit
        → IsPoolIn p few.range few.pool → IsPoolIn p many.range many.pool → HaveAll (plans_within limit) few.range many.range
        → BoundsLeaf p few.range bounds.now.few → BoundsLeaf p many.range bounds.now.many → IsPool p least pool)) }
{
    if bounds.many > least {
        return Ok(Some(few.pool));
    }
    if bounds.few > least {
        return Ok(Some(many.pool));
    }
    let mut pool = few.pool;
    if pool.add(alloc, &many.pool)? {
        Ok(Some(pool))
    } else {
        Ok(None)
    }
}
