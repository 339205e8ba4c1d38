//! Rounds of better and better prices, and the passes by them.
ghost use Rattle.std.specs.Prelude.{◌≡◌, IfOk, IfSome};
ghost use Rattle.vrp_column_generation.specs.Progress.{AreFor};
ghost use Rattle.vrp_duals.specs.Duals.{AreDualsOf};
ghost use Rattle.vrp_routes.specs.Pool.{IsPoolIn};

use crate::guide::{Guide, Prices};
use crate::pace::{Decision, Pace};
use crate::progress::{AfterPass, Progress};
use std::thread::Threads;
use vrp_model::{Crew, CustomerSet, Instance, News, NoMemory, Watch};
use vrp_routes::RoutePool;

/// What comes of rounds: the progress, the pool of useful routes if their list is short, and how to go on if it isn't.
#[derive(Drop)]
pub(crate) struct AfterRounds<'a> {
    pub(crate) progress: Progress<'a>,
    pub(crate) pool: Option<RoutePool>,
    /// If two leaves are worth more: how many routes the plans of the one leaf have at most.
    pub(crate) branch: Option<u16>,
}

/// How many rounds of subset rows are made, whether they may end in a branch, and what the plans that aren't sought cost at least.
#[derive(Clone, Copy, Debug)]
pub(crate) struct RoundLimits {
    most: u32,
    may_branch: bool,
    elsewhere: u64,
}

// As many rounds as it takes in a leaf.
const LEAF_ROUNDS: u32 = 400;

impl RoundLimits {
    /// All plans are sought, in so many rounds at most, and then maybe in two leaves.
    pub(crate) fn of_root(most: u32) -> RoundLimits {
        RoundLimits {
            most,
            may_branch: true,
            elsewhere: u64::MAX,
        }
    }

    /// The plans of a leaf are sought. All others cost at least so much.
    pub(crate) fn of_leaf(elsewhere: u64) -> RoundLimits {
        RoundLimits {
            most: LEAF_ROUNDS,
            may_branch: false,
            elsewhere,
        }
    }

    // Whether a branch may come: before the first subset rows, or after the last ones. Then how many times as wide the gap has to be.
    fn branch_at(&self, is_first: bool, is_last: bool) -> Option<i64> {
        if !self.may_branch {
            return None;
        }
        if is_last {
            return Some(1);
        }
        if is_first { Some(2) } else { None }
    }
}

// What the watch hears of a lower bound: column generation works on one node at a time.
fn node_news(limit: u64, lower_bound: u64) -> News {
    News::Nodes {
        done: 0,
        open: 1,
        incumbent: limit,
        lower_bound,
    }
}

/// Makes passes by better and better prices, until the routes are listed, a limit is met, or no better ones are found. Then it says, if it may
/// branch, whether two leaves are worth more.
pub(crate) fn run_rounds<'a, R: Threads + Sync, W: Watch + Sync>(
    crew: &Crew<'_, R, W>,
    instance: &'a Instance,
    progress: Progress<'a>,
    guide: &mut Guide,
    near: &[CustomerSet],
    limits: RoundLimits,
) -> Result<AfterRounds<'a>, NoMemory>
    requires { progress.arcs.problem ≡ instance.now }
    ensures arcs { IfOk result (λ last. AreFor progress.entry.arcs.problem progress.entry.arcs.range last.progress.arcs) }
    ensures pool { IfOk result (λ last. IfSome last.pool (IsPoolIn progress.entry.arcs.problem progress.entry.arcs.range)) }
{
    let limit = progress.arcs.range().limit;
    let mut progress = progress;
    let mut pace = Pace::new(guide.in_price_units(limit));
    for _ in 0..limits.most {
        let Some(prices) = guide.next_prices(crew, instance, progress.arcs.followers())? else {
            break;
        };
        let bound = guide.bound_by(&prices);
        let are_final = prices.are_final;
        let decision = guide.decide(&mut pace, bound, are_final);
        let is_last = decision == Decision::End;
        let branch = match limits.branch_at(are_final && pace.is_first(), is_last) {
            Some(times) => guide.branch_on(times, bound)?,
            None => None,
        };
        let after = progress.pass_if_decided(crew, guide, prices, near, decision)?;
        let AfterPass {
            progress: next,
            pool,
        } = after;
        let on_all = next.bound.min(limits.elsewhere);
        crew.watch.on_news(node_news(limit, on_all));
        if pool.is_some() || is_last || branch.is_some() {
            return Ok(AfterRounds {
                progress: next,
                branch: if pool.is_some() { None } else { branch },
                pool,
            });
        }
        drop(pool);
        progress = next;
        if are_final && guide.add_subset_rows()? == 0 {
            pace.finish();
        }
    }
    Ok(AfterRounds {
        progress,
        pool: None,
        branch: None,
    })
}

impl<'a> Progress<'a> {
    // The pass by these prices, if one was decided on, and the program without the columns whose arcs it leaves out.
    fn pass_if_decided<R: Threads + Sync, W: Watch + Sync>(
        self,
        crew: &Crew<'_, R, W>,
        guide: &mut Guide,
        prices: Prices,
        near: &[CustomerSet],
        decision: Decision,
    ) -> Result<AfterPass<'a>, NoMemory>
        requires { AreDualsOf self.arcs.problem prices.duals }
        ensures arcs { IfOk result (λ after. AreFor self.entry.arcs.problem self.entry.arcs.range after.progress.arcs) }
        ensures pool { IfOk result (λ after. IfSome after.pool (IsPoolIn self.entry.arcs.problem self.entry.arcs.range)) }
    {
        if decision == Decision::GoOn {
            return Ok(AfterPass {
                progress: self,
                pool: None,
            });
        }
        let limits = guide.pass_limits(&prices, decision);
        let AfterPass { progress, pool } = self.pass(crew, &prices.duals, near, limits)?;
        guide.drop_columns(progress.arcs.followers())?;
        Ok(AfterPass {
            progress: progress.keep(prices),
            pool,
        })
    }
}
