//! The routes that may be in a choice within the cost limit, in the order of their stops.
ghost use Rattle.std.specs.Prelude.{◌≡◌, ◌≤◌, ℕ, IfOk, IfSome, map};
ghost use Rattle.vrp_canonical.specs.Ordering.{AreOrdered, chosen_of};
ghost use Rattle.vrp_model.specs.CustomerSet.{set_of};
ghost use Rattle.vrp_model.specs.Fleet.{IsFleet};
ghost use Rattle.vrp_model.specs.Problem.{Problem, customers};
ghost use Rattle.vrp_partition.specs.Pricing.{MarksWithin};
ghost use Rattle.vrp_routes.specs.Pool.{IsPool};

use crate::ordered::{ListedRoute, in_order, kept_routes, marked_routes, routes_of};
use crate::residual::{Residual, Sought};
use std::alloc::Global;
use vrp_model::{Fleet, FleetView, NoMemory, Watch};
use vrp_partition::{Guide, Query, Route, all_fit, routes_within};
use vrp_routes::RoutePool;

/// What narrows routes: the demands and the capacity, and the watch that decides whether more rounds are worth it.
#[derive(Clone, Copy)]
pub struct Narrowing<'a, W> {
    pub alloc: Global,
    pub watch: &'a W,
    pub fleet: &'a Fleet,
}

impl<W: Watch> Narrowing<'_, W> {
    /// The routes of the pool that may be in a choice within the cost limit, in the order of their stops. `routes` are those of the pool,
    /// as a choice sees them. `None` if an amount doesn't fit 32 bits. The contract leaves open how much of the budget is spent.
    pub fn narrowed_routes<P: Guide>(
        &self,
        guide: &mut P,
        pool: &RoutePool,
        routes: &[Route],
        whole: &Residual,
        budget: &mut u64,
    ) -> Result<Option<Vec<ListedRoute>>, NoMemory>
        requires { routes.now ≡ map chosen_of pool.now }
        ensures ordered { IfOk result (λ found. IfSome found (λ ordered. (p : Problem) (limit : ℕ)
            → IsPool p limit pool.now → IsFleet p whole.now.trucks → whole.now.unserved ≡ set_of (customers p) → whole.now.most ≤ limit
            → AreOrdered p whole.now.most ordered.items)) }
        ensures budget { budget.new ≤ budget.old }
    {
        let Some(marks) = self.marks_within(guide, routes, whole, budget)? else {
            return Ok(None);
        };
        let listed = marked_routes(self.alloc, pool, routes, marks.as_slice())?;
        let ordered = in_order(listed)?;
        Ok(ordered)
    }

    /// The routes that may be in a choice within a lower cost limit, in the same order. Half of the budget is kept for what comes after. The
    /// contract leaves open how much of the rest is spent.
    pub fn narrowed_again<P: Guide>(
        &self,
        guide: &mut P,
        ordered: Vec<ListedRoute>,
        before: &Residual,
        whole: &Residual,
        budget: &mut u64,
    ) -> Result<Option<Vec<ListedRoute>>, NoMemory>
        ensures ordered { IfOk result (λ found. IfSome found (λ left. (p : Problem)
            → AreOrdered p before.now.most ordered.items → IsFleet p whole.now.trucks → whole.now.unserved ≡ set_of (customers p)
            → whole.now.most ≤ before.now.most → AreOrdered p whole.now.most left.items)) }
        ensures budget { budget.new ≤ budget.old }
    {
        if whole.most == before.most {
            return Ok(Some(ordered));
        }
        let routes = routes_of(self.alloc, ordered.as_slice())?;
        let routes = routes.as_slice();
        let mut share = (*budget).div_ceil(2);
        *budget -= share;
        let found = self.marks_within(guide, routes, whole, &mut share)?;
        *budget += share;
        let Some(marks) = found else {
            return Ok(None);
        };
        let kept = kept_routes(self.alloc, ordered.as_slice(), marks.as_slice())?;
        let left = in_order(kept)?;
        Ok(left)
    }

    // Marks the routes that may be in a choice within the cost limit. `None` if an amount doesn't fit.
    fn marks_within<P: Guide>(
        &self,
        guide: &mut P,
        routes: &[Route],
        whole: &Residual,
        budget: &mut u64,
    ) -> Result<Option<Vec<bool>>, NoMemory>
        ensures marks { IfOk result (λ found. IfSome found (λ marks.
            MarksWithin routes.now whole.now.unserved whole.now.trucks 0 whole.now.most marks.items)) }
        ensures budget { budget.new ≤ budget.old }
    {
        let sought = Sought {
            rest: *whole,
            least_routes: 0,
        };
        self.marks_for(guide, routes, &sought, budget)
    }

    /// Marks the routes that may be in a choice which is sought within the cost limit. `None` if an amount doesn't fit 32 bits. The
    /// contract leaves open how much of the budget is spent.
    pub fn marks_for<P: Guide>(
        &self,
        guide: &mut P,
        routes: &[Route],
        sought: &Sought,
        budget: &mut u64,
    ) -> Result<Option<Vec<bool>>, NoMemory>
        ensures marks { IfOk result (λ found. IfSome found (λ marks. MarksWithin routes.now sought.now.rest.unserved sought.now.rest.trucks
            sought.now.least_routes sought.now.rest.most marks.items)) }
        ensures budget { budget.new ≤ budget.old }
    {
        let whole = &sought.rest;
        let fleet = FleetView {
            trucks: whole.trucks,
            ..self.fleet.lent()
        };
        let Ok(limit) = u32::try_from(whole.most) else {
            return Ok(None);
        };
        if !all_fit(routes, fleet.demands, fleet.capacity) {
            return Ok(None);
        }
        let query = Query {
            fleet,
            customers: whole.unserved,
            least_routes: sought.least_routes,
            limit,
        };
        let marks = routes_within(self.alloc, guide, self.watch, &query, routes, budget)?;
        Ok(Some(marks))
    }
}
