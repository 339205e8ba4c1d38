//! Answers by searches over parts of the pool.
ghost use Rattle.std.specs.Prelude.{◌≡◌, ◌+◌, ◌^◌, ◌<◌, ◌≤◌, ◌↔◌, IfNone, IfOk, IfSome, IsTrue, OnOk};
ghost use Rattle.vrp_canonical.specs.Reaching.{Reaches};
ghost use Rattle.vrp_model.specs.declared.customers.customer_set.TheConstants.{PLACES};
ghost use Rattle.vrp_partition.specs.Branching.{IsFound};
ghost use Rattle.vrp_partition.specs.Prices.{AllFit};

use crate::known::{is_choice, routes_inside};
use crate::residual::{Residual, Sought};
use std::alloc::{AllocError, Global};
use std::thread::Threads;
use vrp_model::{Crew, Fleet, FleetView, Watch};
use vrp_partition::{Found, Guide, Route, Task, all_fit, cheapest_choice};

/// Searches within a budget, each by a fork of one guide. The choice found last answers some questions by itself.
#[derive(Drop)]
pub struct Searches<'a, R, P: Guide, W> {
    pub crew: &'a Crew<'a, R, W>,
    pub guide: &'a P,
    pub fleet: &'a Fleet,
    pub budget: u64,
    pub known: Vec<Route>,
}

impl<'a, R, P: Guide, W> Searches<'a, R, P, W> {
    /// Searches within a budget, with a known choice.
    pub fn new(
        crew: &'a Crew<'a, R, W>,
        guide: &'a P,
        fleet: &'a Fleet,
        budget: u64,
        known: Vec<Route>,
    ) -> Self
        ensures { result.budget ≡ budget }
    {
        Searches {
            crew,
            guide,
            fleet,
            budget,
            known,
        }
    }
}

impl<R: Threads + Sync, P: Guide + Send, W: Watch + Sync> Searches<'_, R, P, W> {
    /// Whether some routes of the part serve the unserved customers with the trucks that are left, within the cost limit. `None` if that
    /// is unknown.
    pub fn reaches(&mut self, part: &[Route], rest: &Residual) -> Result<Option<bool>, AllocError>
        ensures { IfOk result (λ answer. IfSome answer (λ yes.
            IsTrue yes ↔ Reaches part.now rest.now.unserved rest.now.trucks rest.now.most)) }
    {
        let known = routes_inside(self.crew.alloc, self.known.as_slice(), rest.unserved)?;
        if is_choice(part, known.as_slice(), rest) {
            return Ok(Some(true));
        }
        let found = search_within(
            self.crew,
            self.guide,
            self.fleet,
            part,
            rest,
            &mut self.budget,
        )?;
        let Some(Found::Cheapest(chosen)) = found else {
            return Ok(None);
        };
        if chosen.cost > rest.most {
            return Ok(Some(false));
        }
        self.known = chosen.routes;
        Ok(Some(true))
    }

    /// Replaces the known choice.
    pub fn know(&mut self, choice: &[Route]) -> Result<(), AllocError>
        ensures { OnOk result (self.new.known.items ≡ choice.now) }
    {
        self.known = Vec::from_slice(self.crew.alloc, choice)?;
        Ok(())
    }

    /// A route that is likely to serve the customer. It is not trusted, and no clause pins it.
    pub fn likely(&self, customer: u16) -> Option<Route>
        requires { customer < PLACES }
    {
        self.known
            .iter()
            .copied()
            .find(|route| route.set.contains(customer))
    }
}

/// The result of a search for a residual problem: the cheapest choice of routes, if it is within the cost limit; otherwise a cost of one
/// more than the limit. `None` if a route doesn't fit a truck or the limit doesn't fit 32 bits.
pub fn search_within<R: Threads + Sync, P: Guide + Send, W: Watch>(
    crew: &Crew<'_, R, W>,
    guide: &P,
    fleet: &Fleet,
    routes: &[Route],
    rest: &Residual,
    budget: &mut u64,
) -> Result<Option<Found>, AllocError>
    ensures found { IfOk result (λ answer. IfSome answer (IsFound routes.now rest.now.unserved rest.now.trucks 0 (rest.now.most + 1))) }
    ensures none { IfOk result (λ answer. IfNone answer (rest.now.most < 2 ^ 32
        → AllFit fleet.now.demands.items fleet.now.capacity routes.now → ⊥)) }
    ensures budget { budget.new ≤ budget.old }
{
    let sought = Sought {
        rest: *rest,
        least_routes: 0,
    };
    search_for(crew, guide, fleet, routes, &sought, budget)
}

/// The same where a choice with fewer routes than are sought need not be considered.
pub fn search_for<R: Threads + Sync, P: Guide + Send, W: Watch>(
    crew: &Crew<'_, R, W>,
    guide: &P,
    fleet: &Fleet,
    routes: &[Route],
    sought: &Sought,
    budget: &mut u64,
) -> Result<Option<Found>, AllocError>
    ensures found { IfOk result (λ answer. IfSome answer (IsFound routes.now sought.now.rest.unserved sought.now.rest.trucks
        sought.now.least_routes (sought.now.rest.most + 1))) }
    ensures none { IfOk result (λ answer. IfNone answer (sought.now.rest.most < 2 ^ 32
        → AllFit fleet.now.demands.items fleet.now.capacity routes.now → ⊥)) }
    ensures budget { budget.new ≤ budget.old }
{
    let rest = &sought.rest;
    let fleet = FleetView {
        trucks: rest.trucks,
        ..fleet.lent()
    };
    if rest.most >= 1 << 32 || !all_fit(routes, fleet.demands, fleet.capacity) {
        return Ok(None);
    }
    let fork = guide.fork()?;
    let pool = Vec::from_slice(crew.alloc, routes)?;
    let task = Task {
        fleet,
        customers: rest.unserved,
        least_routes: sought.least_routes,
        incumbent: rest.most + 1,
    };
    let found = cheapest_choice(crew, fork, &task, pool, budget)?;
    Ok(Some(found))
}
