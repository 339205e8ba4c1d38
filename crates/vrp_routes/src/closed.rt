//! The routes of one length, the cheapest for each set of customers.
ghost use Rattle.std.specs.Prelude.{◌≡◌, ◌≢◌, ◌+◌, ◌^◌, ◌<◌, ◌≤◌, ℕ, true, List, [], OnOk, IfOk, IfNone, IfSome, drop, length, vec_len};
ghost use Rattle.vrp_model.specs.Problem.{Problem};
ghost use Rattle.vrp_model.specs.Route.{route_cost};
ghost use Rattle.vrp_model.specs.CustomerSet.{set_of};
ghost use Rattle.vrp_routes.specs.ClosedLevel.{AreClosed, AreClosedIn, AreClosedParts, CanClose, HasPlaces, TakesRoute, closing_share, is_closed_in};
ghost use Rattle.vrp_routes.specs.Label.{IsLabel};
ghost use Rattle.vrp_routes.specs.Level.{IsLevel};
ghost use Rattle.vrp_routes.specs.Setting.{setting_of};
ghost use Rattle.vrp_routes.specs.Useful.{IsUsefulIn};
ghost use Rattle.vrp_routes.specs.declared.plan_range.PlanRange.{PlanRange};

use crate::completion_test::CompletionTest;
use crate::label::Label;
use crate::setting::Setting;
use crate::tasks::values_of;
use std::alloc::Global;
use std::collections::HashMap;
use std::thread::Threads;
use vrp_model::{Crew, CustomerSet, NoMemory};

// The number of shares of the sets. The order of the routes depends on it, but not on the number of workers.
const CLOSING_SHARES: usize = 8;

/// A route, given by the label of all its customers.
// With fields in this order it takes 48 bytes.
#[derive(Clone, Copy, Debug)]
pub struct ClosedRoute {
    pub set: CustomerSet,
    pub cost: u64,
    pub load: u32,
    pub label: u32,
}

/// Routes of one length. Among those with the same customers the cheapest is kept, and among equal ones the earliest, symbol by
/// symbol.
#[derive(Drop)]
pub struct ClosedLevel {
    routes: Vec<ClosedRoute>,
    // The route of each set.
    by_set: HashMap<CustomerSet, usize>,
}

/// Closes the labels of one length, whose numbers start at `start`, into routes. Routes with the same customers are closed in the same
/// share, and each worker closes one share at a time.
pub fn close_level<R: Threads + Sync, W, T: CompletionTest + Sync>(
    crew: &Crew<'_, R, W>,
    setting: &Setting<'_, T>,
    labels: &[Label<T::Resources>],
    start: u32,
) -> Result<Vec<ClosedRoute>, NoMemory>
    requires level { CanClose (setting_of T.CompletionTest setting.now.test.now) start labels.now }
    requires few { start + length labels.now < 2 ^ 32 }
    ensures { IfOk result (λ routes. (k : ℕ) (stops : List (List ℕ)) → 1 ≤ k
        → IsLevel (setting_of T.CompletionTest setting.now.test.now) k (drop start stops) labels.now
        → AreClosed (T.problem setting.now.test.now) (T.range setting.now.test.now) k stops
        routes.items) }
{
    let alloc = crew.alloc;
    let parts = values_of(
        crew.rt,
        alloc,
        crew.workers,
        CLOSING_SHARES,
        &|share: usize| -> Result<Vec<ClosedRoute>, NoMemory>
            requires level { CanClose (setting_of T.CompletionTest setting.now.test.now) start labels.now }
            requires few { start + length labels.now < 2 ^ 32 }
            ensures { IfOk result (λ routes. (k : ℕ) (stops : List (List ℕ)) → 1 ≤ k
                → IsLevel (setting_of T.CompletionTest setting.entry.now.test.now) k (drop start stops) labels.entry.now
                → AreClosedIn (T.problem setting.entry.now.test.now) (T.range setting.entry.now.test.now) k
                (is_closed_in share) stops routes.items) }
        { close_share(alloc, setting, labels, start, share) },
    )?;
    joined(alloc, parts)
}

// The routes of all shares.
fn joined(alloc: Global, parts: Vec<Vec<ClosedRoute>>) -> Result<Vec<ClosedRoute>, NoMemory>
    requires { vec_len parts ≡ CLOSING_SHARES }
    ensures { IfOk result (λ routes. (p : Problem) (range : PlanRange) (k : ℕ) (stops : List (List ℕ))
        → AreClosedParts p range k stops parts.items → AreClosed p range k stops routes.items) }
{
    let mut routes = Vec::new(alloc);
    for part in parts {
        routes.extend_from_slice(&part)?;
    }
    Ok(routes)
}

// The routes of one share.
fn close_share<T: CompletionTest>(
    alloc: Global,
    setting: &Setting<'_, T>,
    labels: &[Label<T::Resources>],
    start: u32,
    share: usize,
) -> Result<Vec<ClosedRoute>, NoMemory>
    requires level { CanClose (setting_of T.CompletionTest setting.now.test.now) start labels.now }
    requires few { start + length labels.now < 2 ^ 32 }
    ensures { IfOk result (λ routes. (k : ℕ) (stops : List (List ℕ)) → 1 ≤ k
        → IsLevel (setting_of T.CompletionTest setting.now.test.now) k (drop start stops) labels.now
        → AreClosedIn (T.problem setting.now.test.now) (T.range setting.now.test.now) k (is_closed_in share) stops routes.items) }
{
    let mut closed = ClosedLevel {
        routes: Vec::new(alloc),
        by_set: HashMap::new(alloc),
    };
    for at in 0..labels.len() {
        let label = &labels[at];
        if let Some(cost) = cost_in_share(setting, label, share) {
            closed.offer(ClosedRoute {
                set: label.set,
                cost,
                load: label.load,
                label: start + at as u32,
            })?;
        }
    }
    let ClosedLevel {
        routes,
        by_set: _by_set,
    } = closed;
    Ok(routes)
}

// The cost of the route that a closed label makes. `None` if its set is in another share, or the route is not useful.
#[inline(always)]
fn cost_in_share<T: CompletionTest>(
    setting: &Setting<'_, T>,
    label: &Label<T::Resources>,
    share: usize,
) -> Option<u64>
    requires label { (stops : List ℕ)
        × IsLabel (setting_of T.CompletionTest setting.now.test.now) stops label.now × (stops ≢ []) }
    ensures cost { IfSome result (λ cost. (stops : List ℕ)
        → IsLabel (setting_of T.CompletionTest setting.now.test.now) stops label.now
        → cost ≡ route_cost (T.problem setting.now.test.now) stops) }
    ensures none { IfNone result ((stops : List ℕ)
        → IsLabel (setting_of T.CompletionTest setting.now.test.now) stops label.now
        → is_closed_in share (set_of stops) ≡ true
        → IsUsefulIn (T.problem setting.now.test.now) (T.range setting.now.test.now) stops → ⊥) }
{
    if share_of(label.set) != share {
        return None;
    }
    setting.close(label)
}

// The share that closes a set. After this multiplication the highest bits of a number depend on all others.
#[inline(always)]
fn share_of(set: CustomerSet) -> usize
    ensures { result ≡ closing_share set }
{
    let mixed = set.folded().wrapping_mul(6_364_136_223_846_793_005);
    (mixed >> 61) as usize
}

impl ClosedLevel {
    // Adds a route, unless one with the same customers costs no more.
    fn offer(&mut self, route: ClosedRoute) -> Result<(), NoMemory>
        requires { HasPlaces self.old }
        ensures offered { OnOk result (TakesRoute self.old route self.new) }
        ensures places { OnOk result (HasPlaces self.new) }
    {
        if let Some(at) = self.by_set.get(&route.set) {
            let at = *at;
            if route.cost < self.routes[at].cost {
                self.routes[at] = route;
            }
            return Ok(());
        }
        self.by_set.insert(route.set, self.routes.len())?;
        self.routes.push(route)?;
        Ok(())
    }
}
