//! The residual problem that a partial plan leaves.
ghost use Rattle.std.specs.Prelude.{◌≡◌, ◌≤◌, IfNone, IfSome, bit_and};
ghost use Rattle.vrp_canonical.specs.Passing.{IsAfter};

use vrp_model::CustomerSet;
use vrp_partition::Route;

/// A residual problem: the unserved customers, the trucks that are left, and the cost limit of their routes.
#[derive(Clone, Copy, Debug, PartialEq, Eq)]
pub struct Residual {
    pub unserved: CustomerSet,
    pub trucks: u8,
    pub most: u64,
}

/// A residual problem, and the least number of routes of the choices that are sought for it.
#[derive(Clone, Copy, Debug)]
pub struct Sought {
    pub rest: Residual,
    pub least_routes: u16,
}

impl Residual {
    /// The residual problem after a route. `None` if the route serves a customer who is not unserved, has no truck, or costs too much.
    pub fn without(&self, route: &Route) -> Option<Residual>
        ensures after { IfSome result (IsAfter self.now route.now) }
        ensures none { IfNone result (bit_and route.now.set self.now.unserved ≡ route.now.set
            → 1 ≤ self.now.trucks → route.now.cost ≤ self.now.most → ⊥) }
    {
        if !route.set.is_subset(self.unserved) {
            return None;
        }
        let trucks = self.trucks.checked_sub(1)?;
        let most = self.most.checked_sub(u64::from(route.cost))?;
        Some(Residual {
            unserved: self.unserved.difference(route.set),
            trucks,
            most,
        })
    }
}
