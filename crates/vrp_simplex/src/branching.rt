//! The customers to branch on.
ghost use Rattle.std.specs.Prelude.{◌<◌};

use crate::fixed_point::{ONE, at};
use crate::program::RouteProgram;
use crate::subset_rows::{pair_sums, places_of, sums_of};
use std::alloc::AllocError;
use vrp_model::{CustomerSet, PLACES};
use vrp_partition::Route;

// The pair is sought whose share of common routes is nearest to this.
const MIDDLE: i64 = ONE / 100 * 55;

// Two customers, and the distance of their share of common routes from the middle.
#[derive(Clone, Copy, PartialEq, Eq, PartialOrd, Ord)]
struct RankedPair {
    far: i64,
    set: CustomerSet,
}

impl RouteProgram {
    /// The two customers for whom the solution is least decided whether they share a route; if possible a pair by which
    /// both branches lose a route. No clause pins them, since they are not trusted.
    pub(crate) fn pair(&self, pool: &[Route]) -> Result<CustomerSet, AllocError> {
        let used = self.used()?;
        let places = places_of(self.scope.customers);
        let pairs = pair_sums(self.alloc, places, used.as_slice())?;
        let mut ranked = Vec::new(self.alloc);
        for first in self.scope.customers.iter() {
            self.push_pairs(first, sums_of(pairs.as_slice(), places, first), &mut ranked)?;
        }
        ranked.sort_unstable();
        for pair in &ranked {
            if divides(pool, pair.set) {
                return Ok(pair.set);
            }
        }
        Ok(ranked.first().map_or(CustomerSet::empty(), |pair| pair.set))
    }

    // Adds the pairs of a customer and a later one.
    fn push_pairs(
        &self,
        first: u16,
        row: &[i64],
        ranked: &mut Vec<RankedPair>,
    ) -> Result<(), AllocError>
        requires { first < PLACES }
    {
        for second in self.scope.customers.iter() {
            if second > first {
                let sum = at(row, usize::from(second));
                let far = sum.wrapping_sub(MIDDLE).saturating_abs();
                let set = CustomerSet::only(first).with(second);
                ranked.push(RankedPair { far, set })?;
            }
        }
        Ok(())
    }
}

// Whether some route has all of these customers, and some route has some of them.
fn divides(pool: &[Route], set: CustomerSet) -> bool {
    let has_all = pool.iter().any(|route| set.is_subset(route.set));
    let has_some = pool.iter().any(|route| !set.is_subset(route.set)
        && !set.is_disjoint(route.set));
    has_all && has_some
}
