//! The bound that the search uses: the greater of the two.
ghost use Rattle.std.specs.Prelude.{◌≡◌, ◌≤◌, ◌<◌, IfSome};
ghost use Rattle.vrp_model.specs.Problem.{customers, place_count};
ghost use Rattle.vrp_model.specs.Route.{load_of};
ghost use Rattle.vrp_bound.specs.Bound.{IsLowerBound};

use crate::capacity::cap_bound;
use crate::tables::Tables;
use crate::trucks_left::can_carry;
use vrp_model::{Instance, MAX_ARCS};

/// A lower bound on what is still to pay from a place, with this load on the current truck, by both bounds: `inbound_sum` is
/// the sum of the least arcs into the unserved customers, `rest` their demand, `left` how many routes may still be opened.
/// `None` if nothing carries exactly the rest, or if too few trucks are left: then there is no feasible plan.
pub fn bound(
    tables: &Tables<'_>,
    instance: &Instance,
    at: u16,
    load: u64,
    inbound_sum: u64,
    rest: u64,
    left: Option<u16>,
) -> Option<u64>
    requires problem { tables.now.problem ≡ instance.now }
    requires place { at < place_count instance.now }
    requires load { load ≤ instance.now.capacity }
    requires depot { at ≡ 0 → load ≡ 0 }
    requires inbound_sum { inbound_sum ≤ MAX_ARCS }
    requires rest { rest ≤ load_of instance.now tables.now.among }
    requires all { rest ≤ load_of instance.now (customers instance.now) }
    ensures bound { IsLowerBound instance.now tables.now.among at load inbound_sum rest left result }
    ensures small { IfSome result (λ least. least < 4000000000000000000) }
{
    if !can_carry(instance, at, load, rest, left) {
        return None;
    }
    let capacity = cap_bound(instance, at, load, inbound_sum, rest);
    match tables.q_bound(at, load, rest) {
        None => None,
        Some(relaxed) => Some(relaxed.max(capacity)),
    }
}
