//! The unit of demands in the search for prices: one that makes the tables small enough.
ghost use Rattle.std.specs.Prelude.{◌≤◌, IfSome};

use crate::ascent::guide::Guide;
use crate::ascent::size::Size;
use vrp_bound::gcd;
use vrp_model::Instance;

// This many rises lead from 1 to above any capacity.
const RISES: u32 = 400;

/// The greatest common divisor of the demands, if that makes tables small enough for this many steps; otherwise the first unit above it
/// that does, in rises by a sixteenth, or by one. `None` if none is found. A large unit weakens the bound: each customer who demands
/// less than a unit adds one to the capacity.
pub(crate) fn unit_for(instance: &Instance, guide: Guide, steps: u64) -> Option<u64>
    ensures { IfSome result (λ unit. 1 ≤ unit) }
{
    let mut unit = common_divisor(instance).max(1);
    for _ in 0..RISES {
        if guide.allows(Size::in_units(instance, unit), steps) {
            return Some(unit);
        }
        unit = unit.saturating_add(unit / 16).saturating_add(1);
    }
    None
}

// The greatest common divisor of the demands; 0 if nobody demands anything.
fn common_divisor(instance: &Instance) -> u64 {
    let mut divisor = 0;
    for index in 0..instance.customers() {
        divisor = gcd(divisor, instance.demand(index + 1));
    }
    divisor
}
