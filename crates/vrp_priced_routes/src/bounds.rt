//! How wide a gap has to be, and what dual prices say that a plan costs at least.
ghost use Rattle.std.specs.Prelude.{◌≡◌, ◌⊎◌, ◌≤◌, ◌≤ℤ◌, ◌+ℤ◌, ◌-ℤ◌, ◌+◌, ◌-◌, ◌*◌, ◌^◌, ℕ, pos, IfSome, unsigned_abs};
ghost use Rattle.vrp_duals.specs.declared.limits.TheConstants.{MAX_LOW, MAX_SCALE};
ghost use Rattle.vrp_model.specs.declared.limits.TheConstants.{MAX_NODES, NO_COST};

// A gap is at most this: 2 ^ 61.
const MOST_GAP: i128 = 2_305_843_009_213_693_952;

/// The limit on a plan's cost, and what is known of the dual prices: the price units in a unit of cost, and the lower bound that they give
/// where no route costs less than 0.
#[derive(Clone, Copy, Debug)]
pub struct PriceBound {
    pub scale: u32,
    pub low: i64,
    pub customers: u16,
}

impl PriceBound {
    /// The least gap, 0 at least, that has what the limit is above the lower bound, and the depth once for each other route that there may
    /// be. `None` if it is more than 2 ^ 61.
    pub fn gap(&self, limit: u64, depth: u64) -> Option<i64>
        requires scale { self.now.scale ≤ MAX_SCALE }
        requires low { unsigned_abs self.now.low ≤ MAX_LOW }
        requires customers { self.now.customers ≤ MAX_NODES }
        requires limit { limit ≤ NO_COST }
        ensures covers { IfSome result (λ gap.
            pos (self.now.scale * limit + (self.now.customers - 1) * depth) ≤ℤ (self.now.low +ℤ gap)) }
        ensures some { IfSome result (λ gap. pos 0 ≤ℤ gap) }
    {
        let cost = times(self.scale, limit);
        let more = times(u32::from(self.customers.saturating_sub(1)), depth);
        let gap = cost + more - i128::from(self.low);
        if gap > MOST_GAP {
            return None;
        }
        if gap < 0 {
            return Some(0);
        }
        Some(gap as i64)
    }

    /// What a plan costs at least whose routes have no reduced cost below -`depth`.
    pub fn least_cost(&self, depth: u64) -> u64
        requires some_scale { 1 ≤ self.now.scale }
        requires scale { self.now.scale ≤ MAX_SCALE }
        requires low { unsigned_abs self.now.low ≤ MAX_LOW }
        requires customers { self.now.customers ≤ MAX_NODES }
        ensures bound { (cost : ℕ) → self.now.low ≤ℤ pos (self.now.scale * cost + self.now.customers * depth) → result ≤ cost }
    {
        let loss = times(u32::from(self.customers), depth);
        above(self.low, loss).div_ceil(u64::from(self.scale))
    }
}

// How much one number is above another, or 0 if it isn't.
fn above(one: i64, other: i128) -> u64
    requires { unsigned_abs other ≤ 2 ^ 96 }
    ensures { (result ≡ 0) ⊎ (pos result ≡ (one -ℤ other)) }
{
    let more = i128::from(one) - other;
    if more <= 0 || more > MOST_GAP {
        return 0;
    }
    more as u64
}

// The product of two numbers.
fn times(one: u32, other: u64) -> i128
    ensures value { result ≡ pos (one * other) }
    ensures small { unsigned_abs result ≤ 2 ^ 96 }
{
    i128::from(one) * i128::from(other)
}
