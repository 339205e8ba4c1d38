//! The integer square root.
ghost use Rattle.vrp_model.specs.Distance.{IsRoot};

/// The greatest whole number whose square is at most `x`, in a fixed number of steps.
pub fn isqrt(x: u64) -> u64
    ensures { IsRoot x result }
{
    x.isqrt()
}
