//! Divisors of two numbers.
ghost use Rattle.std.specs.Int.{IsGcd};

/// The greatest common divisor; 0 for two zeros.
pub fn gcd(one: u64, other: u64) -> u64
    ensures { IsGcd one other result }
{
    let mut divisor = one;
    let mut rest = other;
    while rest != 0 {
        let less = divisor % rest;
        divisor = rest;
        rest = less;
    }
    divisor
}
