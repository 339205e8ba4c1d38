//! Shares of the customers: labels are extended by one share at a time.
ghost use Rattle.std.specs.Prelude.{◌≡◌, ◌+◌, ◌%◌, ◌^◌, ◌<◌, ◌≤◌, ℕ, true};

/// One share of the customers: those whose number, divided by the number of shares, leaves this rest.
#[derive(Clone, Copy, Debug)]
pub struct Share {
    pub shares: u16,
    pub rest: u16,
    ghost some: { rest < shares },
}

/// A range of shares of the customers: this many, from the first one on.
#[derive(Clone, Copy, Debug)]
pub struct ShareRange {
    pub shares: u16,
    pub first: u16,
    pub count: u16,
    ghost within: { first + count ≤ shares },
}

impl Share {
    ghost use Rattle.vrp_routes.specs.Share.{is_in};

    /// The lowest customer of the share.
    #[inline(always)]
    pub fn first(&self) -> u32
        ensures some { 1 ≤ result }
        ensures rest { result % self.now.shares ≡ self.now.rest }
        ensures lowest { (customer : ℕ) → 1 ≤ customer → customer < result → is_in self.now customer ≡ true → ⊥ }
    {
        if self.rest == 0 {
            u32::from(self.shares)
        } else {
            u32::from(self.rest)
        }
    }

    /// The next customer of the share after this one.
    #[inline(always)]
    pub fn next(&self, customer: u32) -> u32
        requires { customer < 2 ^ 16 }
        ensures { result ≡ customer + self.now.shares }
    {
        customer + u32::from(self.shares)
    }
}
