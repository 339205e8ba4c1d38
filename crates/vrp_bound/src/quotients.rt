//! A table of amounts in whole units: a search needs them at each partial plan, and a division takes longer.
ghost use Rattle.std.specs.Prelude.{◌≡◌, ℕ, ◌≤◌, ◌<◌, ◌/◌, IfOk, length, slice_index, vec_len};

use std::alloc::Global;
use vrp_model::NoMemory;

/// Converts amounts to whole units.
#[derive(Debug, Drop)]
pub struct Quotients {
    unit: u64,
    // The units of each amount up to a limit; empty if the unit is 1.
    whole: Vec<u32>,
    ghost some: { 1 ≤ unit },
    ghost each: { (k : ℕ) → k < length whole.items → slice_index whole.items k ≡ k / unit },
}

impl Quotients {
    /// The quotients by this unit, with a table of the amounts up to this one.
    pub fn up_to(alloc: Global, unit: u64, most: u64) -> Result<Quotients, NoMemory>
        requires unit { 1 ≤ unit }
        requires most { most ≤ 200000000 }
        ensures { IfOk result (λ quotients. quotients.unit ≡ unit) }
    {
        let count = if unit == 1 { 0 } else { most as usize + 1 };
        let mut whole = Vec::with_capacity(alloc, count)?;
        for amount in 0..count as u64 {
            whole.push((amount / unit) as u32)?;
        }
        Ok(Quotients { unit, whole })
    }

    /// The whole units of this amount.
    #[inline(always)]
    pub fn whole_units(&self, amount: u64) -> u64
        ensures { result ≡ amount / self.now.unit }
    {
        if self.unit == 1 {
            return amount;
        }
        match self.whole.get(amount as usize) {
            Some(units) => u64::from(*units),
            None => amount / self.unit,
        }
    }

    /// The number of amounts in the table.
    pub fn count(&self) -> usize
        ensures { result ≡ vec_len self.now.whole }
    {
        self.whole.len()
    }
}
