//! The costs of the columns, perturbed against ties, as prices. While the dual simplex runs, some are raised.
use crate::entries::{Table, copied, place, zeros};
use crate::fixed_point::MOST_PRICE_BITS;
use crate::matrix::Column;
use std::alloc::{AllocError, Global};

// Tells the surplus of a row from a column with the same name.
const SURPLUS: u64 = 1 << 40;

/// The costs of all columns.
#[derive(Debug, Drop)]
pub(crate) struct Costs {
    alloc: Global,
    /// The bits behind the point of a price.
    pub(crate) bits: u32,
    /// The cost of an artificial column.
    penalty: i64,
    pub(crate) named: Vec<i64>,
    pub(crate) surplus: Box<Table>,
    pub(crate) artificial: Box<Table>,
}

impl Costs {
    /// The costs of no column. All that come are at most `greatest`.
    pub(crate) fn new(alloc: Global, penalty: i64, greatest: i64) -> Result<Costs, AllocError> {
        let bits = price_bits(greatest);
        Ok(Costs {
            alloc,
            bits,
            penalty: as_price(penalty, bits),
            named: Vec::new(alloc),
            surplus: zeros(alloc)?,
            artificial: zeros(alloc)?,
        })
    }

    /// Copies the costs.
    pub(crate) fn copy(&self) -> Result<Costs, AllocError> {
        Ok(Costs {
            alloc: self.alloc,
            bits: self.bits,
            penalty: self.penalty,
            named: self.named.clone()?,
            surplus: copied(self.alloc, &self.surplus)?,
            artificial: copied(self.alloc, &self.artificial)?,
        })
    }

    /// Sets the costs of the surplus and artificial column of a row.
    pub(crate) fn begin_row(&mut self, row: u16) {
        self.surplus[place(row)] = perturbation(u64::from(row).wrapping_add(SURPLUS));
        self.artificial[place(row)] = self.penalty;
    }

    /// Adds the cost of a column, the last one.
    pub(crate) fn push(&mut self, name: u32, cost: i64) -> Result<(), AllocError> {
        let cost = as_price(cost, self.bits).wrapping_add(perturbation(u64::from(name)));
        self.named.push(cost)?;
        Ok(())
    }

    /// Makes a column cost as much as an artificial one. False if it did.
    pub(crate) fn penalize(&mut self, index: usize) -> bool {
        match self.named.get_mut(index) {
            Some(cost) if *cost != self.penalty => {
                *cost = self.penalty;
                true
            }
            _ => false,
        }
    }

    /// The cost of a column.
    #[inline(always)]
    pub(crate) fn of(&self, column: &Column) -> i64 {
        match *column {
            Column::Surplus(row) => self.surplus[place(row)],
            Column::Artificial(row) => self.artificial[place(row)],
            Column::Named(index) => self.named.get(index).copied().unwrap_or(0),
        }
    }

    /// Raises the cost of a column.
    pub(crate) fn raise(&mut self, column: &Column, more: i64) {
        match *column {
            Column::Surplus(row) => add_at(&mut self.surplus, row, more),
            Column::Artificial(row) => add_at(&mut self.artificial, row, more),
            Column::Named(index) => {
                if let Some(cost) = self.named.get_mut(index) {
                    *cost = cost.wrapping_add(more);
                }
            }
        }
    }
}

fn add_at(table: &mut Table, row: u16, more: i64) {
    let index = place(row);
    table[index] = table[index].wrapping_add(more);
}

// The bits behind the point of a price, less than usual if costs are beyond 2^20.
fn price_bits(greatest: i64) -> u32 {
    let mut bits = MOST_PRICE_BITS;
    let mut rest = greatest.max(0) >> 20;
    for _ in 0..MOST_PRICE_BITS {
        if rest > 0 {
            rest >>= 1;
            bits = bits.saturating_sub(1);
        }
    }
    bits
}

// A cost as a price, clamped to 2^51.
fn as_price(cost: i64, bits: u32) -> i64 {
    let bits = bits.min(MOST_PRICE_BITS);
    let most = 1i64 << (51 - bits);
    cost.min(most).max(most.wrapping_neg()) << bits
}

// A small random number, the same for the same seed, which breaks ties of the dual.
fn perturbation(seed: u64) -> i64 {
    let mixed = seed.wrapping_add(1).wrapping_mul(6_364_136_223_846_793_005);
    (mixed >> 47).cast_signed()
}
