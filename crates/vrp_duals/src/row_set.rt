//! Sets of subset rows.
ghost use Rattle.std.specs.Prelude.{◌≡◌, ◌==◌, ◌<◌, ◌-◌, ◌^◌, ◌↔◌, IfNone, IfSome, IsTrue, bit_and, bit_or, bit_xor};
ghost use Rattle.std.specs.Int.{bit_at};
ghost use Rattle.vrp_model.specs.CustomerSet.{IsFirst};
ghost use Rattle.vrp_duals.specs.declared.limits.TheConstants.{MAX_SUBSET_ROWS};

use crate::limits::MAX_SUBSET_ROWS;
use std::marker::Model;
use vrp_model::CustomerSet;

/// A set of subset rows, by their places in a list of at most `MAX_SUBSET_ROWS`. A clause sees it as the number whose bits are the rows.
#[derive(Clone, Copy, Debug)]
pub struct RowSet {
    rows: CustomerSet,
}

impl Model for RowSet {
    ghost use Rattle.std.specs.Prelude.{ℕ};

    ghost Value = { ℕ };

    ghost view = { λ s. s.rows };

    ghost inverse = { λ set. record { rows = set } };
}

impl RowSet {
    /// No row.
    #[inline(always)]
    pub fn empty() -> RowSet
        ensures { result ≡ 0 }
    {
        RowSet {
            rows: CustomerSet::empty(),
        }
    }

    /// The set with this row.
    #[inline(always)]
    pub fn with(self, row: u16) -> RowSet
        requires { row < MAX_SUBSET_ROWS }
        ensures { result ≡ bit_or self (2 ^ row) }
    {
        RowSet {
            rows: self.rows.with(row),
        }
    }

    /// Whether the set has this row.
    #[inline(always)]
    pub fn contains(self, row: u16) -> bool
        requires { row < MAX_SUBSET_ROWS }
        ensures { IsTrue result ↔ bit_at self row ≡ 1 }
    {
        self.rows.contains(row)
    }

    /// The rows of both sets.
    #[inline(always)]
    pub fn intersection(self, other: RowSet) -> RowSet
        ensures { result ≡ bit_and self other }
    {
        RowSet {
            rows: self.rows.intersection(other.rows),
        }
    }

    /// The rows of exactly one of both sets.
    #[inline(always)]
    pub fn symmetric_difference(self, other: RowSet) -> RowSet
        ensures { result ≡ bit_xor self other }
    {
        let here = self.rows.difference(other.rows);
        let there = other.rows.difference(self.rows);
        RowSet {
            rows: here.union(there),
        }
    }

    /// Whether there is no row.
    #[inline(always)]
    pub fn is_empty(self) -> bool
        ensures { result ≡ (self == 0) }
    {
        self.rows.is_empty()
    }

    /// Takes the first row out of the set.
    #[inline(always)]
    pub fn take_first(&mut self) -> Option<u16>
        ensures none { IfNone result (self.old ≡ 0) }
        ensures first { IfSome result (IsFirst self.old) }
        ensures rest { self.new ≡ bit_and self.old (self.old - 1) }
        ensures falls { IfSome result (λ _. self.new < self.old) }
    {
        self.rows.take_first()
    }
}
