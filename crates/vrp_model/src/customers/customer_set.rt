//! Sets of customers.
ghost use Rattle.std.specs.Prelude.{◌≡◌, ◌==◌, ◌<◌, ◌-◌, ◌^◌, ◌↔◌, IfNone, IfSome, IsTrue, bit_and, bit_or, bit_xor, count_ones, nat_le};
ghost use Rattle.std.specs.Prelude.{◌++◌, ◌/◌, ◌%◌};
ghost use Rattle.std.specs.Cmp.{partial_order_from_own_ties};
ghost use Rattle.std.specs.Cmp.Rules.{comparing, hashing};
ghost use Rattle.std.specs.Hash as fed;
ghost use Rattle.std.specs.Int.{bit_at};
ghost use Rattle.std.specs.Ordering.{as_partial_cmp, nat_cmp};
ghost use Rattle.std.proofs.Common.{rules};
ghost use Rattle.vrp_model.specs.CustomerSet.{IsFirst, folded_of};

use std::cmp::Ordering;
use std::hash::{Hash, Hasher};
use std::marker::Model;

/// Customers are at most this many, since a set has a bit for each place.
pub const MOST_CUSTOMERS: u16 = 255;

/// The places that a set can hold, the depot's 0 among them: the length of a table by customer.
pub const PLACES: usize = 256;

/// A set of customers. A clause sees it as the number whose bits are the customers.
#[derive(Clone, Copy, Debug)]
pub struct CustomerSet {
    high: u128,
    low: u128,
}

impl Model for CustomerSet {
    ghost use Rattle.std.specs.Prelude.{ℕ, ◌+◌, ◌*◌, ◌/◌, ◌%◌, ◌^◌, ◌<◌};

    ghost Value = { ℕ };

    ghost use Rattle.vrp_model.specs.Words.{words_back};

    ghost view = { λ s. s.high * 2 ^ 128 + s.low };

    ghost invariant = { λ s. (s.high < 2 ^ 128) × (s.low < 2 ^ 128) };

    ghost inverse = { λ set. record { high = set / 2 ^ 128; low = set % 2 ^ 128 } };

    ghost inverse_ok = { λ s small. words_back s small.1 };
}

impl PartialEq for CustomerSet {
    ghost eq = { λ set other. set == other };

    ghost laws = { Prim.search (comparing, rules) };

    #[inline(always)]
    fn eq(&self, other: &CustomerSet) -> bool {
        self.high == other.high && self.low == other.low
    }
}

impl Eq for CustomerSet {
    ghost laws = { Prim.search (comparing, rules) };
}

impl Ord for CustomerSet {
    ghost cmp = { nat_cmp };

    ghost total = { Prim.search (comparing, rules) };

    ghost matches_partial_cmp = { Prim.search (comparing, rules) };

    ghost matches_eq = { Prim.search (comparing, rules) };

    #[inline(always)]
    fn cmp(&self, other: &CustomerSet) -> Ordering {
        self.high.cmp(&other.high).then(self.low.cmp(&other.low))
    }
}

impl PartialOrd for CustomerSet {
    ghost partial_cmp = { as_partial_cmp nat_cmp };

    ghost laws = { partial_order_from_own_ties (Prim.search (comparing, rules)) (Prim.search (comparing, rules)) };

    #[inline(always)]
    fn partial_cmp(&self, other: &CustomerSet) -> Option<Ordering> {
        Some(self.cmp(other))
    }
}

impl Hash for CustomerSet {
    ghost hash_input = { λ set. fed.u64 (folded_of set) };

    ghost respects_eq = { Prim.search (hashing, rules) };

    #[inline(always)]
    fn hash<H: Hasher>(&self, state: &mut H) {
        self.folded().hash(state);
    }
}

impl CustomerSet {
    /// No customer.
    #[inline(always)]
    pub fn empty() -> CustomerSet
        ensures { result ≡ 0 }
    {
        CustomerSet { high: 0, low: 0 }
    }

    /// This customer alone.
    #[inline(always)]
    pub fn only(customer: u16) -> CustomerSet
        requires { customer < PLACES }
        ensures { result ≡ 2 ^ customer }
    {
        if customer < 128 {
            CustomerSet {
                high: 0,
                low: 1 << customer,
            }
        } else {
            CustomerSet {
                high: 1 << (customer - 128),
                low: 0,
            }
        }
    }

    /// The set with this customer.
    #[inline(always)]
    pub fn with(self, customer: u16) -> CustomerSet
        requires { customer < PLACES }
        ensures { result ≡ bit_or self (2 ^ customer) }
    {
        self.union(CustomerSet::only(customer))
    }

    /// Whether the set has this customer.
    #[inline(always)]
    pub fn contains(self, customer: u16) -> bool
        requires { customer < PLACES }
        ensures { IsTrue result ↔ bit_at self customer ≡ 1 }
    {
        if customer < 128 {
            self.low >> customer & 1 == 1
        } else {
            self.high >> (customer - 128) & 1 == 1
        }
    }

    /// The customers of either set.
    #[inline(always)]
    pub fn union(self, other: CustomerSet) -> CustomerSet
        ensures { result ≡ bit_or self other }
    {
        CustomerSet {
            high: self.high | other.high,
            low: self.low | other.low,
        }
    }

    /// The customers of both sets.
    #[inline(always)]
    pub fn intersection(self, other: CustomerSet) -> CustomerSet
        ensures { result ≡ bit_and self other }
    {
        CustomerSet {
            high: self.high & other.high,
            low: self.low & other.low,
        }
    }

    /// The customers of this set that the other lacks.
    #[inline(always)]
    pub fn difference(self, other: CustomerSet) -> CustomerSet
        ensures { result ≡ bit_xor self (bit_and self other) }
    {
        CustomerSet {
            high: self.high ^ (self.high & other.high),
            low: self.low ^ (self.low & other.low),
        }
    }

    /// Whether there is no customer.
    #[inline(always)]
    pub fn is_empty(self) -> bool
        ensures { result ≡ (self == 0) }
    {
        self.high == 0 && self.low == 0
    }

    /// Whether the other set has each customer of this one.
    #[inline(always)]
    pub fn is_subset(self, of: CustomerSet) -> bool
        ensures { result ≡ (bit_and self of == self) }
    {
        self.intersection(of) == self
    }

    /// Whether no customer is in both sets.
    #[inline(always)]
    pub fn is_disjoint(self, other: CustomerSet) -> bool
        ensures { result ≡ (bit_and self other == 0) }
    {
        self.intersection(other).is_empty()
    }

    /// The number of customers.
    #[inline(always)]
    pub fn len(self) -> u16
        ensures { result ≡ count_ones self }
    {
        (self.high.count_ones() + self.low.count_ones()) as u16
    }

    /// The number of customers that are below this one.
    #[inline(always)]
    pub fn rank(self, customer: u16) -> u16
        requires { customer < PLACES }
        ensures { result ≡ count_ones (self % 2 ^ customer) }
    {
        if customer < 128 {
            let below = (1u128 << customer) - 1;
            (self.low & below).count_ones() as u16
        } else {
            let below = (1u128 << (customer - 128)) - 1;
            ((self.high & below).count_ones() + self.low.count_ones()) as u16
        }
    }

    /// Whether there are at least two customers.
    #[inline(always)]
    pub fn has_two(self) -> bool
        ensures { result ≡ nat_le 2 (count_ones self) }
    {
        if self.low == 0 {
            self.high.count_ones() >= 2
        } else if self.high == 0 {
            self.low.count_ones() >= 2
        } else {
            true
        }
    }

    /// The lowest customer.
    #[inline(always)]
    pub fn first(self) -> Option<u16>
        ensures none { IfNone result (self ≡ 0) }
        ensures first { IfSome result (IsFirst self) }
    {
        if self.low != 0 {
            Some(self.low.trailing_zeros() as u16)
        } else if self.high != 0 {
            Some(128 + self.high.trailing_zeros() as u16)
        } else {
            None
        }
    }

    /// Takes the lowest customer out of the set.
    #[inline(always)]
    pub fn take_first(&mut self) -> Option<u16>
        ensures none { IfNone result (self.old ≡ 0) }
        ensures first { IfSome result (IsFirst self.old) }
        ensures rest { self.new ≡ bit_and self.old (self.old - 1) }
        ensures falls { IfSome result (λ _. self.new < self.old) }
    {
        if self.low != 0 {
            let customer = self.low.trailing_zeros() as u16;
            self.low &= self.low - 1;
            Some(customer)
        } else if self.high != 0 {
            let customer = 128 + self.high.trailing_zeros() as u16;
            self.high &= self.high - 1;
            Some(customer)
        } else {
            None
        }
    }

    /// A mix of the whole set, for hash tables and for shares.
    #[inline(always)]
    pub fn folded(self) -> u64
        ensures { result ≡ folded_of self }
    {
        let first = (self.low & LOW_WORD) as u64;
        let second = (self.low >> 64) as u64;
        let third = (self.high & LOW_WORD) as u64;
        let fourth = (self.high >> 64) as u64;
        first
            .wrapping_add(second.wrapping_mul(0x9e37_79b1_85eb_ca87))
            .wrapping_add(third.wrapping_mul(0xc2b2_ae3d_27d4_eb4f))
            .wrapping_add(fourth.wrapping_mul(0x1656_67b1_9e37_79f9))
    }
}

// The bits of a lower word.
const LOW_WORD: u128 = 0xffff_ffff_ffff_ffff;
