//! Numbers in fixed point: values, entries of factors and directions have 36 bits behind the point, prices and reduced costs have 30.
//!
//! Stored numbers are at most 2^60 in size, and entries of factors at most 2^52. So a product is at most 2^112, and a sum of at most 2^14
//! products at most 2^126: nothing wraps an `i128`. A sum goes back into an `i64` by `narrow`, which clamps it. Prices and rows of the
//! inverse are at most 2^52, and a column has less than 2^10 entries: their sum fits an `i64`. So the sums below never wrap, although
//! they are written as those that may.

/// One, as a value.
pub(crate) const ONE: i64 = 1 << 36;

/// One unit of cost, as a price, if costs are not beyond 2^20.
pub(crate) const UNIT: i64 = 1 << 30;

/// The bits behind the point of a price, if costs are not beyond 2^20.
pub(crate) const MOST_PRICE_BITS: u32 = 30;

/// No stored number is larger.
pub(crate) const LARGEST: i64 = 1 << 60;

// No entry of a factor, price or entry of a row of the inverse is larger.
const LARGEST_ENTRY: i64 = 1 << 52;

const WIDE_LARGEST: i128 = 1 << 60;

// Half of one, before a product is cut off.
const HALF: i128 = 1 << 35;

const LOW_BITS: u128 = 0xffff_ffff_ffff_ffff;

// Sizes up to this are taken for 0.
const TINY: u64 = 16;

#[inline(always)]
fn low_half(wide: i128) -> i64 {
    ((wide.cast_unsigned() & LOW_BITS) as u64).cast_signed()
}

/// A product in full width.
#[inline(always)]
pub(crate) fn wide_product(left: i64, right: i64) -> i128 {
    i128::from(left).wrapping_mul(i128::from(right))
}

/// A number in the width of products.
#[inline(always)]
pub(crate) fn widen(number: i64) -> i128 {
    i128::from(number) << 36
}

/// A sum of products as a number, rounded and clamped.
#[inline(always)]
pub(crate) fn narrow(wide: i128) -> i64 {
    let rounded = wide.wrapping_add(HALF) >> 36;
    let low = low_half(rounded);
    if i128::from(low) == rounded {
        clamped(low)
    } else if wide < 0 {
        LARGEST.wrapping_neg()
    } else {
        LARGEST
    }
}

/// A product, rounded and clamped.
#[inline(always)]
pub(crate) fn product(left: i64, right: i64) -> i64 {
    narrow(wide_product(left, right))
}

/// A product, rounded. It fits, since one number is about 8 at most and the other an entry of a factor.
#[inline(always)]
pub(crate) fn small_product(left: i64, right: i64) -> i64 {
    low_half(wide_product(left, right).wrapping_add(HALF) >> 36)
}

/// A quotient, clamped; 0 for a division by 0.
pub(crate) fn quotient(upper: i64, lower: i64) -> i64 {
    if lower == ONE {
        return clamped(upper);
    }
    let whole = widen(upper).checked_div(i128::from(lower)).unwrap_or(0);
    clamped(low_half(whole.min(WIDE_LARGEST).max(WIDE_LARGEST.wrapping_neg())))
}

/// Whether a number is so small that it is taken for 0.
#[inline(always)]
pub(crate) fn is_tiny(number: i64) -> bool {
    number.unsigned_abs() <= TINY
}

/// A number that may be stored.
#[inline(always)]
pub(crate) fn clamped(number: i64) -> i64 {
    number.min(LARGEST).max(LARGEST.wrapping_neg())
}

/// A number that may be an entry of a factor, or a price.
#[inline(always)]
pub(crate) fn clamped_entry(number: i64) -> i64 {
    number.min(LARGEST_ENTRY).max(LARGEST_ENTRY.wrapping_neg())
}

/// A whole number as a value, clamped to 2^14.
#[inline(always)]
pub(crate) fn whole(number: i64) -> i64 {
    number.min(1 << 14).max(-(1 << 14)).wrapping_mul(ONE)
}

/// Whether one quotient is less than another. The divisors are positive.
#[inline(always)]
pub(crate) fn is_less_quotient(upper: i64, lower: i64, other_upper: i64, other_lower: i64) -> bool {
    wide_product(upper, other_lower) < wide_product(other_upper, lower)
}
