//! Values in units of 1/2^36, and prices in units of 1/2^20.

/// One, as a value.
pub(crate) const ONE: i64 = 1 << 36;

/// One unit of cost, as a price or a reduced cost.
pub(crate) const UNIT: i64 = 1 << 20;

// The bits behind the point of a price.
const BITS: u32 = 20;

/// A cost as a price.
#[inline(always)]
pub(crate) fn price_of(cost: u32) -> i64 {
    i64::from(cost).wrapping_mul(UNIT)
}

/// A price with so many bits behind the point, in our units.
pub(crate) fn in_units(price: i64, bits: u32) -> i64 {
    if bits >= BITS {
        price >> (bits - BITS).min(63)
    } else {
        price.saturating_mul(1 << (BITS - bits))
    }
}

/// A price in our units, from one in units of which so many are a unit of cost.
pub(crate) fn rescaled(price: i64, scale: u32) -> i64 {
    let units = wide_product(price, UNIT).wrapping_div(i128::from(scale.max(1)));
    i64::try_from(units).unwrap_or(0)
}

/// A product in full width.
#[inline(always)]
pub(crate) fn wide_product(left: i64, right: i64) -> i128 {
    i128::from(left).wrapping_mul(i128::from(right))
}

/// An element of a list, 0 beyond its end.
#[inline(always)]
pub(crate) fn at(list: &[i64], index: usize) -> i64 {
    list.get(index).copied().unwrap_or(0)
}

/// Sets an element of a list, if the list is long enough.
#[inline(always)]
pub(crate) fn put(list: &mut [i64], index: usize, number: i64) {
    if let Some(place) = list.get_mut(index) {
        *place = number;
    }
}
