//! Numerals, read digit by digit.

use crate::slow::fault::Wrong;

const MOST_DIGITS: usize = 18;

const MOST_POWER_DIGITS: usize = 4;

const MOST_POWER: i32 = 18;

/// The whole number from low to high that a token writes.
pub(crate) fn whole(token: &str, low: i64, high: i64) -> Result<i64, Wrong> {
    let (mut value, shift) = digits_and_shift(token).ok_or(Wrong::BadNumber)?;
    for _ in 0..shift {
        value = value.saturating_mul(10);
    }
    for _ in shift..0 {
        if value % 10 != 0 {
            return Err(Wrong::NotWhole);
        }
        value /= 10;
    }
    match i64::try_from(value) {
        Ok(value) if low <= value && value <= high => Ok(value),
        _ => Err(Wrong::BadNumber),
    }
}

// A numeral's digits as one signed number, and the power of ten to multiply it by.
fn digits_and_shift(token: &str) -> Option<(i128, i32)> {
    let (is_negative, unsigned) = sign(token);
    let (digits, power) = match unsigned.split_once(['e', 'E']) {
        Some((digits, power)) => (digits, signed_power(power)?),
        None => (unsigned, 0),
    };
    let (before, after) = digits.split_once('.').unwrap_or((digits, ""));
    let count = before.len().saturating_add(after.len());
    if !are_digits(before) || !are_digits(after) || count < 1 || count > MOST_DIGITS {
        return None;
    }
    let size = i128::from(value_of(value_of(0, before), after));
    let places = i32::try_from(after.len()).ok()?;
    let value = if is_negative {
        size.saturating_neg()
    } else {
        size
    };
    Some((value, power.saturating_sub(places)))
}

// Whether there is a minus sign at the front, and the text behind the optional sign.
fn sign(text: &str) -> (bool, &str) {
    match text.strip_prefix('-') {
        Some(unsigned) => (true, unsigned),
        None => (false, text.strip_prefix('+').unwrap_or(text)),
    }
}

// The power of ten behind the letter e.
fn signed_power(text: &str) -> Option<i32> {
    let (is_negative, digits) = sign(text);
    if !are_digits(digits) || digits.is_empty() || digits.len() > MOST_POWER_DIGITS {
        return None;
    }
    let power = i32::try_from(value_of(0, digits)).ok()?;
    if power > MOST_POWER {
        None
    } else if is_negative {
        Some(power.saturating_neg())
    } else {
        Some(power)
    }
}

fn are_digits(text: &str) -> bool {
    text.bytes().all(|byte| byte.is_ascii_digit())
}

// The number that these digits write after those of another number.
fn value_of(front: u64, digits: &str) -> u64 {
    let mut value = front;
    for digit in digits.bytes() {
        value = value
            .saturating_mul(10)
            .saturating_add(u64::from(digit.saturating_sub(b'0')));
    }
    value
}
