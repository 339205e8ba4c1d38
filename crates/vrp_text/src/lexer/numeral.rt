//! Numerals: whole numbers and decimal fractions with a power of ten, and their exact values.
ghost use Rattle.std.specs.Prelude.{◌≡◌, ◌+◌, ◌*◌, ◌/◌, ◌%◌, ◌^◌, ◌≤◌, ◌<◌, ◌≤ℤ◌, ◌==◌, ℤ, if◌then◌else◌, Some, None, Err, IfOk, IfSome, option_map, length};
ghost use Rattle.std.specs.Char.{is_ascii_digit};
ghost use Rattle.std.specs.List.{prefix_len, take_while};
ghost use Rattle.std.specs.Str.Parse.{digits_value_after};
ghost use Rattle.vrp_text.specs.Bytes.{skip_while};
ghost use Rattle.vrp_text.specs.Numeral.{AreDigits, number_of, in_range, is_minus, without_sign, numeral_of, numeral_with, power_of, power_of_digits};
ghost use Rattle.vrp_text.specs.Inner.KeptNumeral.{IsSmallPower, IsSmallNumeral, written_power, read_numeral, read_value};

use crate::lexer::fault::FileLineFault;
use crate::lexer::limits::{MAX_DIGITS, MAX_POWER, MAX_POWER_DIGITS};
use crate::lexer::tokens::Tokens;

// The greatest length of a numeral in bytes: a sign, digits, a point, a letter, a sign and the digits of a power.
const MAX_LENGTH: usize = 1 + MAX_DIGITS + 1 + 1 + 1 + MAX_POWER_DIGITS;

// A power of ten: 10 to the `up` over 10 to the `down`.
#[derive(Clone, Copy)]
struct Power {
    up: u32,
    down: u32,
}

// The parts of a numeral: its digits as one number, and how many of them are behind the point.
#[derive(Clone, Copy)]
struct Numeral {
    negative: bool,
    digits: u64,
    places: u32,
    power: Power,
}

// Whether a minus sign stands at the front.
fn is_minus(text: &[u8]) -> bool
    ensures { result ≡ is_minus text.now }
{
    matches!(text, [b'-', ..])
}

// The text without its optional sign.
fn without_sign(text: &[u8]) -> &[u8]
    ensures { result.now ≡ without_sign text.now }
{
    match text {
        [b'+' | b'-', unsigned @ ..] => unsigned,
        _ => text,
    }
}

// The number of digits at the front.
fn leading_digits(text: &[u8]) -> usize
    ensures { result ≡ prefix_len is_ascii_digit text.now }
{
    let mut count = 0;
    for byte in text {
        if !byte.is_ascii_digit() {
            return count;
        }
        count += 1;
    }
    count
}

// The digits at the front, and the text behind them.
fn split_digits(text: &[u8]) -> (&[u8], &[u8])
    ensures digits { result.0.now ≡ take_while is_ascii_digit text.now }
    ensures behind { result.1.now ≡ skip_while is_ascii_digit text.now }
    ensures all_digits { AreDigits result.0.now }
{
    text.split_at(leading_digits(text))
}

// The number that these digits write after those of `value`.
fn value_after(value: u64, digits: &[u8]) -> u64
    requires small { (value + 1) * 10 ^ length digits.now ≤ 10 ^ MAX_DIGITS }
    requires all_digits { AreDigits digits.now }
    ensures value { result ≡ digits_value_after 10 value digits.now }
    ensures small { result + 1 ≤ (value + 1) * 10 ^ length digits.now }
{
    let mut number = value;
    for digit in digits {
        number = number * 10 + u64::from(*digit - b'0');
    }
    number
}

// The power of ten that one to `MAX_POWER_DIGITS` digits write, with or without a sign, if it is at most `MAX_POWER`.
fn power_of_digits(text: &[u8]) -> Option<Power>
    ensures value { power_of_digits text.now ≡ option_map written_power result }
    ensures small { IfSome result IsSmallPower }
{
    let digits = without_sign(text);
    if digits.is_empty() || digits.len() > MAX_POWER_DIGITS {
        return None;
    }
    if leading_digits(digits) < digits.len() {
        return None;
    }
    let size = value_after(0, digits);
    if size > MAX_POWER {
        return None;
    }
    let size = size as u32;
    if is_minus(text) {
        Some(Power { up: 0, down: size })
    } else {
        Some(Power { up: size, down: 0 })
    }
}

// The power of ten behind a numeral's digits.
fn power_of(text: &[u8]) -> Option<Power>
    ensures value { power_of text.now ≡ option_map written_power result }
    ensures small { IfSome result IsSmallPower }
{
    match text {
        [] => Some(Power { up: 0, down: 0 }),
        [b'e' | b'E', power @ ..] => power_of_digits(power),
        _ => None,
    }
}

// The numeral that a text writes, if it is one.
fn numeral_of(text: &[u8]) -> Option<Numeral>
    ensures value { result ≡ option_map read_numeral (numeral_of text.now) }
    ensures small { IfSome result IsSmallNumeral }
{
    if text.len() > MAX_LENGTH {
        return None;
    }
    let (whole, behind) = split_digits(without_sign(text));
    let (fraction, power) = match behind {
        [b'.', fraction @ ..] => split_digits(fraction),
        _ => (&behind[..0], behind),
    };
    numeral_with(is_minus(text), whole, fraction, power_of(power)?)
}

// The numeral of these digits.
fn numeral_with(negative: bool, whole: &[u8], fraction: &[u8], power: Power) -> Option<Numeral>
    requires whole { AreDigits whole.now }
    requires fraction { AreDigits fraction.now }
    requires power { IsSmallPower power }
    ensures value { result ≡ option_map read_numeral
        (numeral_with negative whole.now fraction.now (written_power power)) }
    ensures small { IfSome result IsSmallNumeral }
{
    let count = whole.len() + fraction.len();
    if count < 1 || count > MAX_DIGITS {
        return None;
    }
    Some(Numeral {
        negative,
        digits: value_after(value_after(0, whole), fraction),
        places: fraction.len() as u32,
        power,
    })
}

// A number divided by 10 to the `down`, if that is whole.
fn over_power(size: u128, down: u32) -> Option<u128>
    requires { down ≤ MAX_DIGITS + MAX_POWER }
    ensures value { result ≡ (if size % 10 ^ down == 0 then Some (size / 10 ^ down) else None) }
    ensures small { IfSome result (λ quotient. quotient ≤ size) }
{
    if down == 0 {
        return Some(size);
    }
    let unit = 10u128.pow(down);
    if size % unit == 0 {
        Some(size / unit)
    } else {
        None
    }
}

// The exact value of a numeral, if it is whole.
fn whole_value(numeral: Numeral) -> Option<i128>
    requires { IsSmallNumeral numeral }
    ensures { result ≡ read_value numeral }
{
    let size = u128::from(numeral.digits) * 10u128.pow(numeral.power.up);
    let value = over_power(size, numeral.places + numeral.power.down)? as i128;
    Some(if numeral.negative { -value } else { value })
}

// The value, if it is from `low` to `high`.
fn in_range(low: i64, high: i64, value: i128) -> Result<i64, FileLineFault>
    ensures value { result ≡ in_range low high (Some value) }
    ensures in_range { IfOk result (λ number. (low ≤ℤ number) × (number ≤ℤ high)) }
{
    if i128::from(low) <= value && value <= i128::from(high) {
        Ok(value as i64)
    } else {
        Err(FileLineFault::BadNumber)
    }
}

/// The whole number from `low` to `high` that a token writes.
pub fn number(token: &[u8], low: i64, high: i64) -> Result<i64, FileLineFault>
    ensures value { result ≡ number_of low high token.now }
    ensures in_range { IfOk result (λ number. (low ≤ℤ number) × (number ≤ℤ high)) }
{
    let Some(numeral) = numeral_of(token) else {
        return Err(FileLineFault::BadNumber);
    };
    let Some(value) = whole_value(numeral) else {
        return Err(FileLineFault::NotWhole);
    };
    in_range(low, high, value)
}

/// The first token of a line with this fault, for any range of its number. No clause says when there is none.
pub fn faulty_token(line: &[u8], fault: FileLineFault) -> Option<&[u8]>
    ensures { IfSome result (λ token. (low high : ℤ) × (number_of low high token.now ≡ Err fault)) }
{
    let mut tokens = Tokens::of(line);
    while let Some(token) = tokens.next() {
        if number(token, i64::MIN, i64::MAX) == Err(fault) {
            return Some(token);
        }
    }
    None
}
