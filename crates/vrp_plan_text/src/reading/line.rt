//! The meaning of a line of a solution.
ghost use Rattle.std.specs.Prelude.{◌≡◌, ◌≤ℤ◌, ◌||◌, ◌==◌, ℕ, pos, List, codes, option_copied, IfOk, IsErr, MatchOption, MatchResult};
ghost use Rattle.std.specs.List.{position};
ghost use Rattle.vrp_text.specs.Numeral.{number_of};
ghost use Rattle.vrp_plan_text.specs.Line as spec;
ghost use Rattle.vrp_plan_text.specs.Line.{cost_line, is_word, number_token, without_hash};
ghost use Rattle.vrp_plan_text.specs.Inner.Parted.{ArePartedAt};
ghost use Rattle.vrp_plan_text.specs.Inner.Read.{IsCostRead, IsRead};

use vrp_text::{FileLineFault, Tokens, number};

/// The greatest absolute value of a number in a line.
pub(crate) const MAX_NUMBER: i64 = 1_000_000_000_000_000_000;

/// The meaning of a line.
#[derive(Drop)]
pub(crate) enum Said<'a> {
    Nothing,
    /// A route has this number and these stops.
    Route { number: u64, stops: Tokens<'a> },
    /// The plan has this cost.
    Cost(StatedCost),
}

/// The cost stated by a solution.
#[derive(Clone, Copy, PartialEq, Eq)]
pub(crate) enum StatedCost {
    Whole(u64),
    /// A cost that isn't whole; no plan has one.
    Fraction,
}

/// The fault of a line.
#[derive(Clone, Copy, PartialEq, Eq)]
pub(crate) enum LineError {
    Unknown,
    BadNumber,
}

// The position of the first such byte.
fn place_of(text: &[u8], byte: u8) -> Option<usize>
    ensures { result ≡ position (λ other. other == byte) text.now }
{
    text.iter().position(|other| *other == byte)
}

/// The parts before and behind the first such byte.
pub(crate) fn parted(text: &[u8], byte: u8) -> Option<(&[u8], &[u8])>
    ensures { MatchOption result
        (position (λ other. other == byte) text.now ≡ None)
        (λ parts. ArePartedAt (λ other. other == byte) text.now parts.0.now parts.1.now) }
{
    match place_of(text, byte) {
        Some(place) => Some((&text[..place], &text[place + 1..])),
        None => None,
    }
}

/// The meaning of a line: `Route #1: 5 2` or `Cost 521`. Letters may be small or capital, blanks may stand between all parts,
/// and the sign `#` and the colon behind `Cost` are optional.
pub(crate) fn line_of(text: &[u8]) -> Result<Said<'_>, LineError>
    ensures { IsRead (spec.line_of text.now) result }
{
    let mut tokens = Tokens::of(text);
    let Some(word) = tokens.next() else {
        return Ok(Said::Nothing);
    };
    if is_cost(word) {
        Ok(Said::Cost(stated_cost(tokens)?))
    } else if is_route(word) {
        route_line(text)
    } else {
        Err(LineError::Unknown)
    }
}

// Whether a token is the word of the cost.
fn is_cost(token: &[u8]) -> bool
    ensures { result ≡ (is_word (codes "cost") token.now || is_word (codes "cost:") token.now) }
{
    token.eq_ignore_ascii_case(b"cost".as_slice())
        || token.eq_ignore_ascii_case(b"cost:".as_slice())
}

// Whether a token is the word of a route.
fn is_route(token: &[u8]) -> bool
    ensures { result ≡ is_word (codes "route") token.now }
{
    token.eq_ignore_ascii_case(b"route".as_slice())
}

// The cost behind its word.
fn stated_cost(mut tokens: Tokens<'_>) -> Result<StatedCost, LineError>
    ensures { IsCostRead (cost_line tokens.entry) result }
{
    let Some(cost) = tokens.next() else {
        return Err(LineError::Unknown);
    };
    if !tokens.is_empty() {
        return Err(LineError::Unknown);
    }
    match number(cost, 0, MAX_NUMBER) {
        Ok(cost) => Ok(StatedCost::Whole(cost as u64)),
        Err(fault) => match fault {
            FileLineFault::NotWhole => Ok(StatedCost::Fraction),
            _ => Err(LineError::BadNumber),
        },
    }
}

// The number before the colon, and the stops behind it.
fn route_line(text: &[u8]) -> Result<Said<'_>, LineError>
    ensures { IsRead (spec.parted_line text.now) result }
{
    let Some((heading, stops)) = parted(text, b':') else {
        return Err(LineError::Unknown);
    };
    let Some(digits) = number_token(Tokens::of(heading)) else {
        return Err(LineError::Unknown);
    };
    match whole(digits, 0) {
        Ok(number) => Ok(Said::Route {
            number: number as u64,
            stops: Tokens::of(stops),
        }),
        Err(error) => Err(error),
    }
}

// The token of the number behind the word of a route.
fn number_token(mut tokens: Tokens<'_>) -> Option<&[u8]>
    ensures { option_copied result ≡ number_token tokens.entry }
{
    let _word = tokens.next()?;
    let first = tokens.next()?;
    let token = if first == b"#".as_slice() {
        tokens.next()?
    } else {
        without_hash(first)
    };
    if tokens.is_empty() { Some(token) } else { None }
}

// The token without a leading sign #.
fn without_hash(token: &[u8]) -> &[u8]
    ensures { result.now ≡ without_hash token.now }
{
    match token {
        [b'#', digits @ ..] => digits,
        _ => token,
    }
}

/// The whole number of a token, at least `least`.
pub(crate) fn whole(token: &[u8], least: i64) -> Result<i64, LineError>
    ensures value { MatchResult result
        (λ whole. number_of least MAX_NUMBER token.now ≡ Ok whole)
        (λ error. (error ≡ LineError.BadNumber) × IsErr (number_of least MAX_NUMBER token.now)) }
    ensures in_range { IfOk result (λ number. (least ≤ℤ number) × (number ≤ℤ MAX_NUMBER)) }
{
    number(token, least, MAX_NUMBER).map_err(|_| LineError::BadNumber)
}
