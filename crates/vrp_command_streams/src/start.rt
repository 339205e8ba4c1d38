//! Hints on a start plan.
ghost use Rattle.std.specs.Prelude.{None};

use crate::line::value_of;
use std::fmt;
use vrp_text::{Key, MAX_BYTES, MAX_NODE, Tokens, dimension, number};

/// More about a refused plan, and what to do about it. Its text is one line, without a line end; the contract leaves it open.
#[derive(Clone, Copy, Debug, PartialEq, Eq)]
pub enum StartHint {
    /// The plan is a report.
    Report,
    /// A customer has a number that only a node can have.
    NodeNumbers { customers: u16 },
}

impl fmt::Display for StartHint {
    ghost output = { λ _. None };

    fn fmt<W: fmt::Write>(&self, f: &mut fmt::Formatter<W>) -> fmt::Result {
        match self {
            StartHint::Report => f.write_str(
                "the plan looks like a report, whose numbers are those of nodes: save it with --format sol",
            ),
            StartHint::NodeNumbers { customers } => write!(
                f,
                "customers are numbered from 1 to {customers}, without the depot: a report, which has the numbers of nodes, is saved with --format sol"
            ),
        }
    }
}

/// The hint on the text of a refused plan, for the problem of a file, if there is one. The contract leaves open which one it
/// is.
pub fn start_hint(file: &[u8], text: &[u8]) -> Option<StartHint> {
    if has_verdict(text) {
        return Some(StartHint::Report);
    }
    if file.len() > MAX_BYTES {
        return None;
    }
    let nodes = dimension(value_of(file, Key::Dimension)?).ok()?;
    if has_stop(text, nodes) {
        Some(StartHint::NodeNumbers {
            customers: nodes - 1,
        })
    } else {
        None
    }
}

// Whether a route has a stop of this number.
fn has_stop(text: &[u8], stop: u16) -> bool {
    for line in text.split(|byte| *byte == b'\n') {
        if is_route(line) && has_number(line, stop) {
            return true;
        }
    }
    false
}

// Whether a line is that of a route.
fn is_route(line: &[u8]) -> bool {
    let word = Tokens::of(line).next().unwrap_or(&[]);
    word.eq_ignore_ascii_case(b"route".as_slice())
}

// Whether one of the tokens of a line is this number.
fn has_number(line: &[u8], wanted: u16) -> bool {
    let mut tokens = Tokens::of(line);
    while let Some(token) = tokens.next() {
        if number(token, 1, MAX_NODE) == Ok(i64::from(wanted)) {
            return true;
        }
    }
    false
}

// Whether a line has a report's verdict.
fn has_verdict(text: &[u8]) -> bool {
    text.split(|byte| *byte == b'\n').any(|line| {
        matches!(
            Tokens::of(line).next(),
            Some(b"Proven" | b"Open" | b"Lawful")
        )
    })
}

/// The cost that a plan's text states, if it states one.
pub fn stated_cost(text: &[u8]) -> Option<&[u8]> {
    for line in text.split(|byte| *byte == b'\n') {
        let mut tokens = Tokens::of(line);
        let word = tokens.next().unwrap_or(&[]);
        if word.eq_ignore_ascii_case(b"cost".as_slice())
            || word.eq_ignore_ascii_case(b"cost:".as_slice())
        {
            return tokens.next();
        }
    }
    None
}
