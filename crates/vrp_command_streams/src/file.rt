//! Hints on a refused file.
ghost use Rattle.std.specs.Prelude.{None};

use crate::quoted::Quoted;
use std::fmt;
use vrp_model::{MAX_CAPACITY, MAX_NODES};
use vrp_text::Key;

/// More about a refused file, and what to do about it. Its text is one line, without a line end; the contract leaves it open.
#[derive(Clone, Copy, Debug, PartialEq, Eq)]
pub enum FileHint<'a> {
    /// The file has no token.
    Empty,
    /// A token is not a number.
    NoNumber(Quoted<'a>),
    /// A token of a section is a number that isn't whole.
    NotWhole {
        token: Quoted<'a>,
        section: Key,
    },
    /// A keyword states the number of trucks; the number, if it can be one.
    Trucks {
        keyword: Quoted<'a>,
        trucks: Option<u16>,
    },
    /// A keyword of another problem, and what it is about.
    OtherProblem {
        keyword: Quoted<'a>,
        states: &'static str,
    },
    /// A keyword is in small letters.
    SmallLetters,
    /// A key has a value that isn't supported.
    Value {
        key: Key,
        value: Quoted<'a>,
    },
    /// Text follows the keyword of a section.
    BehindSection(Key),
    /// A section has this many numbers, but the nodes need another number of them.
    Count {
        section: Key,
        numbers: usize,
        nodes: u16,
        needed: usize,
    },
    /// No depot is listed.
    NoDepot,
    /// A section has a node 0.
    NodeZero(Key),
}

impl fmt::Display for FileHint<'_> {
    ghost output = { λ _. None };

    fn fmt<W: fmt::Write>(&self, f: &mut fmt::Formatter<W>) -> fmt::Result {
        match self {
            FileHint::Empty => f.write_str(
                "the input is empty: a file is read from standard input, as in cvrp < FILE",
            ),
            FileHint::NoNumber(token) => write!(f, "{token} is no number"),
            FileHint::NotWhole { token, section } => write_not_whole(f, *token, *section),
            FileHint::Trucks { keyword, trucks } => write_trucks(f, *keyword, *trucks),
            FileHint::OtherProblem { keyword, states } => write!(
                f,
                "{keyword} {states}, and that is not supported"
            ),
            FileHint::SmallLetters => f.write_str("keywords are written in capital letters"),
            FileHint::Value { key, value } => write_value(f, *key, *value),
            FileHint::BehindSection(key) => write!(f, "nothing may stand behind {key} on its line"),
            FileHint::Count {
                section,
                numbers,
                nodes,
                needed,
            } => write!(
                f,
                "{section} has {numbers} numbers, and DIMENSION {nodes} needs {needed}"
            ),
            FileHint::NoDepot => f.write_str("no depot is listed before the -1"),
            FileHint::NodeZero(key) => write!(f, "nodes are counted from 1 in {key}, not from 0"),
        }
    }
}

// Which number must be whole, and how to make it so.
fn write_not_whole<W: fmt::Write>(
    f: &mut fmt::Formatter<W>,
    token: Quoted<'_>,
    section: Key,
) -> fmt::Result {
    write!(f, "{token} is not whole: ")?;
    f.write_str(match section {
        Key::NodeCoord => {
            "coordinates have to be; multiply all of them by the same power of ten, and costs grow alike"
        }
        Key::EdgeWeight => {
            "weights have to be; multiply all of them by the same power of ten, and costs grow alike"
        }
        Key::Demand => {
            "demands have to be; multiply all of them, and CAPACITY, by the same power of ten"
        }
        _ => "the numbers of nodes have to be",
    })
}

// Which option sets the number of trucks.
fn write_trucks<W: fmt::Write>(
    f: &mut fmt::Formatter<W>,
    keyword: Quoted<'_>,
    trucks: Option<u16>,
) -> fmt::Result {
    match trucks {
        Some(trucks) => write!(f, "give --trucks {trucks}, and take the line {keyword} out"),
        None => write!(f, "give --trucks N, and take the line {keyword} out"),
    }
}

// The values that a key may have.
fn write_value<W: fmt::Write>(
    f: &mut fmt::Formatter<W>,
    key: Key,
    value: Quoted<'_>,
) -> fmt::Result {
    write!(f, "{key} is {value}: ")?;
    match key {
        Key::Problem => f.write_str("only CVRP is solved"),
        Key::Dimension => write!(f, "it has to be a whole number from 1 to {MAX_NODES}"),
        Key::Capacity => write!(f, "it has to be a whole number from 1 to {MAX_CAPACITY}"),
        Key::WeightKind => {
            f.write_str("it has to be EUC_2D, CEIL_2D, MAN_2D, MAX_2D, ATT or EXPLICIT")
        }
        _ => f.write_str(
            "it has to be FULL_MATRIX, UPPER_ROW, LOWER_ROW, UPPER_DIAG_ROW, LOWER_DIAG_ROW, UPPER_COL, LOWER_COL, UPPER_DIAG_COL or LOWER_DIAG_COL",
        ),
    }
}
