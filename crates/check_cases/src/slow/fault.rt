//! Why a file is refused.

use std::alloc::AllocError;
use std::fmt;

/// The fault of a line.
#[derive(Clone, Copy, Debug)]
pub(crate) enum Wrong {
    DataOutside,
    UnknownKeyword,
    Repeated,
    BadValue,
    Unsupported,
    BadNumber,
    NotWhole,
}

/// Why there is no problem to evaluate.
#[derive(Clone, Copy, Debug)]
pub(crate) enum Fault {
    Line(u64, Wrong),
    Missing(&'static str),
    WrongCount(&'static str),
    BadNode(i64, &'static str),
    DepotDemand(i64),
    DemandOverCapacity(i64),
    TooLong,
    NoMemory,
}

impl fmt::Display for Wrong {
    fn fmt<W: fmt::Write>(&self, f: &mut fmt::Formatter<W>) -> fmt::Result {
        f.write_str(match self {
            Wrong::DataOutside => "data outside a section",
            Wrong::UnknownKeyword => "unknown keyword",
            Wrong::Repeated => "repeated keyword",
            Wrong::BadValue => "bad value",
            Wrong::Unsupported => "not supported",
            Wrong::BadNumber => "bad number",
            Wrong::NotWhole => "number is not whole",
        })
    }
}

impl fmt::Display for Fault {
    fn fmt<W: fmt::Write>(&self, f: &mut fmt::Formatter<W>) -> fmt::Result {
        match self {
            Fault::Line(number, wrong) => write!(f, "line {number}: {wrong}"),
            Fault::Missing(key) => write!(f, "missing {key}"),
            Fault::WrongCount(section) => write!(f, "wrong count in {section}"),
            Fault::BadNode(node, section) => write!(f, "bad node {node} in {section}"),
            Fault::DepotDemand(node) => write!(f, "node {node}: a depot has a demand"),
            Fault::DemandOverCapacity(node) => write!(f, "node {node}: demand above capacity"),
            Fault::TooLong => f.write_str("input too long"),
            Fault::NoMemory => f.write_str("out of memory"),
        }
    }
}

impl From<AllocError> for Fault {
    fn from(_refusal: AllocError) -> Fault {
        Fault::NoMemory
    }
}
