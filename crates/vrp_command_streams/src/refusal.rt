//! The texts of refused files.
ghost use Rattle.std.specs.Prelude.{Some};
ghost use Rattle.vrp_command_streams.specs.Refusal.{refusal_text, instance_text};

use std::fmt;
use vrp_model::InstanceError;
use vrp_text::TextError;

/// Prints why a file is refused. (The output of `thiserror` has no contract, so `TextError` can't promise its text.)
#[derive(Clone, Copy)]
pub(crate) struct Refusal(pub TextError);

impl fmt::Display for Refusal {
    ghost output = { λ refusal. Some (refusal_text refusal.0) };

    fn fmt<W: fmt::Write>(&self, f: &mut fmt::Formatter<W>) -> fmt::Result {
        match &self.0 {
            TextError::DataOutside(line) => write!(f, "line {line}: data outside a section"),
            TextError::UnknownKeyword(line) => write!(f, "line {line}: unknown keyword"),
            TextError::Repeated(line) => write!(f, "line {line}: repeated keyword"),
            TextError::BadValue(line) => write!(f, "line {line}: bad value"),
            TextError::Unsupported(line) => write!(f, "line {line}: not supported"),
            TextError::BadNumber(line) => write!(f, "line {line}: bad number"),
            TextError::NotWhole(line) => write!(f, "line {line}: number is not whole"),
            TextError::Missing(key) => write!(f, "missing {key}"),
            TextError::WrongCount(key) => write!(f, "wrong count in {key}"),
            TextError::BadNode(key, node) => write!(f, "bad node {node} in {key}"),
            TextError::Instance(refusal) => write!(f, "{}", NoInstance(*refusal)),
            TextError::TooLong => f.write_str("input too long"),
            TextError::OutOfMemory => f.write_str("out of memory"),
        }
    }
}

// Prints why no instance can be made.
#[derive(Clone, Copy)]
struct NoInstance(InstanceError);

impl fmt::Display for NoInstance {
    ghost output = { λ refusal. Some (instance_text refusal.0) };

    fn fmt<W: fmt::Write>(&self, f: &mut fmt::Formatter<W>) -> fmt::Result {
        match &self.0 {
            InstanceError::DepotDemand(node) => write!(f, "node {node}: a depot has a demand"),
            InstanceError::NotADepot(node) => write!(f, "node {node}: not a depot"),
            InstanceError::DemandOverCapacity(node) => write!(
                f,
                "node {node}: demand above capacity"
            ),
            InstanceError::OutOfMemory => f.write_str("out of memory"),
        }
    }
}
