//! Hints on a refused command line.
ghost use Rattle.std.specs.Prelude.{None};

use crate::limits::{MAX_BUDGET, MAX_SECONDS};
use std::fmt;
use vrp_model::MAX_NODES;
use vrp_search_tree::MAX_PIECES;
use vrp_solver::MAX_WORKERS;

/// More about refused arguments, and what to do about it. Its text is one line, without a line end; the contract leaves it open.
#[derive(Clone, Copy, Debug, PartialEq, Eq)]
pub enum ArgumentHint<'a> {
    /// An option has a value that it doesn't accept.
    Value {
        option: &'a str,
        takes: Takes,
    },
    /// A argument is not an option.
    NoOption(&'a str),
    /// An option doesn't exist, and another one has its meaning.
    Meant {
        option: &'a str,
        meant: &'static str,
    },
}

/// The values that an option accepts.
#[derive(Clone, Copy, Debug, PartialEq, Eq)]
pub enum Takes {
    Nothing,
    /// A whole number from 1 to this one.
    Number(u64),
    /// The path of a file.
    Path,
    /// The name of a form.
    Form,
}

impl fmt::Display for ArgumentHint<'_> {
    // No clause covers the text.
    ghost output = { λ _. None };

    fn fmt<W: fmt::Write>(&self, f: &mut fmt::Formatter<W>) -> fmt::Result {
        match self {
            ArgumentHint::Value { option, takes } => write!(f, "--{option} takes {takes}"),
            ArgumentHint::NoOption(argument) => write!(
                f,
                "a file comes on standard input, as in cvrp < {argument}"
            ),
            ArgumentHint::Meant { option, meant } => write!(f, "for --{option} there is {meant}"),
        }
    }
}

impl fmt::Display for Takes {
    ghost output = { λ _. None };

    fn fmt<W: fmt::Write>(&self, f: &mut fmt::Formatter<W>) -> fmt::Result {
        match self {
            Takes::Nothing => f.write_str("no value"),
            Takes::Number(most) => write!(f, "a whole number from 1 to {most}"),
            Takes::Path => f.write_str("the path of a file"),
            Takes::Form => f.write_str("report, sol, json or svg"),
        }
    }
}

/// The hint on refused arguments, if there is one: on the first argument that has a hint. The contract leaves open which one it is.
pub fn argument_hint<'a>(arguments: &'a [&'a str]) -> Option<ArgumentHint<'a>> {
    let mut arguments = arguments.iter();
    while let Some(argument) = arguments.next() {
        let Some(option) = argument.strip_prefix("--") else {
            return no_option(argument);
        };
        let (name, value) = parted(option);
        let Some(takes) = taken_by(name) else {
            return meant(name);
        };
        let value = if value.is_none() && takes != Takes::Nothing {
            arguments.next().copied()
        } else {
            value
        };
        if !fits(takes, value) {
            return Some(ArgumentHint::Value {
                option: name,
                takes,
            });
        }
    }
    None
}

// The name of an option, and the value behind it in the same argument.
fn parted(option: &str) -> (&str, Option<&str>) {
    match option.split_once('=') {
        Some((name, value)) => (name, Some(value)),
        None => (option, None),
    }
}

// The hint on an argument that is not an option.
fn no_option(argument: &str) -> Option<ArgumentHint<'_>> {
    if argument.starts_with('-') {
        None
    } else {
        Some(ArgumentHint::NoOption(argument))
    }
}

// The values that an option of this name accepts, if there is such an option.
fn taken_by(name: &str) -> Option<Takes> {
    match name {
        "workers" | "threads" => Some(Takes::Number(u64::from(MAX_WORKERS))),
        "pieces" => Some(Takes::Number(u64::from(MAX_PIECES))),
        "budget" => Some(Takes::Number(MAX_BUDGET)),
        "seconds" | "time-limit" => Some(Takes::Number(u64::from(MAX_SECONDS))),
        "depot" | "trucks" | "vehicles" => Some(Takes::Number(u64::from(MAX_NODES))),
        "start" => Some(Takes::Path),
        "format" => Some(Takes::Form),
        "progress" | "check" | "strict" | "explain" | "help" | "version" => Some(Takes::Nothing),
        _ => None,
    }
}

// Whether an option accepts this value, or no value.
fn fits(takes: Takes, value: Option<&str>) -> bool {
    match (takes, value) {
        (Takes::Nothing, value) => value.is_none(),
        (Takes::Number(most), Some(value)) => match value.parse::<u64>() {
            Ok(number) => 1 <= number && number <= most,
            Err(_) => false,
        },
        (Takes::Path, Some(_)) => true,
        (Takes::Form, Some(form)) => matches!(form, "report" | "sol" | "json" | "svg"),
        (_, None) => false,
    }
}

// The hint on an option that doesn't exist, if another one has its meaning.
fn meant(name: &str) -> Option<ArgumentHint<'_>> {
    let meant = match name {
        "thread" | "jobs" | "cores" | "cpus" => "--workers",
        "time" | "timeout" | "time_limit" | "max-time" | "limit" => "--seconds",
        "truck" | "vehicle" | "fleet" | "num-vehicles" | "max-vehicles" => "--trucks",
        "initial" | "warm-start" | "solution" => "--start",
        "verify" | "validate" => "--check",
        "verbose" | "log" => "--progress",
        "output-format" | "json" | "sol" | "svg" => "--format",
        "output" | "out" => "standard output, as in cvrp < FILE > REPORT",
        "input" | "file" | "instance" => "standard input, as in cvrp < FILE",
        "hint" | "hints" => "--explain",
        _ => return None,
    };
    Some(ArgumentHint::Meant {
        option: name,
        meant,
    })
}
