//! The values that the arguments of a command line give to its options.
ghost use Rattle.std.specs.Prelude.{◌≡◌, ◌+◌, ◌<◌, ◌≤◌, ◌↔◌, IfOk, IsTrue, MatchOption, length};
ghost use Rattle.std.specs.Option.{ForSome};
ghost use Rattle.vrp_model.specs.declared.limits.TheConstants.{MAX_NODES};
ghost use Rattle.vrp_command_request.specs.Arguments.{HasArgument, HasArgumentFrom};
ghost use Rattle.vrp_command_request.specs.Given.{GivesAt, GivesEither, GivesNext, GivesValue, IsBehind, IsGiven, IsNamedBy, IsReadFrom};
ghost use Rattle.vrp_command_request.specs.declared.limits.TheConstants.{MAX_BUDGET};

use crate::limits::MAX_BUDGET;
use crate::options::Format;
use vrp_model::MAX_NODES;

// A value that is no number, a number out of its range, or no form.
#[derive(Clone, Copy)]
pub(crate) struct BadValue;

// Whether one of the arguments is this flag.
pub(crate) fn has_argument(arguments: &[&str], argument: &str) -> bool
    ensures { IsTrue result ↔ HasArgument arguments.now argument.now }
{
    arguments.contains(&argument)
}

// Whether one of the arguments begins with this flag.
pub(crate) fn has_argument_from(arguments: &[&str], flag: &str) -> bool
    ensures { IsTrue result → HasArgumentFrom arguments.now flag.now }
{
    for at in 0..arguments.len() {
        if arguments[at].starts_with(flag) {
            return true;
        }
    }
    false
}

// The value that the arguments give to an option: the first one, if there are several.
pub(crate) fn value_of<'a>(arguments: &'a [&'a str], name: &str) -> Option<&'a str>
    ensures { IsGiven (GivesValue arguments.now name.now) result }
{
    for at in 0..arguments.len() {
        if let Some(value) = value_at(arguments, at, name) {
            return Some(value);
        }
    }
    None
}

// The value that the arguments give to an option, by its name or its alias.
pub(crate) fn value_of_either<'a>(
    arguments: &'a [&'a str],
    name: &str,
    alias: &str,
) -> Option<&'a str>
    ensures { IsGiven (GivesEither arguments.now name.now alias.now) result }
{
    match value_of(arguments, name) {
        Some(value) => Some(value),
        None => value_of(arguments, alias),
    }
}

// The value that the argument at this place gives to an option.
fn value_at<'a>(arguments: &'a [&'a str], at: usize, name: &str) -> Option<&'a str>
    requires { at < length arguments.now }
    ensures { IsGiven (GivesAt arguments.now name.now at) result }
{
    let argument = arguments[at];
    if argument == name {
        next_one(arguments, at)
    } else {
        behind(argument, name)
    }
}

// The argument behind this one, if there is one.
fn next_one<'a>(arguments: &'a [&'a str], at: usize) -> Option<&'a str>
    requires { at < length arguments.now }
    ensures { MatchOption result (length arguments.now ≤ at + 1) (λ value. GivesNext arguments.now at value.now) }
{
    if at + 1 < arguments.len() {
        Some(arguments[at + 1])
    } else {
        None
    }
}

// The value behind a name and '=' in an argument.
fn behind<'a>(argument: &'a str, name: &str) -> Option<&'a str>
    ensures { IsGiven (IsBehind argument.now name.now) result }
{
    match argument.strip_prefix(name) {
        Some(rest) => rest.strip_prefix('='),
        None => None,
    }
}

// The number in a value, if there is a value: from 1 to the most.
pub(crate) fn count(value: Option<&str>, most: u32) -> Result<Option<u32>, BadValue>
    ensures number { IfOk result (λ number. IsReadFrom value.entry number) }
    ensures some { IfOk result (λ number. ForSome number (λ n. 1 ≤ n)) }
    ensures few { IfOk result (λ number. ForSome number (λ n. n ≤ most)) }
{
    let Some(text) = value else {
        return Ok(None);
    };
    match text.parse::<u32>() {
        Ok(number) if 1 <= number && number <= most => Ok(Some(number)),
        _ => Err(BadValue),
    }
}

// The budget in a value, if there is a value.
pub(crate) fn budget(value: Option<&str>) -> Result<Option<u64>, BadValue>
    ensures number { IfOk result (λ number. IsReadFrom value.entry number) }
    ensures some { IfOk result (λ number. ForSome number (λ n. 1 ≤ n)) }
    ensures few { IfOk result (λ number. ForSome number (λ n. n ≤ MAX_BUDGET)) }
{
    let Some(text) = value else {
        return Ok(None);
    };
    match text.parse::<u64>() {
        Ok(number) if 1 <= number && number <= MAX_BUDGET => Ok(Some(number)),
        _ => Err(BadValue),
    }
}

// The node, or the number of trucks, in a value, if there is a value.
pub(crate) fn node(value: Option<&str>) -> Result<Option<u16>, BadValue>
    ensures number { IfOk result (λ number. IsReadFrom value.entry number) }
    ensures some { IfOk result (λ number. ForSome number (λ n. 1 ≤ n)) }
    ensures few { IfOk result (λ number. ForSome number (λ n. n ≤ MAX_NODES)) }
{
    let Some(text) = value else {
        return Ok(None);
    };
    match text.parse::<u16>() {
        Ok(node) if 1 <= node && node <= MAX_NODES => Ok(Some(node)),
        _ => Err(BadValue),
    }
}

// The form that a value names, or the report where there is no value.
pub(crate) fn form(value: Option<&str>) -> Result<Format, BadValue>
    ensures { IfOk result (λ form. IsNamedBy value.entry form) }
{
    match value {
        None | Some("report") => Ok(Format::Report),
        Some("sol") => Ok(Format::Solution),
        Some("json") => Ok(Format::Json),
        Some("svg") => Ok(Format::Picture),
        Some(_) => Err(BadValue),
    }
}
