//! Finds the hint on a refused file.
ghost use Rattle.std.specs.Prelude.{◌≤◌, IfSome, length};
ghost use Rattle.vrp_command_streams.specs.Hints.{IsSound};
ghost use Rattle.vrp_text.specs.declared.lexer.limits.TheConstants.{MAX_BYTES};

use crate::file::FileHint;
use crate::keyword::{counts_trucks, other_problem};
use crate::line::{line_on, section_of, stated_on, tokens_in, value_of};
use crate::quoted::Quoted;
use vrp_model::MAX_NODES;
use vrp_text::{
    FileLineFault, Key, Keyword, MAX_BYTES, TextError, WeightFormat, dimension, faulty_token,
    number, weight_format,
};

/// The hint on a file with this refusal, if there is one. The contract leaves open which one it is.
pub fn file_hint<'a>(bytes: &'a [u8], refusal: &TextError) -> Option<FileHint<'a>>
    ensures { IfSome result IsSound }
{
    if bytes.len() > MAX_BYTES {
        return None;
    }
    match *refusal {
        TextError::UnknownKeyword(line) => unknown_keyword(bytes, line),
        TextError::Unsupported(line) | TextError::BadValue(line) => other_value(bytes, line),
        TextError::BadNumber(line) => no_number(bytes, line),
        TextError::NotWhole(line) => not_whole(bytes, line),
        TextError::Missing(_) if is_empty(bytes) => Some(FileHint::Empty),
        TextError::WrongCount(Key::Depot) => Some(FileHint::NoDepot),
        TextError::WrongCount(key) => wrong_count(bytes, key),
        TextError::BadNode(key, 0) => Some(FileHint::NodeZero(key)),
        _ => None,
    }
}

// Whether a file has no token.
fn is_empty(bytes: &[u8]) -> bool {
    bytes.iter().all(u8::is_ascii_whitespace)
}

// The hint on a keyword that isn't known.
fn unknown_keyword<'a>(bytes: &'a [u8], line: u32) -> Option<FileHint<'a>>
    requires { length bytes.now ≤ MAX_BYTES }
    ensures { IfSome result IsSound }
{
    let stated = stated_on(bytes, line)?;
    let keyword = Quoted(stated.name);
    if counts_trucks(stated.name) {
        let trucks = number(stated.value, 1, i64::from(MAX_NODES))
            .ok()
            .and_then(|trucks| u16::try_from(trucks).ok());
        return Some(FileHint::Trucks { keyword, trucks });
    }
    if let Some(states) = other_problem(stated.name) {
        return Some(FileHint::OtherProblem { keyword, states });
    }
    if stated.name.iter().any(u8::is_ascii_lowercase) {
        return Some(FileHint::SmallLetters);
    }
    None
}

// The hint on a keyword or value that is not supported, or on a value that a key can't have.
fn other_value<'a>(bytes: &'a [u8], line: u32) -> Option<FileHint<'a>>
    requires { length bytes.now ≤ MAX_BYTES }
    ensures { IfSome result IsSound }
{
    let stated = stated_on(bytes, line)?;
    match stated.keyword {
        Some(Keyword::Key(key @ (Key::NodeCoord | Key::EdgeWeight | Key::Demand | Key::Depot))) =>
            Some(FileHint::BehindSection(key)),
        Some(Keyword::Key(key)) => Some(FileHint::Value {
            key,
            value: Quoted(stated.value),
        }),
        _ => Some(FileHint::OtherProblem {
            keyword: Quoted(stated.name),
            states: other_problem(stated.name)?,
        }),
    }
}

// The hint on a line with a token that is not a number.
fn no_number<'a>(bytes: &'a [u8], line: u32) -> Option<FileHint<'a>>
    ensures { IfSome result IsSound }
{
    let token = faulty_token(line_on(bytes, line), FileLineFault::BadNumber)?;
    Some(FileHint::NoNumber(Quoted(token)))
}

// The hint on a line with a number that isn't whole.
fn not_whole<'a>(bytes: &'a [u8], line: u32) -> Option<FileHint<'a>>
    requires { length bytes.now ≤ MAX_BYTES }
    ensures { IfSome result IsSound }
{
    let token = faulty_token(line_on(bytes, line), FileLineFault::NotWhole)?;
    Some(FileHint::NotWhole {
        token: Quoted(token),
        section: section_of(bytes, line)?,
    })
}

// The hint on a section with too many or too few numbers.
fn wrong_count<'a>(bytes: &'a [u8], section: Key) -> Option<FileHint<'a>>
    requires { length bytes.now ≤ MAX_BYTES }
    ensures { IfSome result IsSound }
{
    let nodes = dimension(value_of(bytes, Key::Dimension)?).ok()?;
    let needed = match section {
        Key::NodeCoord => 3 * usize::from(nodes),
        Key::Demand => 2 * usize::from(nodes),
        Key::EdgeWeight => weights_needed(bytes, nodes)?,
        _ => return None,
    };
    Some(FileHint::Count {
        section,
        numbers: tokens_in(bytes, section),
        nodes,
        needed,
    })
}

// The number of weights that a matrix of this many nodes needs, in the file's format.
fn weights_needed(bytes: &[u8], nodes: u16) -> Option<usize>
    requires { length bytes.now ≤ MAX_BYTES }
{
    match weight_format(true, value_of(bytes, Key::WeightFormat)?) {
        Ok(WeightFormat::Matrix(layout)) => Some(layout.entries(nodes)),
        _ => None,
    }
}
