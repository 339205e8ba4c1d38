//! One pass over the lines of a file, each of which states something or is at fault.
ghost use Rattle.std.specs.Prelude.{◌≡◌, ◌≤◌, IfOk, IfErr, OnOk, Err, None, [], length};
ghost use Rattle.vrp_text.specs.Inner.Answered.{FailsWith, RefusesFor};
ghost use Rattle.vrp_text.specs.Inner.MarkedKeys.{AddsKeyOf};
ghost use Rattle.vrp_text.specs.Inner.OpenPart.{heading_error, heading_fault, keyword_line_fault, open_part_fault, with_heading, with_open_part};
ghost use Rattle.vrp_text.specs.Line.{lines_of, tokens_of};
ghost use Rattle.vrp_text.specs.Meaning.{all_stated, file_line_fault, reading_of};
ghost use Rattle.vrp_text.specs.Part.{before_end};
ghost use Rattle.vrp_text.specs.Stated.{is_explicit, parts_fault, stated_by};
ghost use Rattle.vrp_text.specs.Inner.StatedSoFar.{with_keyword};
ghost use Rattle.vrp_text.specs.Inner.LinesLeft.{parts_left};
ghost use Rattle.vrp_text.specs.Refusal.{Refuses};

use crate::error::TextError;
use crate::fault::at_line;
use crate::keys::Keys;
use crate::lexer::{FileLineFault, Heading, Key, Keyword, Lines, MAX_BYTES};
use crate::section::{content_of, pass_no_data, read_content};
use crate::statements::{Statements, no_value, value};
use std::alloc::Global;

// Whether the first EDGE_WEIGHT_TYPE of the lines is EXPLICIT.
fn is_explicit(lines: &mut Lines<'_>) -> bool
    ensures { result ≡ is_explicit (parts_left lines.old) }
{
    while let Some(heading) = lines.next_heading() {
        if let Some(Keyword::Key(Key::WeightKind)) = heading.keyword {
            return value(heading.behind) == b"EXPLICIT".as_slice();
        }
    }
    false
}

// Reads the rest of a keyword's line, given the keys of earlier lines.
fn read_keyword(
    explicit: bool,
    keyword: Option<Keyword>,
    behind: &[u8],
    keys: &mut Keys,
    statements: &mut Statements,
) -> Result<(), FileLineFault>
    ensures sound { OnOk result (keyword_line_fault explicit keys.old keyword behind.now ≡ None) }
    ensures marked { OnOk result (AddsKeyOf keys.old keyword keys.new) }
    ensures read { OnOk result
        (statements.new ≡ with_keyword explicit keyword (tokens_of behind.now) statements.old) }
    ensures refused { FailsWith result (keyword_line_fault explicit keys.old keyword behind.now) }
{
    match keyword {
        None => Err(FileLineFault::UnknownKeyword),
        Some(Keyword::Unsupported) => Err(FileLineFault::Unsupported),
        Some(Keyword::Remark) => Ok(()),
        Some(Keyword::End) => Ok(()),
        Some(Keyword::Display) => no_value(behind),
        Some(Keyword::Key(key)) => {
            if !keys.insert(key) {
                return Err(FileLineFault::Repeated);
            }
            statements.read_value(explicit, key, behind)
        }
    }
}

// Reads the line of a keyword. It has no allocator, so none of its faults is reported as lack of memory.
fn read_heading(
    explicit: bool,
    heading: &Heading<'_>,
    keys: &mut Keys,
    statements: &mut Statements,
) -> Result<(), TextError>
    ensures sound { OnOk result (heading_fault explicit keys.old heading.now ≡ None) }
    ensures marked { OnOk result (AddsKeyOf keys.old heading.now.keyword keys.new) }
    ensures read { OnOk result (statements.new ≡ with_heading explicit heading.now statements.old) }
    ensures refused { FailsWith result (heading_error explicit keys.old heading.now) }
{
    match read_keyword(explicit, heading.keyword, heading.behind, keys, statements) {
        Ok(()) => Ok(()),
        Err(fault) => Err(at_line(heading.number, fault)),
    }
}

// Reads a part behind its keyword: the rest of the keyword's line, and the data lines.
fn read_part(
    alloc: Global,
    explicit: bool,
    heading: &Heading<'_>,
    lines: &mut Lines<'_>,
    keys: &mut Keys,
    statements: &mut Statements,
) -> Result<(), TextError>
    ensures sound { OnOk result (open_part_fault explicit keys.old heading.now lines.old ≡ None) }
    ensures marked { OnOk result (AddsKeyOf keys.old heading.now.keyword keys.new) }
    ensures read { OnOk result
        (statements.new ≡ with_open_part explicit heading.now lines.old statements.old) }
    ensures passed { OnOk result (parts_left lines.new ≡ parts_left lines.old) }
    ensures refused { RefusesFor result (open_part_fault explicit keys.old heading.now lines.old) }
{
    read_heading(explicit, heading, keys, statements)?;
    let numbers = read_content(alloc, lines, content_of(explicit, heading.keyword))?;
    if let Some(Keyword::Key(key)) = heading.keyword {
        statements.put_numbers(key, numbers);
    }
    Ok(())
}

// Reads all remaining parts.
fn read_parts(alloc: Global, explicit: bool, lines: &mut Lines<'_>) -> Result<Statements, TextError>
    ensures sound { OnOk result (parts_fault explicit [] (parts_left lines.old) ≡ None) }
    ensures read { IfOk result (λ stated. stated ≡ stated_by explicit (parts_left lines.old)) }
    ensures refused { RefusesFor result (parts_fault explicit [] (parts_left lines.old)) }
{
    let mut keys = Keys::new();
    let mut statements = Statements::new();
    while let Some(heading) = lines.next_heading() {
        read_part(alloc, explicit, &heading, lines, &mut keys, &mut statements)?;
    }
    Ok(statements)
}

// Whether a file is short enough to be read.
fn check_length(bytes: &[u8]) -> Result<(), TextError>
    ensures short { OnOk result (length bytes.now ≤ MAX_BYTES) }
    ensures refused { IfErr result (λ error. reading_of bytes.now ≡ Err error) }
{
    if bytes.len() > MAX_BYTES {
        return Err(TextError::TooLong);
    }
    Ok(())
}

/// Reads the statements of a file's lines.
pub(crate) fn read_statements(alloc: Global, bytes: &[u8]) -> Result<Statements, TextError>
    ensures short { OnOk result (length bytes.now ≤ MAX_BYTES) }
    ensures sound { OnOk result (file_line_fault (before_end (lines_of bytes.now)) ≡ None) }
    ensures read { IfOk result (λ stated. stated ≡ all_stated (before_end (lines_of bytes.now))) }
    ensures refused { Refuses result (λ error. reading_of bytes.now ≡ Err error) }
{
    check_length(bytes)?;
    let explicit = is_explicit(&mut Lines::of(bytes));
    let mut lines = Lines::of(bytes);
    pass_no_data(&mut lines)?;
    read_parts(alloc, explicit, &mut lines)
}
