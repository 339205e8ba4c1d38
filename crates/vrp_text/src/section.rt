//! The sections with numbers that are used.
ghost use Rattle.std.specs.Prelude.{◌≡◌, IfOk, OnOk, Ok, None};
ghost use Rattle.vrp_text.specs.Section.{lowest, highest, token_number, content_of, AreWithin, FitContent};
ghost use Rattle.vrp_text.specs.Inner.LinesLeft.{parts_left};
ghost use Rattle.vrp_text.specs.Inner.Answered.{FailsWith, RefusesFor};
ghost use Rattle.vrp_text.specs.Inner.NextLines.{next_content_fault, next_data_fault, next_numbers, next_outside_fault, next_used_numbers, text_error, text_fault, token_error, with_text};

use crate::error::TextError;
use crate::fault::at_line;
use crate::lexer::{FileLineFault, Key, Keyword, Lines, MAX_DEMAND, MAX_NODE, Tokens, number};
use std::alloc::Global;
use vrp_model::{MAX_COORDINATE, MAX_WEIGHT};

/// A section with numbers that are used.
#[derive(Clone, Copy, Debug, PartialEq, Eq)]
pub enum Section {
    /// A node and its two coordinates, for each node.
    Coordinates,
    /// Weights.
    Weights,
    /// A node and its demand, for each node.
    Demands,
    /// Depots.
    Depots,
}

/// What the data lines behind a keyword may contain.
#[derive(Clone, Copy, PartialEq, Eq)]
pub(crate) enum Content {
    /// No token.
    Nothing,
    /// Any tokens; they are not read.
    Anything,
    /// The numbers of a section.
    Numbers(Section),
}

/// What may follow a keyword, in a file that is explicit or not.
pub(crate) fn content_of(explicit: bool, keyword: Option<Keyword>) -> Content
    ensures { result ≡ content_of explicit keyword }
{
    match keyword {
        Some(Keyword::Display) => Content::Anything,
        Some(Keyword::Key(Key::NodeCoord)) if !explicit => Content::Numbers(Section::Coordinates),
        Some(Keyword::Key(Key::NodeCoord)) => Content::Anything,
        Some(Keyword::Key(Key::EdgeWeight)) if explicit => Content::Numbers(Section::Weights),
        Some(Keyword::Key(Key::EdgeWeight)) => Content::Anything,
        Some(Keyword::Key(Key::Demand)) => Content::Numbers(Section::Demands),
        Some(Keyword::Key(Key::Depot)) => Content::Numbers(Section::Depots),
        _ => Content::Nothing,
    }
}

impl Section {
    // The lowest number allowed at this position, counted from 0.
    fn lowest(self, place: usize) -> i64
        ensures { result ≡ lowest self place }
    {
        match self {
            Section::Coordinates if place % 3 == 0 => -MAX_NODE,
            Section::Coordinates => -MAX_COORDINATE,
            Section::Weights => 0,
            Section::Demands if place % 2 == 0 => -MAX_NODE,
            Section::Demands => 0,
            Section::Depots => -MAX_NODE,
        }
    }

    // The highest number allowed at this position, counted from 0.
    fn highest(self, place: usize) -> i64
        ensures { result ≡ highest self place }
    {
        match self {
            Section::Coordinates if place % 3 == 0 => MAX_NODE,
            Section::Coordinates => MAX_COORDINATE,
            Section::Weights => MAX_WEIGHT as i64,
            Section::Demands if place % 2 == 0 => MAX_NODE,
            Section::Demands => MAX_DEMAND as i64,
            Section::Depots => MAX_NODE,
        }
    }

    // The number that a token writes at this position, counted from 0.
    fn number(self, place: usize, token: &[u8]) -> Result<i64, FileLineFault>
        ensures { result ≡ token_number self place token.now }
    {
        number(token, self.lowest(place), self.highest(place))
    }

    // The number that a token on a line writes at this position. It has no allocator, so no bad number is reported as lack of
    // memory.
    fn number_on(self, line: u32, place: usize, token: &[u8]) -> Result<i64, TextError>
        ensures value { IfOk result (λ value. token_number self place token.now ≡ Ok value) }
        ensures refused { FailsWith result (token_error self line place token.now) }
    {
        match self.number(place, token) {
            Ok(value) => Ok(value),
            Err(fault) => Err(at_line(line, fault)),
        }
    }
}

// Appends the numbers of a line.
fn read_line(
    number: u32,
    text: &[u8],
    section: Section,
    numbers: &mut Vec<i64>,
) -> Result<(), TextError>
    ensures sound { OnOk result (text_fault section numbers.old.items text.now ≡ None) }
    ensures read { OnOk result (numbers.new.items ≡ with_text section numbers.old.items text.now) }
    ensures refused { RefusesFor result (text_error section number numbers.old.items text.now) }
{
    let mut tokens = Tokens::of(text);
    while let Some(token) = tokens.next() {
        numbers.push(section.number_on(number, numbers.len(), token)?)?;
    }
    Ok(())
}

// Reads the numbers of the data lines up to the next keyword.
fn read_numbers(
    alloc: Global,
    lines: &mut Lines<'_>,
    section: Section,
) -> Result<Vec<i64>, TextError>
    ensures sound { OnOk result (next_data_fault section lines.old ≡ None) }
    ensures read { IfOk result (λ numbers. numbers.items ≡ next_numbers section lines.old) }
    ensures within { IfOk result (λ numbers. AreWithin section 0 numbers.items) }
    ensures passed { OnOk result (parts_left lines.new ≡ parts_left lines.old) }
    ensures refused { RefusesFor result (next_data_fault section lines.old) }
{
    let mut numbers = Vec::new(alloc);
    while let Some(line) = lines.next_data() {
        read_line(line.number, line.text, section, &mut numbers)?;
    }
    Ok(numbers)
}

/// Skips the lines up to the next keyword outside a section: none may have a token.
pub(crate) fn pass_no_data(lines: &mut Lines<'_>) -> Result<(), TextError>
    ensures none { OnOk result (next_outside_fault lines.old ≡ None) }
    ensures passed { OnOk result (parts_left lines.new ≡ parts_left lines.old) }
    ensures refused { FailsWith result (next_outside_fault lines.old) }
{
    while let Some(line) = lines.next_data() {
        if !Tokens::of(line.text).is_empty() {
            return Err(TextError::DataOutside(line.number));
        }
    }
    Ok(())
}

/// Reads everything behind a keyword, up to the next keyword; answers the numbers, if they are used.
pub(crate) fn read_content(
    alloc: Global,
    lines: &mut Lines<'_>,
    content: Content,
) -> Result<Vec<i64>, TextError>
    ensures sound { OnOk result (next_content_fault content lines.old ≡ None) }
    ensures read { IfOk result (λ numbers. numbers.items ≡ next_used_numbers content lines.old) }
    ensures within { IfOk result (λ numbers. FitContent content numbers.items) }
    ensures passed { OnOk result (parts_left lines.new ≡ parts_left lines.old) }
    ensures refused { RefusesFor result (next_content_fault content lines.old) }
{
    match content {
        Content::Nothing => pass_no_data(lines)?,
        Content::Anything => {}
        Content::Numbers(section) => return read_numbers(alloc, lines, section),
    }
    Ok(Vec::new(alloc))
}
