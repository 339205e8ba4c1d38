//! The lines of a file, each with its keyword.

use std::alloc::{AllocError, Global};

const BLANKS: [char; 3] = [' ', '\t', '\r'];

/// A line that is not blank.
#[derive(Clone, Copy, Debug)]
pub(crate) struct Line<'a> {
    /// The number of the line in the file, from 1.
    pub number: u64,
    /// Its own keyword, or for a data line the last one before it. It is empty before the first keyword.
    pub keyword: &'a str,
    /// Whether the line has no keyword of its own.
    pub is_data: bool,
    /// The text behind its own keyword, or the whole line if it has none.
    pub text: &'a str,
}

impl<'a> Line<'a> {
    /// The first token behind the keyword, or an empty text.
    pub(crate) fn value(&self) -> &'a str {
        self.text.split(BLANKS).next().unwrap_or("")
    }
}

/// The lines before the one with the keyword EOF.
pub(crate) fn before_the_end<'a>(
    alloc: Global,
    text: &'a str,
) -> Result<Vec<Line<'a>>, AllocError> {
    let mut lines = Vec::new(alloc);
    let mut number = 0u64;
    for line in text.split('\n') {
        number = number.saturating_add(1);
        let line = line.trim_matches(BLANKS);
        let own = keyword_of(line);
        if own == "EOF" {
            break;
        }
        if !line.is_empty() {
            lines.push(line_under(last_keyword(&lines), number, own, line))?;
        }
    }
    Ok(lines)
}

// A line of this number with its own keyword, if that is not empty, or under the last one.
fn line_under<'a>(last: &'a str, number: u64, own: &'a str, line: &'a str) -> Line<'a> {
    let is_data = own.is_empty();
    Line {
        number,
        keyword: if is_data { last } else { own },
        is_data,
        text: if is_data { line } else { behind_keyword(line) },
    }
}

// The keyword for a data line that follows these lines.
fn last_keyword<'a>(lines: &[Line<'a>]) -> &'a str {
    lines.last().map_or("", |line| line.keyword)
}

// The letters, digits and underscores at the front of a line that begins with a letter; otherwise an empty text.
fn keyword_of(line: &str) -> &str {
    if line.starts_with(|first: char| first.is_ascii_alphabetic()) {
        line.strip_suffix(behind_word(line)).unwrap_or(line)
    } else {
        ""
    }
}

// The text behind the letters, digits and underscores at the front.
fn behind_word(line: &str) -> &str {
    line.trim_start_matches(|next: char| next.is_ascii_alphanumeric() || next == '_')
}

// The text behind the keyword and the one colon that may follow it.
fn behind_keyword(line: &str) -> &str {
    let behind = behind_word(line).trim_start_matches(BLANKS);
    behind
        .strip_prefix(':')
        .unwrap_or(behind)
        .trim_start_matches(BLANKS)
}

/// The tokens of a text.
pub(crate) fn tokens<'a>(alloc: Global, text: &'a str) -> Result<Vec<&'a str>, AllocError> {
    let mut tokens = Vec::new(alloc);
    for token in text.split(BLANKS) {
        if !token.is_empty() {
            tokens.push(token)?;
        }
    }
    Ok(tokens)
}

/// The first line with a keyword.
pub(crate) fn first_with<'a>(lines: &[Line<'a>], keyword: &str) -> Option<Line<'a>> {
    for line in lines {
        if line.keyword == keyword {
            return Some(*line);
        }
    }
    None
}
