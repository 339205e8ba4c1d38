//! A cursor over the lines of a file, up to EOF.
ghost use Rattle.std.specs.Prelude.{◌≡◌, ◌==◌, ◌+◌, ◌≤◌, ◌<◌, ◌∷◌, [], length, if◌then◌else◌, IsNone, MatchOption};
ghost use Rattle.std.specs.List.{prefix_len, slice_split};
ghost use Rattle.vrp_text.specs.Bytes.{is_keyword_byte};
ghost use Rattle.vrp_text.specs.Line as spec;
ghost use Rattle.vrp_text.specs.declared.lexer.limits.TheConstants.{MAX_BYTES};
ghost use Rattle.vrp_text.specs.Line.{Data, line_of, lines_of, tokens_of, without_colon};
ghost use Rattle.vrp_text.specs.Part.{before_end};
ghost use Rattle.vrp_text.specs.Inner.LinesLeft.{LinesLeft, parts_left, data_left, line_before, lines_left};

use crate::lexer::keyword::{Keyword, keyword_of};
use crate::lexer::limits::MAX_BYTES;
use crate::lexer::tokens::skip_blanks;
use memchr::memchr;
use std::marker::Model;

// A line, and the text behind its line feed, if it has one.
fn split_line(bytes: &[u8]) -> (&[u8], Option<&[u8]>)
    ensures { MatchOption result.1
        (slice_split (λ byte. byte == 10) bytes.now ≡ result.0.now ∷ [])
        (λ rest. (length rest.now < length bytes.now)
        × (slice_split (λ byte. byte == 10) bytes.now ≡ result.0.now ∷ slice_split (λ byte. byte == 10) rest.now)) }
{
    // Odd files have many blank lines; these need no search.
    if let [b'\n', rest @ ..] = bytes {
        return (&[], Some(rest));
    }
    match memchr(b'\n', bytes) {
        Some(end) => (&bytes[..end], Some(&bytes[end + 1..])),
        None => (bytes, None),
    }
}

/// The length of the keyword at the front.
pub fn keyword_len(text: &[u8]) -> usize
    ensures value { result ≡ prefix_len is_keyword_byte text.now }
    ensures within { result ≤ length text.now }
{
    text.iter()
        .take_while(|byte| byte.is_ascii_alphanumeric() || **byte == b'_')
        .count()
}

/// The text behind a colon at the front, or all of it if there is none.
pub fn without_colon(text: &[u8]) -> &[u8]
    ensures { result.now ≡ without_colon text.now }
{
    match text {
        [b':', behind @ ..] => behind,
        _ => text,
    }
}

// The meaning of a line's keyword, and the text behind it and its colon. None if the line begins with no keyword.
fn heading_of(text: &[u8]) -> Option<(Option<Keyword>, &[u8])>
    ensures { MatchOption result
        (line_of text.now ≡ Data (tokens_of text.now))
        (λ heading. line_of text.now ≡ spec.Heading heading.0 (tokens_of heading.1.now)) }
{
    let bare = skip_blanks(text);
    if !bare.first().is_some_and(|byte| byte.is_ascii_alphabetic()) {
        return None;
    }
    let (keyword, behind) = bare.split_at(keyword_len(bare));
    Some((keyword_of(keyword), without_colon(skip_blanks(behind))))
}

/// The remaining lines of a file of at most `MAX_BYTES` bytes.
#[derive(Drop)]
pub struct Lines<'a> {
    // The text behind the last line feed that was passed; empty once the last line was given.
    rest: &'a [u8],
    // The number of the first remaining line.
    number: u32,
    ended: bool,
}

/// A line that begins with a keyword.
#[derive(Clone, Copy)]
pub struct Heading<'a> {
    pub number: u32,
    /// The meaning of the keyword, if it is known.
    pub keyword: Option<Keyword>,
    /// The text behind the keyword and its colon.
    pub behind: &'a [u8],
}

/// A line that begins with no keyword.
#[derive(Clone, Copy)]
pub struct DataLine<'a> {
    pub number: u32,
    pub text: &'a [u8],
}

impl<'a> Model for Lines<'a> {
    ghost Value = { LinesLeft };

    ghost view = { λ l. lines_left l.number (lines_of l.rest.now) l.ended };

    // A line feed is passed for each line but the last.
    ghost invariant = { λ l.
        l.number + length l.rest.now + (if l.ended then 0 else 1) ≤ MAX_BYTES + 2 };
}

impl<'a> Lines<'a> {
    /// All lines of `bytes` before EOF.
    pub fn of(bytes: &'a [u8]) -> Self
        requires { length bytes.now ≤ MAX_BYTES }
        ensures number { result.number ≡ 1 }
        ensures lines { result.lines ≡ before_end (lines_of bytes.now) }
    {
        Lines {
            rest: bytes,
            number: 1,
            ended: false,
        }
    }

    // The next line with its number, and the lines behind it. None if no line is left.
    fn split_first(&self) -> Option<(u32, &'a [u8], Lines<'a>)>
        ensures { MatchOption result
            (self.now.lines ≡ [])
            (λ first. (first.0 ≡ self.now.number) × (first.2.number ≡ self.now.number + 1)
            × (self.now.lines ≡ line_before (line_of first.1.now) first.2.lines)) }
    {
        if self.ended {
            return None;
        }
        let (text, rest) = split_line(self.rest);
        let behind = Lines {
            rest: rest.unwrap_or(&[]),
            number: self.number + 1,
            ended: rest.is_none(),
        };
        Some((self.number, text, behind))
    }

    /// The next line, if it begins with no keyword. None, without passing a line, if it begins with one or no line is left.
    pub fn next_data(&mut self) -> Option<DataLine<'a>>
        ensures { MatchOption result
            ((data_left self.old ≡ []) × (self.new ≡ self.old))
            (λ line. (line.number ≡ self.old.number) × (self.new.number ≡ self.old.number + 1)
            × (self.old.lines ≡ Data (tokens_of line.text.now) ∷ self.new.lines)) }
    {
        let (number, text, behind) = self.split_first()?;
        if heading_of(text).is_some() {
            return None;
        }
        *self = behind;
        Some(DataLine { number, text })
    }

    /// The next line that begins with a keyword, skipping the data lines before it. None if no such line is left.
    pub fn next_heading(&mut self) -> Option<Heading<'a>>
        ensures value { MatchOption result
            (parts_left self.old ≡ [])
            (λ heading. (self.new.number ≡ heading.number + 1)
            × (parts_left self.old ≡ record {
              line = heading.number;
              keyword = heading.keyword;
              behind = tokens_of heading.behind.now;
              data_lines = data_left self.new;
            } ∷ parts_left self.new)) }
        ensures after { IsNone result → self.new.lines ≡ [] }
    {
        while let Some((number, text, lines)) = self.split_first() {
            let Some((keyword, behind)) = heading_of(text) else {
                *self = lines;
                continue;
            };
            if keyword == Some(Keyword::End) {
                return None;
            }
            *self = lines;
            return Some(Heading {
                number,
                keyword,
                behind,
            });
        }
        None
    }
}
