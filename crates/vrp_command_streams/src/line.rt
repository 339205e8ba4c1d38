//! The text of a line in a file, and the text behind a keyword.
ghost use Rattle.std.specs.Prelude.{◌≤◌, length};
ghost use Rattle.vrp_text.specs.declared.lexer.limits.TheConstants.{MAX_BYTES};

use vrp_text::{Key, Keyword, Lines, Tokens, keyword_len};

/// The line of this number, counted from 1, or nothing if there is none.
pub(crate) fn line_on(bytes: &[u8], number: u32) -> &[u8] {
    let mut lines = bytes.split(|byte| *byte == b'\n');
    for _ in 1..number {
        let _ = lines.next();
    }
    lines.next().unwrap_or(&[])
}

/// A line that begins with a keyword.
#[derive(Clone, Copy)]
pub(crate) struct Stated<'a> {
    /// The keyword as the line writes it.
    pub(crate) name: &'a [u8],
    pub(crate) keyword: Option<Keyword>,
    /// The first token behind it and its colon, or nothing if there is none.
    pub(crate) value: &'a [u8],
}

/// The statement of the line of this number, if it begins with a keyword.
pub(crate) fn stated_on<'a>(bytes: &'a [u8], number: u32) -> Option<Stated<'a>>
    requires { length bytes.now ≤ MAX_BYTES }
{
    let mut lines = Lines::of(bytes);
    while let Some(heading) = lines.next_heading() {
        if heading.number == number {
            return Some(Stated {
                name: leading_keyword(first_token(line_on(bytes, number))),
                keyword: heading.keyword,
                value: first_token(heading.behind),
            });
        }
    }
    None
}

// The first token, or nothing if there is none.
fn first_token(text: &[u8]) -> &[u8] {
    Tokens::of(text).next().unwrap_or(&[])
}

// The letters, digits and underscores at the front of a token.
fn leading_keyword(token: &[u8]) -> &[u8] {
    &token[..keyword_len(token)]
}

/// The value behind a key, if the file has the key.
pub(crate) fn value_of(bytes: &[u8], key: Key) -> Option<&[u8]>
    requires { length bytes.now ≤ MAX_BYTES }
{
    let mut lines = Lines::of(bytes);
    while let Some(heading) = lines.next_heading() {
        if heading.keyword == Some(Keyword::Key(key)) {
            return Some(first_token(heading.behind));
        }
    }
    None
}

/// The key of the section that has the line of this number.
pub(crate) fn section_of(bytes: &[u8], number: u32) -> Option<Key>
    requires { length bytes.now ≤ MAX_BYTES }
{
    let mut key = None;
    let mut lines = Lines::of(bytes);
    while let Some(heading) = lines.next_heading() {
        if heading.number > number {
            break;
        }
        key = match heading.keyword {
            Some(Keyword::Key(stated)) => Some(stated),
            _ => None,
        };
    }
    key
}

/// The lines of the first section with this key, if the file has one, from its data on.
pub(crate) fn lines_in<'a>(bytes: &'a [u8], key: Key) -> Option<Lines<'a>>
    requires { length bytes.now ≤ MAX_BYTES }
{
    let mut lines = Lines::of(bytes);
    while let Some(heading) = lines.next_heading() {
        if heading.keyword == Some(Keyword::Key(key)) {
            return Some(lines);
        }
    }
    None
}

/// The number of tokens of the section with this key.
pub(crate) fn tokens_in(bytes: &[u8], key: Key) -> usize
    requires { length bytes.now ≤ MAX_BYTES }
{
    let Some(mut lines) = lines_in(bytes, key) else {
        return 0;
    };
    let mut count = 0usize;
    while let Some(line) = lines.next_data() {
        count = count.saturating_add(tokens_on(line.text));
    }
    count
}

// The number of tokens of a line.
fn tokens_on(text: &[u8]) -> usize {
    let mut count = 0usize;
    let mut tokens = Tokens::of(text);
    while tokens.next().is_some() {
        count = count.saturating_add(1);
    }
    count
}
