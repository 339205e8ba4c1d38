//! A file's name for itself.
ghost use Rattle.std.specs.Option.{option_copied, option_map};
ghost use Rattle.std.specs.Prelude.{◌≡◌, ◌≤◌, ◌==◌, length, not, reverse};
ghost use Rattle.std.specs.List.{prefix_len};
ghost use Rattle.vrp_text.specs.Bytes.{is_blank};
ghost use Rattle.vrp_plan_text.specs.Name.{as_name, has_keyword, name_line, name_of, trimmed_end, value_on};

use std::str;
use vrp_text::{is_blank, keyword_len, skip_blanks, without_colon};

/// A file's name for itself: the text behind the keyword and colon of its first line `NAME`, without the blanks at both ends.
/// None if there is no such line before EOF, or the text is empty or not UTF-8.
pub fn name_of(bytes: &[u8]) -> Option<&str>
    ensures { option_map (λ name. name.now) result ≡ name_of bytes.now }
{
    match name_line(bytes) {
        Some(line) => as_name(value_on(line)),
        None => None,
    }
}

// The first line that states a name, if there is one before EOF.
fn name_line(bytes: &[u8]) -> Option<&[u8]>
    ensures { option_map (λ line. line.now) result ≡ name_line bytes.now }
{
    bytes
        .split(|byte| *byte == b'\n')
        .take_while(|line| !has_keyword(line, b"EOF"))
        .find(|line| has_keyword(line, b"NAME"))
}

// A nonempty text, if it is UTF-8.
fn as_name(text: &[u8]) -> Option<&str>
    ensures { option_map (λ name. name.now) result ≡ as_name text.now }
{
    if text.is_empty() {
        return None;
    }
    match str::from_utf8(text) {
        Ok(name) => Some(name),
        Err(_) => None,
    }
}

// Whether a line begins with this keyword.
fn has_keyword(line: &[u8], keyword: &[u8]) -> bool
    ensures { result ≡ has_keyword keyword.now line.now }
{
    let bare = skip_blanks(line);
    &bare[..keyword_len(bare)] == keyword
}

// The text behind a line's keyword and colon, without the blanks at both ends.
fn value_on(line: &[u8]) -> &[u8]
    ensures { result.now ≡ value_on line.now }
{
    let bare = skip_blanks(line);
    let behind = without_colon(skip_blanks(&bare[keyword_len(bare)..]));
    trimmed_end(skip_blanks(behind))
}

// The text without the blanks at the end.
fn trimmed_end(text: &[u8]) -> &[u8]
    ensures { result.now ≡ trimmed_end text.now }
{
    &text[..text.len() - end_blanks_len(text)]
}

// The number of blanks at the end.
fn end_blanks_len(text: &[u8]) -> usize
    ensures value { result ≡ prefix_len is_blank (reverse text.now) }
    ensures within { result ≤ length text.now }
{
    text.iter()
        .rev()
        .take_while(|byte| is_blank(**byte))
        .count()
}
