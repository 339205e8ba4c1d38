//! A cursor over the tokens of a line.
ghost use Rattle.std.specs.Prelude.{◌≡◌, ◌↔◌, ◌≤◌, ℕ, List, [], ◌∷◌, length, IsTrue, MatchOption};
ghost use Rattle.std.specs.List.{prefix_len, position_or_len};
ghost use Rattle.vrp_text.specs.Bytes.{is_blank, skip_while};
ghost use Rattle.vrp_text.specs.Line.{tokens_of};

use std::marker::Model;

/// Whether a byte separates tokens.
pub fn is_blank(byte: u8) -> bool
    ensures { result ≡ is_blank byte }
{
    matches!(byte, b' ' | b'\t' | b'\r')
}

// The number of blanks at the front.
fn blanks_len(text: &[u8]) -> usize
    ensures value { result ≡ prefix_len is_blank text.now }
    ensures within { result ≤ length text.now }
{
    text.iter().take_while(|byte| is_blank(**byte)).count()
}

// The number of bytes before the first blank.
fn token_len(text: &[u8]) -> usize
    ensures value { result ≡ position_or_len is_blank text.now }
    ensures within { result ≤ length text.now }
{
    text.iter().take_while(|byte| !is_blank(**byte)).count()
}

/// The text behind the blanks at the front.
pub fn skip_blanks(text: &[u8]) -> &[u8]
    ensures { result.now ≡ skip_while is_blank text.now }
{
    &text[blanks_len(text)..]
}

/// The remaining tokens of a text.
#[derive(Drop)]
pub struct Tokens<'a> {
    rest: &'a [u8],
}

impl<'a> Model for Tokens<'a> {
    ghost Value = { List (List ℕ) };

    ghost view = { λ t. tokens_of t.rest.now };
}

impl<'a> Tokens<'a> {
    /// All tokens of `text`.
    pub fn of(text: &'a [u8]) -> Self
        ensures { result ≡ tokens_of text.now }
    {
        Tokens { rest: text }
    }

    /// Whether no token is left.
    pub fn is_empty(&self) -> bool
        ensures { IsTrue result ↔ self.now ≡ [] }
    {
        skip_blanks(self.rest).is_empty()
    }

    /// The next token. None if no token is left.
    pub fn next(&mut self) -> Option<&'a [u8]>
        ensures { MatchOption result
            ((self.old ≡ []) × (self.new ≡ []))
            (λ token. self.old ≡ token.now ∷ self.new) }
    {
        let bare = skip_blanks(self.rest);
        if bare.is_empty() {
            return None;
        }
        let (token, rest) = bare.split_at(token_len(bare));
        self.rest = rest;
        Some(token)
    }
}
