//! The tokens of texts.
use crate::assertion::assert_same;
use std::process::Abort;
use vrp_text::Tokens;

const TOKENS: &[(&str, [&str; 3])] = &[
    ("", ["", "", ""]),
    (" \t\r", ["", "", ""]),
    ("1", ["1", "", ""]),
    ("1 0 0", ["1", "0", "0"]),
    ("  12   -3.5\t+4e2 ", ["12", "-3.5", "+4e2"]),
    ("1 38 46\r", ["1", "38", "46"]),
    ("\r\r-1\r\r", ["-1", "", ""]),
    ("a\rb", ["a", "b", ""]),
    (": CVRP", [":", "CVRP", ""]),
    ("a\u{b}b\u{c}c\0d", ["a\u{b}b\u{c}c\0d", "", ""]),
];

// The texts have at most three tokens. An empty one stands for none.
#[test]
fn tokens_of_texts(rt: HostRuntime) {
    for (text, expected) in TOKENS {
        assert_tokens(&rt, text, expected);
    }
}

fn assert_tokens(rt: &impl Abort, text: &str, expected: &[&str]) {
    let mut tokens = Tokens::of(text.as_bytes());
    for token in expected {
        assert_same(rt, tokens.is_empty(), token.is_empty(), text);
        let found = tokens.next().unwrap_or(b"");
        assert_same(rt, found, token.as_bytes(), text);
    }
    assert!(rt; tokens.is_empty(), "at {text}");
    assert_same(rt, tokens.next(), None, text);
}
