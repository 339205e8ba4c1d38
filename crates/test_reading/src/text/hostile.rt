//! Long files, and bytes that are not text.
use crate::assertion::assert_same;
use crate::text::fixture::{SMALL, places_of, refusal_of, small_places};
use std::alloc::Global;
use std::process::Abort;
use vrp_text::TextError::{
    BadNumber, BadValue, DataOutside, Missing, Repeated, TooLong, UnknownKeyword,
};
use vrp_text::{Key, MAX_BYTES, TextError, read};

// A file of this many bytes: `prefix`, followed by `filling` again and again.
fn filled(rt: &impl Abort, alloc: Global, prefix: &str, filling: &[u8], length: usize) -> Vec<u8> {
    let block = filling.repeat(alloc, 4096).expect(rt, "memory");
    let blocks = length.checked_div(block.len()).unwrap_or(0);
    let mut bytes = prefix.as_bytes().to_vec(alloc).expect(rt, "memory");
    for _ in 0..blocks.saturating_add(1) {
        bytes.extend_from_slice(&block).expect(rt, "memory");
    }
    bytes.truncate(length);
    bytes
}

const LONG_FILES: &[(&str, &[u8], TextError)] = &[
    ("", b"\0", DataOutside(1)),
    ("", b"\xff", DataOutside(1)),
    ("", b"NAME\n", UnknownKeyword(209_716)),
    ("COMMENT : ", b"\xff", Missing(Key::Problem)),
    ("CAPACITY : ", b"1", BadValue(1)),
    ("TYPE", b" : CVRP", Missing(Key::Dimension)),
    ("DEPOT_SECTION", b" ", Missing(Key::Problem)),
    ("DEPOT_SECTION\n", b"0", BadNumber(2)),
    ("DEPOT_SECTION\n", b"1 ", Missing(Key::Problem)),
    ("DEMAND_SECTION\n", b"1\n", Missing(Key::Problem)),
    ("DISPLAY_DATA_SECTION\n", b"\0\n", Missing(Key::Problem)),
    ("TYPE : CVRP\n", b"TYPE : CVRP\n", Repeated(2)),
];

// Files of a million bytes: their prefix and their filling.
#[test]
fn long_files(rt: HostRuntime) {
    for &(prefix, filling, answer) in LONG_FILES {
        let bytes = filled(&rt, rt.alloc(), prefix, filling, 1_048_576);
        assert_same(&rt, bytes.len(), 1_048_576, prefix);
        let found = refusal_of(rt.alloc(), &bytes, None);
        assert_same(&rt, found, Some(answer), (prefix, filling));
    }
}

// As many line feeds as a file may have bytes, and one more. With the checks of `rt try` this takes minutes: give it
// `--seconds 300`.
#[test]
fn line_feeds(rt: HostRuntime) {
    let mut bytes = filled(&rt, rt.alloc(), "", b"\n", 16_777_216);
    let found = refusal_of(rt.alloc(), &bytes, None);
    assert_same(&rt, found, Some(Missing(Key::Problem)), "line feeds");
    bytes.push(b'\n').expect(&rt, "memory");
    let found = refusal_of(rt.alloc(), &bytes, None);
    assert_same(&rt, found, Some(TooLong), "one more");
}

// As many blanks as a file may have bytes.
#[test]
fn blanks(rt: HostRuntime) {
    let bytes = filled(&rt, rt.alloc(), "", b" \t\r ", 16_777_216);
    let found = refusal_of(rt.alloc(), &bytes, None);
    assert_same(&rt, found, Some(Missing(Key::Problem)), "blanks");
}

// One token of as many digits as a file may have bytes, and one keyword of as many letters.
#[test]
fn longest_tokens(rt: HostRuntime) {
    for (filling, answer) in [(b"7", DataOutside(1)), (b"X", UnknownKeyword(1))] {
        let bytes = filled(&rt, rt.alloc(), "", filling, 16_777_216);
        let found = refusal_of(rt.alloc(), &bytes, None);
        assert_same(&rt, found, Some(answer), filling);
    }
}

// The small file behind a long remark is read up to its last byte, and refused with one byte more.
#[test]
fn longest_file_with_an_instance(rt: HostRuntime) {
    let mut bytes = longest_file(&rt, rt.alloc());
    assert_same(&rt, bytes.len(), 16_777_216, "bytes");
    let instance = read(rt.alloc(), &bytes, None).expect(&rt, "an instance");
    assert_same(&rt, places_of(&rt, &instance), small_places(), "places");
    bytes.push(b'\n').expect(&rt, "memory");
    let found = refusal_of(rt.alloc(), &bytes, None);
    assert_same(&rt, found, Some(TooLong), "one more");
}

fn longest_file(rt: &impl Abort, alloc: Global) -> Vec<u8> {
    let length = MAX_BYTES.saturating_sub(SMALL.len());
    let mut bytes = filled(rt, alloc, "COMMENT :", b"\xff", length);
    if let Some(last) = bytes.last_mut() {
        *last = b'\n';
    }
    let extended = bytes.extend_from_slice(SMALL.as_bytes());
    extended.expect(rt, "memory");
    bytes
}

const NO_TEXT: &[(&str, &[u8], Option<TextError>)] = &[
    ("NAME", b"\0NAME", Some(DataOutside(1))),
    ("NAME", b"\xef\xbb\xbfNAME", Some(DataOutside(1))),
    ("three", b"\xff\0\x80", None),
    ("EOF", b"EOF\xff", None),
    ("EOF", b"\x0bEOF", Some(BadNumber(18))),
    ("CVRP", b"CVRP\x0b", Some(BadValue(3))),
    ("2 3 4", b"2\x0c3 4", Some(BadNumber(9))),
    ("2 3 4", b"2\xa03 4", Some(BadNumber(9))),
    ("CAPACITY : 2", b"CAPACITY\0: 2", Some(BadValue(6))),
];

// Bytes that are not blanks belong to a token or a remark.
#[test]
fn bytes_that_are_no_text(rt: HostRuntime) {
    for &(old, new, answer) in NO_TEXT {
        let bytes = with_bytes(&rt, rt.alloc(), old, new);
        let found = refusal_of(rt.alloc(), &bytes, None);
        assert_same(&rt, found, answer, new);
    }
}

// The small file with the first occurrence of a text replaced by these bytes.
fn with_bytes(rt: &impl Abort, alloc: Global, old: &str, new: &[u8]) -> Vec<u8> {
    let (before, after) = SMALL.split_once(old).expect(rt, old);
    let parts = [before.as_bytes(), new, after.as_bytes()];
    let mut bytes = Vec::new(alloc);
    for part in parts {
        bytes.extend_from_slice(part).expect(rt, "memory");
    }
    bytes
}
