//! The lines of files.
use crate::assertion::assert_same;
use std::process::Abort;
use vrp_text::{DataLine, Heading, Key, Keyword, Lines};

const CAPACITY: Option<Keyword> = Some(Keyword::Key(Key::Capacity));

const HEADINGS: &[(&str, Option<Keyword>, &str)] = &[
    ("CAPACITY:5", CAPACITY, "5"),
    ("CAPACITY+2", CAPACITY, "+2"),
    ("CAPACITY 2", CAPACITY, "2"),
    ("CAPACITY : : 2", CAPACITY, " : 2"),
    ("CAPACITY::2", CAPACITY, ":2"),
    ("\t CAPACITY\t:\t100 \r", CAPACITY, "\t100 \r"),
    ("CAPACITY", CAPACITY, ""),
    ("CAPACITY2", None, ""),
    ("CAPACITY_2", None, ""),
    ("capacity : 2", None, " 2"),
    ("NAME: EOF", Some(Keyword::Remark), " EOF"),
    ("DEMAND_SECTION\r", Some(Keyword::Key(Key::Demand)), ""),
    ("e5", None, ""),
    ("CAPACITY\u{e9}", CAPACITY, "\u{e9}"),
];

// Each line begins with this keyword, followed by this text.
#[test]
fn headings(rt: HostRuntime) {
    for &(text, keyword, behind) in HEADINGS {
        let mut lines = Lines::of(text.as_bytes());
        assert!(rt; lines.next_data().is_none(), "at {text}");
        assert_heading_alone(&rt, &mut lines, keyword, behind);
    }
}

// The only line has this keyword, followed by this text.
fn assert_heading_alone(
    rt: &impl Abort,
    lines: &mut Lines<'_>,
    keyword: Option<Keyword>,
    behind: &str,
) {
    let heading = lines.next_heading().expect(rt, behind);
    assert_same(rt, heading.number, 1, behind);
    assert_same(rt, heading.keyword, keyword, behind);
    assert_same(rt, heading.behind, behind.as_bytes(), behind);
    assert_no_more(rt, lines);
}

fn assert_no_more(rt: &impl Abort, lines: &mut Lines<'_>) {
    assert!(rt; lines.next_data().is_none());
    assert!(rt; lines.next_heading().is_none());
}

const DATA_LINES: &[&[u8]] = &[
    b"",
    b" \t\r",
    b"1 2 3",
    b"  -1",
    b": CAPACITY",
    b"_NAME",
    b"\0CAPACITY : 2",
    b"\xffCAPACITY : 2",
    b"\x0bEOF",
];

// Each line is a data line.
#[test]
fn data_lines(rt: HostRuntime) {
    for &text in DATA_LINES {
        let mut lines = Lines::of(text);
        assert_data_line(&rt, &mut lines, 1, text);
        assert_no_more(&rt, &mut lines);
    }
}

const ENDS: &[(&str, Option<u32>)] = &[
    ("EOF\nNAME : A", None),
    (" EOF : 1\nNAME : A", None),
    ("EOF-\nNAME : A", None),
    ("1\n\nEOF\n2\nNAME", None),
    ("EOFS\nNAME : A", Some(1)),
    ("eof\nNAME : A", Some(1)),
    ("-EOF\nNAME : A", Some(2)),
    ("1\n\n\r\n2\nNAME : A\nEOF", Some(5)),
    ("", None),
    ("\n\n", None),
];

// No line behind EOF is read, and a keyword EOF alone ends a file.
#[test]
fn ends(rt: HostRuntime) {
    for &(text, number) in ENDS {
        let mut lines = Lines::of(text.as_bytes());
        assert_same(&rt, next_number(&mut lines), number, text);
    }
}

// The number of the next heading.
fn next_number(lines: &mut Lines<'_>) -> Option<u32> {
    Some(lines.next_heading()?.number)
}

// A file's lines, each with its number.
#[test]
fn numbered_lines(rt: HostRuntime) {
    let mut lines = Lines::of(b"3 4\nNAME : A\n\n1 2\r\nDEPOT_SECTION\n-1\nEOF\n5 6\nNAME : B\n");
    assert_data_line(&rt, &mut lines, 1, b"3 4");
    assert_heading(&rt, &mut lines, 2);
    assert_data_line(&rt, &mut lines, 3, b"");
    assert_data_line(&rt, &mut lines, 4, b"1 2\r");
    assert_heading(&rt, &mut lines, 5);
    assert_data_line(&rt, &mut lines, 6, b"-1");
    assert_no_more(&rt, &mut lines);
    assert_no_more(&rt, &mut lines);
}

// The next line is a data line of this number.
fn assert_data_line(rt: &impl Abort, lines: &mut Lines<'_>, number: u32, text: &[u8]) {
    let line = lines.next_data().expect(rt, "a data line");
    assert_same(rt, line.number, number, number);
    assert_same(rt, line.text, text, number);
}

// The next line is a heading of this number, and not a data line.
fn assert_heading(rt: &impl Abort, lines: &mut Lines<'_>, number: u32) {
    assert!(rt; lines.next_data().is_none(), "at {number}");
    assert_same(rt, next_number(lines), Some(number), number);
}
