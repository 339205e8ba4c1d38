//! The meaning of numerals, and texts that are not numerals.
use crate::assertion::assert_same;
use vrp_text::{FileLineFault, number};

const NUMERALS: &[(&str, Result<i64, FileLineFault>)] = &[
    ("67", Ok(67)),
    ("+67", Ok(67)),
    ("-67", Ok(-67)),
    ("67.", Ok(67)),
    ("67.0", Ok(67)),
    ("067", Ok(67)),
    ("6.70000e+01", Ok(67)),
    ("670E-1", Ok(67)),
    (".67e2", Ok(67)),
    ("67e0", Ok(67)),
    ("6.7e0001", Ok(67)),
    ("-2.5E1", Ok(-25)),
    ("-0", Ok(0)),
    ("-.0e-5", Ok(0)),
    ("999999999999999999", Ok(999_999_999_999_999_999)),
    ("-9e18", Ok(-9_000_000_000_000_000_000)),
    ("9.2e18", Ok(9_200_000_000_000_000_000)),
    ("100000000000000000e-17", Ok(1)),
    ("-1.23456789012345678E+0017", Ok(-123_456_789_012_345_678)),
    (".5", Err(FileLineFault::NotWhole)),
    ("3.5", Err(FileLineFault::NotWhole)),
    ("-3.5", Err(FileLineFault::NotWhole)),
    ("1e-1", Err(FileLineFault::NotWhole)),
    (".000000000000000001e-18", Err(FileLineFault::NotWhole)),
    ("100000000000000000e-18", Err(FileLineFault::NotWhole)),
    ("9.3e18", Err(FileLineFault::BadNumber)),
    ("-9.3e18", Err(FileLineFault::BadNumber)),
    ("999999999999999999e18", Err(FileLineFault::BadNumber)),
];

#[test]
fn numerals(rt: HostRuntime) {
    for &(token, want) in NUMERALS {
        let answer = number(token.as_bytes(), i64::MIN, i64::MAX);
        assert_same(&rt, answer, want, token);
    }
}

const NO_NUMERALS: &[&str] = &[
    "",
    ".",
    "+",
    "-",
    "+.",
    "1.2.3",
    "e5",
    ".e5",
    "0x1",
    "1e",
    "1E+",
    "1e-",
    "1e1e1",
    "1e1.0",
    "1e+-1",
    "--1",
    "+-1",
    "1-",
    "1,5",
    "1 ",
    "1_0",
    "nan",
    "inf",
    "1e19",
    "1e-19",
    "1e00001",
    "1e+00000",
    "1000000000000000000",
    "0.000000000000000000",
    "0000000000000000000000000067",
];

#[test]
fn no_numerals(rt: HostRuntime) {
    for &token in NO_NUMERALS {
        let answer = number(token.as_bytes(), i64::MIN, i64::MAX);
        assert_same(&rt, answer, Err(FileLineFault::BadNumber), token);
    }
}

const RANGES: &[(i64, i64, &str, Result<i64, FileLineFault>)] = &[
    (0, 10, "0", Ok(0)),
    (0, 10, "1e1", Ok(10)),
    (0, 10, "11", Err(FileLineFault::BadNumber)),
    (0, 10, "-1", Err(FileLineFault::BadNumber)),
    (0, 10, "10.5", Err(FileLineFault::NotWhole)),
    (-3, -2, "-3", Ok(-3)),
    (-3, -2, "-2.0", Ok(-2)),
    (-3, -2, "-1", Err(FileLineFault::BadNumber)),
    (-3, -2, "2", Err(FileLineFault::BadNumber)),
    (5, 4, "5", Err(FileLineFault::BadNumber)),
];

#[test]
fn ranges(rt: HostRuntime) {
    for &(low, high, token, want) in RANGES {
        assert_same(&rt, number(token.as_bytes(), low, high), want, token);
    }
}
