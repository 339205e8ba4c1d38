//! The faults of a line, without its number.

/// The fault of a line.
#[derive(Clone, Copy, Debug, PartialEq, Eq)]
pub enum FileLineFault {
    /// The line has data outside any section.
    DataOutside,
    /// Its keyword is not one of the standard.
    UnknownKeyword,
    /// An earlier line has its keyword too.
    Repeated,
    /// Its keyword's value is missing, unknown, not a whole number or out of range, or text follows a section's keyword.
    BadValue,
    /// Its keyword or value belongs to the standard, but is not supported.
    Unsupported,
    /// It has a token that is not a numeral, or whose whole value is out of range.
    BadNumber,
    /// It has a numeral whose value is not whole.
    NotWhole,
}
