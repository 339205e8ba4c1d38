//! What the tests assert by.

use std::fmt::Debug;
use std::process::Abort;

/// `assert_eq!` as a function: it is proved once, and the macro wherever it stands. A failure names this line, so `at` tells the
/// values of one call from those of another.
pub(crate) fn assert_same<T>(rt: &impl Abort, found: T, wanted: T, at: impl Debug + Drop)
where
    T: PartialEq + Debug + Drop,
{
    assert!(rt; found == wanted, "{found:?} is not {wanted:?}, at {at:?}");
}
