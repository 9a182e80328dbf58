// The one assertion of this crate.
use std::fmt::Debug;
use std::process::Abort;

/// Ends the test where what was found isn't what was wanted, and tells both, with the row of the
/// test that they are of.
pub fn same<T: PartialEq + Debug + Drop>(
    rt: &impl Abort,
    row: impl Debug + Drop,
    found: T,
    wanted: T,
) {
    assert_eq!(rt; found, wanted, "row {row:?}");
}

/// The text of bytes, so that it can be told as one.
pub fn shown(bytes: &[u8]) -> &str {
    str::from_utf8(bytes).unwrap_or("(not UTF-8)")
}
