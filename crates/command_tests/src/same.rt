// The one assertion of these tests.
use std::fmt::Debug;
use std::process::Abort;

/// Ends the test where what was found isn't what was wanted, and tells both, and of which row. All
/// tests assert by this call, so that the assertion is proved once.
pub fn same<T: PartialEq + Debug + Drop>(
    rt: &impl Abort,
    row: impl Debug + Drop,
    found: T,
    wanted: T,
) {
    assert_eq!(rt; found, wanted, "row {row:?}");
}
