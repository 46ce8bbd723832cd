// How a test ends where a result isn't the wanted one.
use std::fmt::Debug;
use std::process::Abort;

/// Ends the test where the two aren't equal, and reports at which row. It promises nothing, and an assertion of a test's own would be more
/// expensive to prove.
pub(crate) fn same<R: Debug, T: Debug + PartialEq + Drop>(
    rt: &impl Abort,
    row: &R,
    reported: T,
    want: T,
) {
    assert_eq!(rt; reported, want, "at {row:?}");
}
