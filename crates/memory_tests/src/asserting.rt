// How a test ends where a result isn't the wanted one.
use std::fmt::Debug;
use std::process::Abort;

/// Ends the test where the two aren't equal, and reports at which step. It promises nothing, and an assertion of a test's own would be more
/// expensive to prove.
pub(crate) fn same<T: Debug + PartialEq + Drop>(
    rt: &impl Abort,
    step: usize,
    reported: T,
    want: T,
) {
    assert_eq!(rt; reported, want, "at step {step}");
}
