// How a test of rows ends.
use std::process::Abort;

/// Ends the test where a row is unlike what was run, and reports its place.
pub(crate) fn all_alike(rt: &impl Abort, unlike: Option<usize>) {
    assert_eq!(rt; unlike, None);
}

/// Ends the test where this isn't so.
pub(crate) fn is_well(rt: &impl Abort, well: bool) {
    assert!(rt; well);
}
