//! How values are compared: once here, since a comparison with a message is costly to prove.

use std::fmt::Debug;
use std::process::Abort;

/// The value that was found is the expected one.
pub(crate) fn same<T: PartialEq + Debug + Drop>(rt: &impl Abort, found: T, want: T) {
    assert!(rt; found == want, "found {found:?}, want {want:?}");
}

/// The same, of one case among several.
pub(crate) fn same_of<T: PartialEq + Debug + Drop>(rt: &impl Abort, case: &str, found: T, want: T) {
    assert!(rt;
        found == want,
        "of {case:?}: found {found:?}, want {want:?}"
    );
}
