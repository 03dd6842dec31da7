// How a test judges what it finds.
ghost use Rattle.std.specs.Prelude.{◌≡◌, Ok};

use memory_devices::{MemDataFolder, MemNode};
use program_crashes::Ended;
use std::fmt::Debug;
use std::process::Abort;

/// The test ends here where another value was found than the expected one.
pub(crate) fn same<T: PartialEq + Debug + Drop>(rt: &impl Abort, found: T, want: T) {
    assert!(rt; found == want, "found {found:?}, want {want:?}");
}

/// What a call gives that has to succeed. The test ends here where it doesn't.
pub(crate) fn well<T, E: Debug>(rt: &impl Abort, done: Result<T, E>) -> T
    ensures { done ≡ Ok result }
{
    done.expect(rt, "it ends well")
}

/// The calls ended with these statuses, in their order.
pub(crate) fn same_statuses(rt: &impl Abort, ended: &[Ended], want: &[u8]) {
    same(rt, ended.len(), want.len());
    for (how, &status) in ended.iter().zip(want) {
        same(rt, how.status, status);
    }
}

/// The bytes of the file that a data folder has at a path.
pub(crate) fn file_at<'a>(tree: &'a MemDataFolder, path: &str) -> Option<&'a [u8]> {
    match tree.node(path) {
        Some(MemNode::File { bytes, .. }) => Some(bytes.as_slice()),
        _ => None,
    }
}
