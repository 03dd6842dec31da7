// How a test judges what it finds.
ghost use Rattle.std.specs.Prelude.{◌≡◌, Ok};

use std::fmt::Debug;
use std::process::Abort;

/// The test ends here where another value was found than the expected one.
pub(crate) fn same<T: PartialEq + Debug + Drop>(rt: &impl Abort, found: T, want: T) {
    assert!(rt; found == want, "found {found:?}, want {want:?}");
}

/// What a call gives that has to succeed. The test ends here where it doesn't.
pub(crate) fn well<T, E: Debug>(rt: &impl Abort, done: Result<T, E>) -> T
    ensures { done ≡ Ok result }
{
    done.expect(rt, "it ends well")
}
