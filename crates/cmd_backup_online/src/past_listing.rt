// A listing of the data folder that may be read by.
ghost use Rattle.std.specs.Prelude.{◌≡◌, ◌≤◌, ◌<◌, IfOk, OnOk};
ghost use Rattle.base_devices.specs.Cause.{HasCause};

use base_devices::{Clock, DeviceError, FolderEntry};

/// What the data folder had, in a second that is over. So what a server changes from then on has a later time than this
/// reports, and a backup that is based on one of this reads it. Nothing but `pass_listing` makes one.
#[derive(Drop)]
pub(crate) struct PastListing {
    nodes: Vec<FolderEntry>,
}

// Waits until the present second is over.
fn pass_second<C: Clock>(clock: &mut C) -> Result<(), DeviceError>
    ensures past { OnOk result ((C.state clock.old).least < (C.state clock.new).least) }
    ensures least { (C.state clock.old).least ≤ (C.state clock.new).least }
    ensures cause { HasCause (C.state clock.old).faults (C.state clock.new).faults result }
{
    let second = clock.now()?;
    clock.wait_past(second)
}

/// Waits until the second is over in which these nodes were listed.
pub(crate) fn pass_listing<C: Clock>(
    clock: &mut C,
    nodes: Vec<FolderEntry>,
) -> Result<PastListing, DeviceError>
    ensures nodes { IfOk result (λ seen. seen.nodes.items ≡ nodes.items) }
    ensures past { OnOk result ((C.state clock.old).least < (C.state clock.new).least) }
    ensures least { (C.state clock.old).least ≤ (C.state clock.new).least }
    ensures cause { HasCause (C.state clock.old).faults (C.state clock.new).faults result }
{
    match pass_second(clock) {
        Ok(()) => Ok(PastListing { nodes }),
        Err(error) => Err(error),
    }
}

/// The nodes that were listed.
pub(crate) fn nodes_of(seen: &PastListing) -> &[FolderEntry]
    ensures { result.now ≡ seen.now.nodes.items }
{
    &seen.nodes
}
