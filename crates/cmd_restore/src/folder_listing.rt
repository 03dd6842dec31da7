// Looks at the data folder.
ghost use Rattle.std.specs.Prelude.{◌≡◌, bytes_eq, string_bytes, map, IfOk, IfErr, IfSome, OnOk};
ghost use Rattle.std.specs.List.{list_any};
ghost use Rattle.base_devices.specs.States.{OnlyReadsFolder};
ghost use Rattle.restore_steps.specs.Clearing.{seen_of};
ghost use Rattle.cmd_types.specs.Halts.{HaltCause};
ghost use Rattle.cmd_restore.specs.Looking.{version_path, IsOpen, IsSeenOpen, HoldingCause, SeenCause, ListsTree, LookHalts};

use crate::fault::RestoreCommandFault;
use backup_plan::is_running;
use base_devices::{DataFolder, FolderEntry};
use cmd_types::{Halt, Object, halted};
use std::alloc::Global;

// A file that each cluster has.
const VERSION: &str = "PG_VERSION";

// Whether the listing shows the files of a cluster.
fn has_cluster(seen: &[FolderEntry]) -> bool
    ensures { result ≡ list_any (λ s. bytes_eq (string_bytes s.path) version_path) seen.now }
{
    seen.iter().any(|node| node.path.as_str() == VERSION)
}

// Refuses a folder that holds something: with delta it may be the files of a cluster.
fn check_holding(
    alloc: Global,
    delta: bool,
    seen: &[FolderEntry],
) -> Result<(), Halt<RestoreCommandFault>>
    ensures open { OnOk result (IsSeenOpen delta (map seen_of seen.now)) }
    ensures cause { IfErr result (HaltCause (HoldingCause delta (map seen_of seen.now)) (λ _. ⊥)) }
{
    let Some(first) = seen.first() else {
        return Ok(());
    };
    if delta && has_cluster(seen) {
        return Ok(());
    }
    let path = String::from_str(alloc, first.path.as_str())?;
    Err(Halt::Refused(RestoreCommandFault::NotEmpty { path }))
}

// Refuses a folder of a running server, and any other that may not be restored into.
fn check_folder(
    alloc: Global,
    delta: bool,
    seen: &[FolderEntry],
) -> Result<(), Halt<RestoreCommandFault>>
    ensures open { OnOk result (IsSeenOpen delta (map seen_of seen.now)) }
    ensures cause { IfErr result (HaltCause (SeenCause delta (map seen_of seen.now)) (λ _. ⊥)) }
{
    if is_running(seen) {
        return Err(Halt::Refused(RestoreCommandFault::Running));
    }
    check_holding(alloc, delta, seen)
}

/// The listing of a data folder that may be restored into.
pub(crate) fn look<T: DataFolder>(
    alloc: Global,
    delta: bool,
    tree: &mut T,
) -> Result<Vec<FolderEntry>, Halt<RestoreCommandFault>>
    ensures listing { IfOk result (λ seen. ListsTree (T.state tree.old) seen.items) }
    ensures open { OnOk result (IfSome (T.state tree.old).nodes (IsOpen delta)) }
    ensures looks { OnlyReadsFolder (T.state tree.old) (T.state tree.new) }
    ensures cause { IfErr result (LookHalts delta (T.state tree.old) (T.state tree.new)) }
{
    let seen = match tree.list(alloc) {
        Ok(seen) => seen,
        Err(error) => return Err(halted(Object::TheDataFolder, error)),
    };
    check_folder(alloc, delta, &seen)?;
    Ok(seen)
}
