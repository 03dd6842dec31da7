// Removes names that begin alike.
ghost use Rattle.std.specs.Prelude.{◌≡◌, ◌++◌, ◌∷◌, IfErr, IsErrOf, OnOk};
ghost use Rattle.base_devices.specs.Cause.{Rises};
ghost use Rattle.base_devices.specs.Content.{Name};
ghost use Rattle.base_disk.specs.Fault.{IsDeviceFault};
ghost use Rattle.cmd_archive_get_async.specs.Between.{AreGoneWith, DropsWith, RemovesWith, ClearsPrefix};

use base_devices::{Disk, Found};
use base_disk::StoreFault;
use std::alloc::Global;

// Removes those of the names that begin so.
fn remove_each<S: Disk>(spool: &mut S, found: &[Found], prefix: &str) -> Result<(), StoreFault>
    ensures gone { OnOk result
        (AreGoneWith prefix.now found.now (S.state spool.new)) }
    ensures drops { DropsWith prefix.now (S.state spool.old) (S.state spool.new) }
    ensures works { RemovesWith prefix.now (S.state spool.old) (S.state spool.new) }
    ensures cause { IsErrOf result StoreFault.Disk → Rises (S.state spool.old).faults (S.state spool.new).faults }
    ensures refusals { IfErr result IsDeviceFault }
{
    for each in found {
        if each.name.as_bytes().starts_with(prefix.as_bytes()) {
            spool.remove(&each.name)?;
        }
    }
    Ok(())
}

/// Removes each name below the folder that begins so.
pub(crate) fn remove_prefix<S: Disk>(
    alloc: Global,
    spool: &mut S,
    folder: &str,
    prefix: &str,
) -> Result<(), StoreFault>
    requires { (rest : Name) × (prefix.now ≡ folder.now ++ 47 ∷ rest) }
    ensures now { OnOk result
        (ClearsPrefix prefix.now (S.state spool.old) (S.state spool.new)) }
    ensures drops { DropsWith prefix.now (S.state spool.old) (S.state spool.new) }
    ensures works { RemovesWith prefix.now (S.state spool.old) (S.state spool.new) }
    ensures cause { IsErrOf result StoreFault.Disk → Rises (S.state spool.old).faults (S.state spool.new).faults }
    ensures refusals { IfErr result IsDeviceFault }
{
    let found = spool.names(alloc, folder)?;
    remove_each(spool, &found, prefix)
}
