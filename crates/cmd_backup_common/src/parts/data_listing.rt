// Lists the data folder.
ghost use Rattle.std.specs.Prelude.{◌≡◌, IfOk, IfErr, IfSome, OnOk};
ghost use Rattle.base_devices.specs.States.{OnlyReadsFolder};
ghost use Rattle.cmd_backup_common.specs.Beginning.{IsStopped};
ghost use Rattle.cmd_backup_common.specs.Halting.{ListsAll, LookHalts};

use crate::parts::fault::BackupFault;
use backup_plan::is_running;
use base_devices::{DataFolder, FolderEntry};
use cmd_types::{Halt, Object, halted};
use std::alloc::Global;

/// All that the data folder of a stopped server has.
pub(crate) fn look<T: DataFolder>(
    alloc: Global,
    tree: &mut T,
) -> Result<Vec<FolderEntry>, Halt<BackupFault>>
    ensures listing { IfOk result (λ seen. ListsAll (T.state tree.old) seen.items) }
    ensures stopped { OnOk result (IfSome (T.state tree.old).nodes IsStopped) }
    ensures looks { OnlyReadsFolder (T.state tree.old) (T.state tree.new) }
    ensures cause { IfErr result (LookHalts (T.state tree.old) (T.state tree.new)) }
{
    let seen = match tree.list(alloc) {
        Ok(seen) => seen,
        Err(stop) => return Err(halted(Object::TheDataFolder, stop)),
    };
    if is_running(&seen) {
        return Err(Halt::Refused(BackupFault::Running));
    }
    Ok(seen)
}
