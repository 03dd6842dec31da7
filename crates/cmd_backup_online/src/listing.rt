// Lists the data folder, while its server runs.
ghost use Rattle.std.specs.Prelude.{◌≤◌, ◌<◌, IfOk, IfErr, OnOk};
ghost use Rattle.base_devices.specs.States.{OnlyReadsFolder};
ghost use Rattle.cmd_backup_common.specs.Halting.{ListsAll};
ghost use Rattle.cmd_backup_online.specs.Halting.{ListHalts};

use crate::past_listing::{PastListing, pass_listing};
use base_devices::{Clock, DataFolder};
use cmd_backup_common::BackupFault;
use cmd_types::{Halt, Object, halted};
use server_talk::Begun;
use std::alloc::Global;

/// All that the data folder has, once the second is over in which it was listed. As long as it has the backup that the
/// server has started, nobody can stop that.
pub(crate) fn list_folder<T: DataFolder, C: Clock>(
    alloc: Global,
    tree: &mut T,
    clock: &mut C,
    _server: &Begun,
) -> Result<PastListing, Halt<BackupFault>>
    ensures listing { IfOk result (λ seen. ListsAll (T.state tree.old) seen.nodes.items) }
    ensures past { OnOk result ((C.state clock.old).least < (C.state clock.new).least) }
    ensures least { (C.state clock.old).least ≤ (C.state clock.new).least }
    ensures looks { OnlyReadsFolder (T.state tree.old) (T.state tree.new) }
    ensures later { (C.state clock.old).faults ≤ (C.state clock.new).faults }
    ensures cause { IfErr result (ListHalts T.state tree.old tree.new C.state clock.old clock.new) }
{
    let nodes = match tree.list(alloc) {
        Ok(nodes) => nodes,
        Err(error) => return Err(halted(Object::TheDataFolder, error)),
    };
    match pass_listing(clock, nodes) {
        Ok(seen) => Ok(seen),
        Err(error) => Err(halted(Object::Clock, error)),
    }
}
