// What is synced before a command looks at a stanza.
ghost use Rattle.std.specs.Prelude.{IfErr, OnOk, IsErrOf};
ghost use Rattle.base_devices.specs.States.{OnlyReads, MakesDurable};
ghost use Rattle.base_devices.specs.Cause.{Rises};
ghost use Rattle.base_model.specs.Names.{IsOfStanza};
ghost use Rattle.base_model.specs.Steady.{BeginsCommand};
ghost use Rattle.base_disk.specs.Fault.{IsDeviceFault};

use crate::fault::StoreFault;
use base_devices::Disk;
use std::alloc::Global;

/// Syncs the stanza's folders, so that a crash leaves what each name there holds, unless it is unsynced. Where the
/// disk keeps a log, all that a crash then leaves represents what the disk represents.
pub fn begin<D: Disk>(alloc: Global, d: &mut D, stanza: &str) -> Result<(), StoreFault>
    ensures begun { OnOk result (BeginsCommand stanza.now (D.state d.old).view (D.state d.new).view) }
    ensures looks { OnlyReads (D.state d.old) (D.state d.new) }
    ensures settled { OnOk result (MakesDurable (IsOfStanza stanza.now) (D.state d.old) (D.state d.new)) }
    ensures cause { IsErrOf result StoreFault.Disk → Rises (D.state d.old).faults (D.state d.new).faults }
    ensures refusals { IfErr result IsDeviceFault }
{
    settle_folders(alloc, d, stanza)?;
    Ok(())
}

// Syncs the two folders.
fn settle_folders<D: Disk>(alloc: Global, d: &mut D, stanza: &str) -> Result<(), StoreFault>
    ensures looks { OnlyReads (D.state d.old) (D.state d.new) }
    ensures settled { OnOk result (MakesDurable (IsOfStanza stanza.now) (D.state d.old) (D.state d.new)) }
    ensures cause { IsErrOf result StoreFault.Disk → Rises (D.state d.old).faults (D.state d.new).faults }
    ensures refusals { IfErr result IsDeviceFault }
{
    let archive = format!(in alloc; "archive/{stanza}")?;
    let backup = format!(in alloc; "backup/{stanza}")?;
    d.sync_directories(&archive)?;
    d.sync_directories(&backup)?;
    Ok(())
}
