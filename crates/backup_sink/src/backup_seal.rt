// Makes durable what was stored.
ghost use Rattle.std.specs.Prelude.{◌≡◌, OnOk};
ghost use Rattle.base_devices.specs.States.{CallsProperly};
ghost use Rattle.base_devices.specs.Cause.{HasCause};
ghost use Rattle.backup_sink.specs.Keeping.{is_own};
ghost use Rattle.backup_sink.specs.Relation.{Touches};
ghost use Rattle.backup_sink.specs.Sealed.{IsSealed};

use base_devices::{DeviceError, Disk};
use std::alloc::Global;

/// Makes what a backup has stored in this folder durable: a crash leaves each of its names unchanged.
pub fn seal<D: Disk>(alloc: Global, d: &mut D, folder: &str) -> Result<(), DeviceError>
    ensures now { (D.state d.new).view.now ≡ (D.state d.old).view.now }
    ensures touches { Touches (is_own folder.now) (D.state d.old).view (D.state d.new).view }
    ensures sealed { OnOk result (IsSealed (is_own folder.now) (D.state d.new).view) }
    ensures frame { CallsProperly (D.state d.old) (D.state d.new) }
    ensures cause { HasCause (D.state d.old).faults (D.state d.new).faults result }
{
    let files = format!(in alloc; "{folder}/pg_data")?;
    d.sync_below(&files)?;
    let bundles = format!(in alloc; "{folder}/bundle")?;
    d.sync_below(&bundles)?;
    d.sync_directories(folder)
}
