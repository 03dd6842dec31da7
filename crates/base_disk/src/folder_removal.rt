// Removes all that lies below a folder.
ghost use Rattle.std.specs.Prelude.{◌≡◌, nat_eq, option_map, IfErr, OnOk, IsErrOf, IsTrue};
ghost use Rattle.std.specs.List.{starts_with};
ghost use Rattle.base_devices.specs.Content.{is_below, IsBelow};
ghost use Rattle.base_devices.specs.Cause.{Rises};
ghost use Rattle.base_disk.specs.Dropped.{without, Drops, AreRemoved, OnlyRemoves, StaysGone};
ghost use Rattle.base_disk.specs.Fault.{IsDeviceFault};

use crate::fault::StoreFault;
use base_devices::{Disk, Found};
use std::alloc::Global;

/// Removes every name below the folder and syncs it, so that a crash leaves none of them, unless it is unsynced.
pub fn drop_folder<D: Disk>(alloc: Global, d: &mut D, folder: &str) -> Result<(), StoreFault>
    ensures now { OnOk result ((D.state d.new).view.now ≡ option_map (without folder.now) (D.state d.old).view.now) }
    ensures drops { Drops (is_below folder.now) (D.state d.old).view.now (D.state d.new).view.now }
    ensures settled { OnOk result (StaysGone (IsBelow folder.now) (D.state d.old) (D.state d.new)) }
    ensures works { OnlyRemoves (IsBelow folder.now) (D.state d.old) (D.state d.new) }
    ensures cause { IsErrOf result StoreFault.Disk → Rises (D.state d.old).faults (D.state d.new).faults }
    ensures refusals { IfErr result IsDeviceFault }
{
    remove_below(alloc, d, folder)?;
    d.sync_directories(folder)?;
    Ok(())
}

// Removes every name below the folder.
fn remove_below<D: Disk>(alloc: Global, d: &mut D, folder: &str) -> Result<(), StoreFault>
    ensures now { OnOk result ((D.state d.new).view.now ≡ option_map (without folder.now) (D.state d.old).view.now) }
    ensures drops { Drops (is_below folder.now) (D.state d.old).view.now (D.state d.new).view.now }
    ensures works { OnlyRemoves (IsBelow folder.now) (D.state d.old) (D.state d.new) }
    ensures cause { IsErrOf result StoreFault.Disk → Rises (D.state d.old).faults (D.state d.new).faults }
    ensures refusals { IfErr result IsDeviceFault }
{
    let prefix = format!(in alloc; "{folder}/")?;
    let found = d.names(alloc, folder)?;
    remove_each(d, &found, &prefix)
}

// Removes the names that have this in front: a disk whose contents are unknown may list others.
fn remove_each<D: Disk>(d: &mut D, found: &[Found], prefix: &str) -> Result<(), StoreFault>
    ensures gone { OnOk result (AreRemoved prefix.now found.now (D.state d.new)) }
    ensures drops { Drops (λ n. starts_with nat_eq n prefix.now) (D.state d.old).view.now (D.state d.new).view.now }
    ensures works { OnlyRemoves (λ n. IsTrue (starts_with nat_eq n prefix.now)) (D.state d.old) (D.state d.new) }
    ensures cause { IsErrOf result StoreFault.Disk → Rises (D.state d.old).faults (D.state d.new).faults }
    ensures refusals { IfErr result IsDeviceFault }
{
    for each in found {
        if each.name.as_bytes().starts_with(prefix.as_bytes()) {
            d.remove(&each.name)?;
        }
    }
    Ok(())
}
