// Removes the folders of labels that aren't listed.
ghost use Rattle.std.specs.Prelude.{◌≡◌, false, nat_eq, IfErr, IfOk, IsTrue, OnOk};
ghost use Rattle.std.specs.List.{starts_with};
ghost use Rattle.base_devices.specs.Cause.{Rises};
ghost use Rattle.base_devices.specs.States.{OnlyReads};
ghost use Rattle.base_model.specs.Text.{◌⫽◌};
ghost use Rattle.base_model.specs.Names.{backup_folder};
ghost use Rattle.expire_make.specs.Emptying.{IsAbsentAfter, AreAbsentAfter, IsEmptied, IsEmptiedOf, AreEmptiedOf, HasNoUnlisted};
ghost use Rattle.expire_make.specs.Losing.{TakesAway, TakesFolder, IsUnlisted, FolderStaysDurable, labels_listed, names_of};
ghost use Rattle.expire_make.specs.Fault.{IsDeviceFault};

use crate::fault::ExpireFault;
use crate::labels::is_unlisted;
use base_devices::{Disk, Found};
use base_model::Entry;
use std::alloc::Global;

// Removes the name, where it has this in front.
fn remove_after<D: Disk>(d: &mut D, name: &str, prefix: &str) -> Result<(), ExpireFault>
    ensures takes { TakesAway (λ n. IsTrue (starts_with nat_eq n prefix.now)) (D.state d.old) (D.state d.new) }
    ensures gone { OnOk result (IsAbsentAfter prefix.now name.now (D.state d.new)) }
    ensures cause { IfErr result (IsDeviceFault (Rises (D.state d.old).faults (D.state d.new).faults)) }
{
    if !name.as_bytes().starts_with(prefix.as_bytes()) {
        return Ok(());
    }
    d.remove(name)?;
    Ok(())
}

// Removes those of the names that have this in front: a disk whose contents are unknown may list others.
fn remove_all<D: Disk>(d: &mut D, found: &[Found], prefix: &str) -> Result<(), ExpireFault>
    ensures takes { TakesAway (λ n. IsTrue (starts_with nat_eq n prefix.now)) (D.state d.old) (D.state d.new) }
    ensures gone { OnOk result (AreAbsentAfter prefix.now (names_of found.now) (D.state d.new)) }
    ensures cause { IfErr result (IsDeviceFault (Rises (D.state d.old).faults (D.state d.new).faults)) }
{
    for each in found {
        remove_after(d, &each.name, prefix)?;
    }
    Ok(())
}

// Removes all that lies below this folder of the stanza's backups. A sync has to follow.
fn drop_below<D: Disk>(
    alloc: Global,
    d: &mut D,
    stanza: &str,
    name: &str,
) -> Result<(), ExpireFault>
    ensures takes { TakesFolder (backup_folder stanza.now ⫽ name.now) (D.state d.old) (D.state d.new) }
    ensures gone { OnOk result (IsEmptied (backup_folder stanza.now ⫽ name.now) (D.state d.new)) }
    ensures cause { IfErr result (IsDeviceFault (Rises (D.state d.old).faults (D.state d.new).faults)) }
{
    let folder = format!(in alloc; "backup/{stanza}/{name}")?;
    let prefix = format!(in alloc; "{folder}/")?;
    let found = d.names(alloc, folder.as_str())?;
    remove_all(d, &found, prefix.as_str())
}

// Removes the folder, where its name is that of a label that isn't listed, and returns whether it is.
fn drop_one<D: Disk>(
    alloc: Global,
    d: &mut D,
    stanza: &str,
    name: &str,
    entries: &[Entry],
) -> Result<bool, ExpireFault>
    ensures takes { TakesAway (IsUnlisted stanza.now (labels_listed entries.now)) (D.state d.old) (D.state d.new) }
    ensures gone { OnOk result (IsEmptiedOf stanza.now (labels_listed entries.now) name.now (D.state d.new)) }
    ensures idle { IfOk result (λ is_dropped. is_dropped ≡ false → OnlyReads (D.state d.old) (D.state d.new)) }
    ensures cause { IfErr result (IsDeviceFault (Rises (D.state d.old).faults (D.state d.new).faults)) }
{
    if is_unlisted(name.as_bytes(), entries) {
        drop_below(alloc, d, stanza, name)?;
        return Ok(true);
    }
    Ok(false)
}

// Removes those of the folders that are named as labels that aren't listed, and returns whether there is one.
fn drop_each<D: Disk>(
    alloc: Global,
    d: &mut D,
    stanza: &str,
    names: &[String],
    entries: &[Entry],
) -> Result<bool, ExpireFault>
    ensures takes { TakesAway (IsUnlisted stanza.now (labels_listed entries.now)) (D.state d.old) (D.state d.new) }
    ensures gone { OnOk result (AreEmptiedOf stanza.now (labels_listed entries.now) names.now (D.state d.new)) }
    ensures idle { IfOk result (λ is_dropped. is_dropped ≡ false → OnlyReads (D.state d.old) (D.state d.new)) }
    ensures cause { IfErr result (IsDeviceFault (Rises (D.state d.old).faults (D.state d.new).faults)) }
{
    let mut is_dropped = false;
    for name in names {
        if drop_one(alloc, d, stanza, name.as_str(), entries)? {
            is_dropped = true;
        }
    }
    Ok(is_dropped)
}

/// Removes the folders of all labels that aren't listed. Where there are some, one sync after them all makes
/// that durable: each would wait for the device.
pub(crate) fn drop_unlisted<D: Disk>(
    alloc: Global,
    d: &mut D,
    stanza: &str,
    entries: &[Entry],
) -> Result<(), ExpireFault>
    ensures takes { TakesAway (IsUnlisted stanza.now (labels_listed entries.now)) (D.state d.old) (D.state d.new) }
    ensures gone { OnOk result (HasNoUnlisted stanza.now (labels_listed entries.now) (D.state d.new)) }
    ensures settled { OnOk result (FolderStaysDurable (backup_folder stanza.now) (D.state d.old) (D.state d.new)) }
    ensures cause { IfErr result (IsDeviceFault (Rises (D.state d.old).faults (D.state d.new).faults)) }
{
    let folder = format!(in alloc; "backup/{stanza}")?;
    let names = d.folders(alloc, folder.as_str())?;
    let is_dropped = drop_each(alloc, d, stanza, &names, entries)?;
    if is_dropped {
        d.sync_directories(folder.as_str())?;
        return Ok(());
    }
    Ok(())
}
