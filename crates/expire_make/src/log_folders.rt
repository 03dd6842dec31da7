// Removes files of the archive that aren't needed, folder by folder of the log.
ghost use Rattle.std.specs.Prelude.{IfOk, IfErr, OnOk};
ghost use Rattle.base_devices.specs.Content.{SameBut};
ghost use Rattle.base_devices.specs.Cause.{Rises};
ghost use Rattle.expire_make.specs.Losing.{TakesAway, names_of};
ghost use Rattle.expire_make.specs.Unneeded.{Forgets, IsGone, AreGone, AreGoneBelow, AreGoneWithin, CountsIfThere, CountsIfListed, CountsIfKnown};
ghost use Rattle.expire_make.specs.Fault.{IsDeviceFault};

use crate::fault::ExpireFault;
use crate::unneeded::is_unneeded;
use base_devices::{Disk, Found};
use expire_rules::KeptFiles;
use std::alloc::Global;

// Removes the file where it isn't kept, and returns whether it did, as 1 or 0.
fn remove_one<D: Disk>(
    d: &mut D,
    name: &str,
    prefix: &str,
    kept: &KeptFiles,
) -> Result<u64, ExpireFault>
    ensures takes { TakesAway (Forgets prefix.now kept.now) (D.state d.old) (D.state d.new) }
    ensures gone { OnOk result (IsGone prefix.now kept.now name.now (D.state d.new)) }
    ensures counts { IfOk result
        (CountsIfThere prefix.now kept.now name.now (D.state d.old) (D.state d.new)) }
    ensures others { SameBut name.now (D.state d.old).view.now (D.state d.new).view.now }
    ensures cause { IfErr result (IsDeviceFault (Rises (D.state d.old).faults (D.state d.new).faults)) }
{
    if is_unneeded(name, prefix, kept) {
        d.remove(name)?;
        return Ok(1);
    }
    Ok(0)
}

// Removes those of the files that aren't kept. A count at the type's end stays there.
fn remove_each<D: Disk>(
    d: &mut D,
    found: &[Found],
    prefix: &str,
    kept: &KeptFiles,
) -> Result<u64, ExpireFault>
    ensures takes { TakesAway (Forgets prefix.now kept.now) (D.state d.old) (D.state d.new) }
    ensures gone { OnOk result (AreGone prefix.now kept.now (names_of found.now) (D.state d.new)) }
    ensures counts { IfOk result
        (CountsIfListed prefix.now kept.now found.now (D.state d.old) (D.state d.new)) }
    ensures cause { IfErr result (IsDeviceFault (Rises (D.state d.old).faults (D.state d.new).faults)) }
{
    let mut removed = 0u64;
    for each in found {
        removed = removed.saturating_add(remove_one(d, &each.name, prefix, kept)?);
    }
    Ok(removed)
}

// The same for all files in a folder.
fn remove_in<D: Disk>(
    alloc: Global,
    d: &mut D,
    place: &str,
    prefix: &str,
    kept: &KeptFiles,
) -> Result<u64, ExpireFault>
    ensures takes { TakesAway (Forgets prefix.now kept.now) (D.state d.old) (D.state d.new) }
    ensures gone { OnOk result (AreGoneBelow prefix.now kept.now place.now (D.state d.new)) }
    ensures counts { IfOk result (CountsIfKnown prefix.now kept.now (D.state d.old) (D.state d.new)) }
    ensures cause { IfErr result (IsDeviceFault (Rises (D.state d.old).faults (D.state d.new).faults)) }
{
    let found = d.names(alloc, place)?;
    remove_each(d, &found, prefix, kept)
}

// The same for all files in the folders of these names within a place.
pub(crate) fn remove_within<D: Disk>(
    alloc: Global,
    d: &mut D,
    place: &str,
    folders: &[String],
    prefix: &str,
    kept: &KeptFiles,
) -> Result<u64, ExpireFault>
    ensures takes { TakesAway (Forgets prefix.now kept.now) (D.state d.old) (D.state d.new) }
    ensures gone { OnOk result (AreGoneWithin prefix.now kept.now place.now folders.now (D.state d.new)) }
    ensures counts { IfOk result (CountsIfKnown prefix.now kept.now (D.state d.old) (D.state d.new)) }
    ensures cause { IfErr result (IsDeviceFault (Rises (D.state d.old).faults (D.state d.new).faults)) }
{
    let mut removed = 0u64;
    for folder in folders {
        let within = format!(in alloc; "{place}/{folder}")?;
        removed = removed.saturating_add(remove_in(alloc, d, within.as_str(), prefix, kept)?);
    }
    Ok(removed)
}
