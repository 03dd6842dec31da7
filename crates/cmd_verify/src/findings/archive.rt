// Looks at the stored segments.
ghost use Rattle.std.specs.Prelude.{IfOk, OnOk, IsErrOf};
ghost use Rattle.base_devices.specs.Cause.{HasCause, Rises};
ghost use Rattle.cmd_verify.specs.Looking.{HoldsStored, AddsStored, AddsBytes, AddsArchive};
ghost use Rattle.base_devices.specs.States.{OnlyReads};

use crate::findings::finding::{Finding, LookFault, Mark};
use crate::findings::place_sum::{Lies, deviation, sum_at};
use crate::findings::seconds::tell_seconds;
use archive_lookup::Stored;
use base_devices::{DeviceError, Disk};
use base_text::Sum;
use std::alloc::Global;

// What lies at a stored file's path, of as many bytes as it has.
fn lies_of<D: Disk>(d: &mut D, file: &Stored) -> Result<Lies, DeviceError>
    ensures lies { IfOk result (HoldsStored file.now (D.state d.old)) }
    ensures looks { OnlyReads (D.state d.old) (D.state d.new) }
    ensures cause { HasCause (D.state d.old).faults (D.state d.new).faults result }
{
    if file.size == 0 {
        return Ok(Lies::All(Sum::of(&[])));
    }
    sum_at(d, file.path.as_str(), 0, file.size)
}

// One stored file. Of one without a sum in its name nothing is reported.
fn look_at_stored<D: Disk>(
    alloc: Global,
    d: &mut D,
    file: &Stored,
    found: &mut Vec<Finding>,
) -> Result<(), LookFault>
    ensures adds { OnOk result (AddsStored file.now (D.state d.old) found.old found.new) }
    ensures looks { OnlyReads (D.state d.old) (D.state d.new) }
    ensures cause { IsErrOf result LookFault.Disk → Rises (D.state d.old).faults (D.state d.new).faults }
{
    let Some(known) = file.sum else {
        return Ok(());
    };
    let lies = lies_of(d, file)?;
    if let Some(Mark { kind, line }) = deviation(alloc, lies, file.size, &known)? {
        let name = String::from_str(alloc, file.path.as_str())?;
        found.push(Finding { name, kind, line })?;
    }
    Ok(())
}

// The bytes of all stored segments: each is read once.
fn look_at_bytes<D: Disk>(
    alloc: Global,
    d: &mut D,
    files: &[Stored],
    found: &mut Vec<Finding>,
) -> Result<(), LookFault>
    ensures adds { OnOk result (AddsBytes files.now (D.state d.old) found.old found.new) }
    ensures looks { OnlyReads (D.state d.old) (D.state d.new) }
    ensures cause { IsErrOf result LookFault.Disk → Rises (D.state d.old).faults (D.state d.new).faults }
{
    for file in files {
        look_at_stored(alloc, d, file, found)?;
    }
    Ok(())
}

/// Looks at the stored segments: at their bytes, and for those that are stored twice.
pub(crate) fn look_at_archive<D: Disk>(
    alloc: Global,
    d: &mut D,
    files: &[Stored],
    found: &mut Vec<Finding>,
) -> Result<(), LookFault>
    ensures adds { OnOk result (AddsArchive files.now (D.state d.old) found.old found.new) }
    ensures looks { OnlyReads (D.state d.old) (D.state d.new) }
    ensures cause { IsErrOf result LookFault.Disk → Rises (D.state d.old).faults (D.state d.new).faults }
{
    look_at_bytes(alloc, d, files, found)?;
    tell_seconds(alloc, files, found)?;
    Ok(())
}
