// Writes the two members of an info file.
ghost use Rattle.std.specs.Prelude.{◌≡◌, ◌≤◌, ◌++◌, codes, false, IfOk, OnOk, IsErrOf, string_bytes};
ghost use Rattle.base_devices.specs.States.{CallsProperly};
ghost use Rattle.base_devices.specs.Cause.{Rises};
ghost use Rattle.base_disk.specs.Store.{ChangesOnly};
ghost use Rattle.base_model.specs.Names.{copy_of};
ghost use Rattle.repo_pair.specs.Member.{IsMemberName, IsOfPair};
ghost use Rattle.repo_pair.specs.Writes.{SavesBoth, EndsBoth, SavesNow, EndsNow};

use crate::fault::SaveFault;
use base_devices::Disk;
use base_disk::save_both;
use std::alloc::{AllocError, Global};

pub(crate) fn copy_name(alloc: Global, name: &str) -> Result<String, AllocError>
    ensures { IfOk result (λ copy. string_bytes copy ≡ copy_of name.now) }
{
    format!(in alloc; "{name}.copy")
}

pub(crate) fn temporary_name(alloc: Global, name: &str) -> Result<String, AllocError>
    ensures { IfOk result (λ temporary. string_bytes temporary ≡ name.now ++ codes ".pgbackrest.tmp") }
{
    format!(in alloc; "{name}.pgbackrest.tmp")
}

/// Saves the text at the main member's name, then at its copy's.
pub fn save_text<D: Disk>(
    alloc: Global,
    d: &mut D,
    name: &str,
    text: &[u8],
) -> Result<(), SaveFault>
    requires { IsMemberName name.now }
    ensures crash { SavesBoth name.now text.now (D.state d.old).view (D.state d.new).view }
    ensures whole { OnOk result (EndsBoth name.now text.now (D.state d.old).view (D.state d.new).view) }
    ensures now_part { SavesNow name.now text.now (D.state d.old).view (D.state d.new).view }
    ensures now_whole { OnOk result (EndsNow name.now text.now (D.state d.old).view (D.state d.new).view) }
    ensures only { ChangesOnly (IsOfPair name.now) (D.state d.old).view (D.state d.new).view }
    ensures frame { CallsProperly (D.state d.old) (D.state d.new) }
    ensures cause { IsErrOf result SaveFault.Disk → Rises (D.state d.old).faults (D.state d.new).faults }
{
    let copy = copy_name(alloc, name)?;
    let temporary = temporary_name(alloc, name)?;
    save_both(alloc, d, temporary.as_str(), name, copy.as_str(), text)?;
    Ok(())
}
