// Saves an info file.
ghost use Rattle.std.specs.Prelude.{◌≡◌, ◌≤◌, IfOk, OnOk, IsErrOf, length};
ghost use Rattle.base_devices.specs.States.{CallsProperly};
ghost use Rattle.base_devices.specs.Cause.{Rises};
ghost use Rattle.base_disk.specs.Store.{ChangesOnly};
ghost use Rattle.base_model.specs.InfoText.{info_text};
ghost use Rattle.repo_pair.specs.Member.{IsMemberName, IsOfPair};
ghost use Rattle.repo_pair.specs.Writes.{SavesBoth, SavesNow, WritesValue, WritesValueNow};

use crate::fault::SaveFault;
use crate::members::save_text;
use base_devices::Disk;
use base_text::NoMemory;
use repo_info::Info;
use repo_ini::write_info_text;
use std::alloc::Global;

// The text of a value.
pub(crate) fn text_of<I: Info>(alloc: Global, value: &I) -> Result<Vec<u8>, NoMemory>
    requires { I.is_valid value.now }
    ensures { IfOk result (λ text. text.items ≡ info_text (I.sections value.now)) }
{
    let parts = value.parts(alloc)?;
    write_info_text(alloc, &parts)
}

/// Saves the value's text at the main member's name, then at its copy's.
pub fn save_pair<D: Disk, I: Info>(
    alloc: Global,
    d: &mut D,
    name: &str,
    value: &I,
) -> Result<(), SaveFault>
    requires named { IsMemberName name.now }
    requires valid { I.is_valid value.now }
    requires within { length (info_text (I.sections value.now)) ≤ I.limit }
    ensures crash { SavesBoth name.now (info_text (I.sections value.now)) (D.state d.old).view (D.state d.new).view }
    ensures whole { OnOk result (WritesValue I.sections name.now value.now (D.state d.old) (D.state d.new)) }
    ensures now_part { SavesNow name.now (info_text (I.sections value.now)) (D.state d.old).view (D.state d.new).view }
    ensures now_whole { OnOk result (WritesValueNow I.sections name.now value.now (D.state d.old) (D.state d.new)) }
    ensures only { ChangesOnly (IsOfPair name.now) (D.state d.old).view (D.state d.new).view }
    ensures frame { CallsProperly (D.state d.old) (D.state d.new) }
    ensures cause { IsErrOf result SaveFault.Disk → Rises (D.state d.old).faults (D.state d.new).faults }
{
    let text = text_of(alloc, value)?;
    save_text(alloc, d, name, &text)?;
    Ok(())
}
