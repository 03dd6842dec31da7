// Puts bytes in the place of a name's, by way of a temporary name.
ghost use Rattle.std.specs.Prelude.{◌≡◌, None, IfErr, OnOk, IsErrOf};
ghost use Rattle.base_devices.specs.States.{CallsProperly};
ghost use Rattle.base_devices.specs.Content.{Name};
ghost use Rattle.base_devices.specs.Crash.{IsTemporary};
ghost use Rattle.base_devices.specs.Cause.{Rises};
ghost use Rattle.base_disk.specs.Fault.{IsDeviceFault};
ghost use Rattle.base_disk.specs.Store.{LiesIn};
ghost use Rattle.base_disk.specs.Replacements.{ChangesTwo, MayReplace, NowMayReplace, NowReplaces, Replaces};

use crate::fault::StoreFault;
use crate::publication::publish;
use crate::staging::stage;
use base_devices::Disk;
use std::alloc::Global;

/// Gives the name these bytes, by way of a temporary name: at each moment a crash leaves the old bytes or these whole.
pub fn replace<D: Disk>(
    alloc: Global,
    d: &mut D,
    temp: &str,
    name: &str,
    bytes: &[u8],
) -> Result<(), StoreFault>
    requires folder { (folder : Name) × LiesIn folder temp.now × LiesIn folder name.now }
    requires temporary { IsTemporary temp.now }
    requires lasting { ¬ IsTemporary name.now }
    ensures crash { MayReplace name.now bytes.now (D.state d.old) (D.state d.new) }
    ensures whole { OnOk result (Replaces name.now bytes.now (D.state d.old) (D.state d.new)) }
    ensures now_part { NowMayReplace name.now bytes.now (D.state d.old) (D.state d.new) }
    ensures now_whole { OnOk result (NowReplaces name.now bytes.now (D.state d.old) (D.state d.new)) }
    ensures only { ChangesTwo temp.now name.now (D.state d.old) (D.state d.new) }
    ensures unknown { (D.state d.old).view.now ≡ None → (D.state d.new).view.now ≡ None }
    ensures frame { CallsProperly (D.state d.old) (D.state d.new) }
    ensures cause { IsErrOf result StoreFault.Disk → Rises (D.state d.old).faults (D.state d.new).faults }
    ensures refusals { IfErr result IsDeviceFault }
{
    let staged = stage(alloc, d, temp, bytes)?;
    publish(d, staged, name)?;
    Ok(())
}
