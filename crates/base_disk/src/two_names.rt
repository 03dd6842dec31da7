// Keeps bytes at two names.
ghost use Rattle.std.specs.Prelude.{IfErr, OnOk, IsErrOf};
ghost use Rattle.base_devices.specs.States.{CallsProperly};
ghost use Rattle.base_devices.specs.Content.{Name};
ghost use Rattle.base_devices.specs.Crash.{IsTemporary};
ghost use Rattle.base_devices.specs.Cause.{Rises};
ghost use Rattle.base_disk.specs.Fault.{IsDeviceFault};
ghost use Rattle.base_disk.specs.Store.{LiesIn};
ghost use Rattle.base_disk.specs.Replacements.{ChangesThree, MayReplaceBoth, NowMayReplaceBoth, NowReplacesBoth, ReplacesBoth};

use crate::fault::StoreFault;
use crate::replacement::replace;
use base_devices::Disk;
use std::alloc::Global;

/// Gives both names these bytes, the main name whole before its copy.
pub fn save_both<D: Disk>(
    alloc: Global,
    d: &mut D,
    temp: &str,
    main: &str,
    copy: &str,
    bytes: &[u8],
) -> Result<(), StoreFault>
    requires main_folder { (folder : Name) × LiesIn folder temp.now × LiesIn folder main.now }
    requires copy_folder { (folder : Name) × LiesIn folder temp.now × LiesIn folder copy.now }
    requires temporary { IsTemporary temp.now }
    requires main_lasts { ¬ IsTemporary main.now }
    requires copy_lasts { ¬ IsTemporary copy.now }
    ensures crash { MayReplaceBoth main.now copy.now bytes.now (D.state d.old) (D.state d.new) }
    ensures whole { OnOk result (ReplacesBoth main.now copy.now bytes.now (D.state d.old) (D.state d.new)) }
    ensures now_part { NowMayReplaceBoth main.now copy.now bytes.now (D.state d.old) (D.state d.new) }
    ensures now_whole { OnOk result (NowReplacesBoth main.now copy.now bytes.now (D.state d.old) (D.state d.new)) }
    ensures only { ChangesThree temp.now main.now copy.now (D.state d.old) (D.state d.new) }
    ensures frame { CallsProperly (D.state d.old) (D.state d.new) }
    ensures cause { IsErrOf result StoreFault.Disk → Rises (D.state d.old).faults (D.state d.new).faults }
    ensures refusals { IfErr result IsDeviceFault }
{
    replace(alloc, d, temp, main, bytes)?;
    replace(alloc, d, temp, copy, bytes)?;
    Ok(())
}
