// A mark gets its name, and is whole there whatever a crash leaves.
ghost use Rattle.std.specs.Prelude.{IfErr, OnOk, IsErrOf, string_bytes};
ghost use Rattle.base_devices.specs.Crash.{IsTemporary};
ghost use Rattle.base_devices.specs.Cause.{Rises};
ghost use Rattle.base_disk.specs.Fault.{IsDeviceFault};
ghost use Rattle.archive_spool.specs.Marks.{AddsMark, MayPlace, Places, ChangesPlace};

use base_devices::Disk;
use base_disk::{StoreFault, stage};
use std::alloc::Global;

/// A mark: its name, one for its text until that is whole, and the text.
#[derive(Drop)]
pub(crate) struct Mark {
    pub(crate) temporary: String,
    pub(crate) name: String,
    pub(crate) text: String,
}

/// Puts a mark. Its name isn't synced: a crash may still leave what the name had before.
pub(crate) fn place<S: Disk>(alloc: Global, spool: &mut S, mark: &Mark) -> Result<(), StoreFault>
    requires temporary { IsTemporary (string_bytes mark.now.temporary) }
    requires lasting { ¬ IsTemporary (string_bytes mark.now.name) }
    ensures works { AddsMark mark.now (S.state spool.old) (S.state spool.new) }
    ensures part { MayPlace mark.now (S.state spool.old) (S.state spool.new) }
    ensures whole { OnOk result (Places mark.now (S.state spool.old) (S.state spool.new)) }
    ensures only { ChangesPlace mark.now (S.state spool.old) (S.state spool.new) }
    ensures cause { IsErrOf result StoreFault.Disk → Rises (S.state spool.old).faults (S.state spool.new).faults }
    ensures refusals { IfErr result IsDeviceFault }
{
    let staged = stage(alloc, spool, &mark.temporary, mark.text.as_bytes())?;
    spool.rename(staged.name(), &mark.name)?;
    Ok(())
}
