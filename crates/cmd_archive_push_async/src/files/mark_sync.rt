// Syncs the marks of a drain once, at its end.
ghost use Rattle.std.specs.Prelude.{◌≡◌, ◌∷◌, codes, IfOk, IfErr, OnOk};
ghost use Rattle.base_devices.specs.States.{OnlyReads};
ghost use Rattle.cmd_archive_push_async.specs.Between.{SpoolEnds, SyncsMarks};

use crate::files::push_marks::Drained;
use base_devices::Disk;
use cmd_archive_push::PushFault;
use cmd_types::{Halt, Object, halted};
use std::alloc::Global;

/// Syncs the names of marks, and returns again what was drained.
pub(crate) fn sync_marks<S: Disk>(
    alloc: Global,
    spool: &mut S,
    stanza: &str,
    drained: Drained,
) -> Result<Drained, Halt<PushFault>>
    ensures same { IfOk result (λ x. x ≡ drained) }
    ensures settled { OnOk result (SyncsMarks stanza.now (S.state spool.old) (S.state spool.new)) }
    ensures looks { OnlyReads (S.state spool.old) (S.state spool.new) }
    ensures cause { IfErr result (SpoolEnds (S.state spool.old) (S.state spool.new)) }
{
    let Ok(folder) = format!(in alloc; "archive/{stanza}/out") else {
        return Err(Halt::NoMemory);
    };
    match spool.sync_directory(folder.as_str()) {
        Ok(()) => Ok(drained),
        Err(error) => Err(halted(Object::Spool, error)),
    }
}
