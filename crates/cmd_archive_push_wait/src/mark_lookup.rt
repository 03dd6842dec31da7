// The spool is asked whether a file was stored, and then the names of its marks are synced.
ghost use Rattle.std.specs.Prelude.{[], IfOk, IfErr, IfSome, IsSome, OnOk};
ghost use Rattle.base_text.specs.Sum.{IsSum};
ghost use Rattle.base_devices.specs.States.{CallsProperly, OnlyReads};
ghost use Rattle.archive_lookup.specs.Stored.{ChangesArchive};
ghost use Rattle.archive_spool.specs.Marks.{GivesMarks};
ghost use Rattle.archive_spool.specs.Asking.{IsAnswer};
ghost use Rattle.cmd_archive_push_wait.specs.Leaving.{IsClear};
ghost use Rattle.cmd_archive_push_wait.specs.Between.{SpoolEnds, SyncsMarks, IsBareIfNothing, MarkEnds};

use crate::fault::{QueueFault, of_mark};
use archive_spool::{Asked, ask};
use base_devices::Disk;
use base_model::ArchiveName;
use base_text::Sum;
use cmd_types::{Halt, Object, halted};
use std::alloc::Global;

// Syncs the names of marks.
fn sync_marks<S: Disk>(alloc: Global, spool: &mut S, stanza: &str) -> Result<(), Halt<QueueFault>>
    ensures settled { OnOk result (SyncsMarks stanza.now (S.state spool.old) (S.state spool.new)) }
    ensures looks { OnlyReads (S.state spool.old) (S.state spool.new) }
    ensures cause { IfErr result (SpoolEnds (S.state spool.old) (S.state spool.new)) }
{
    let Ok(folder) = format!(in alloc; "archive/{stanza}/out") else {
        return Err(Halt::NoMemory);
    };
    match spool.sync_directory(folder.as_str()) {
        Ok(()) => Ok(()),
        Err(error) => Err(halted(Object::Spool, error)),
    }
}

/// Returns what the spool says of a file with this sum, and removes its marks. Where that is nothing, no crash brings
/// a receipt of it back.
pub(crate) fn look<S: Disk>(
    alloc: Global,
    spool: &mut S,
    stanza: &str,
    name: ArchiveName,
    sum: &Sum,
) -> Result<Asked, Halt<QueueFault>>
    requires { IsSum sum.now.0 }
    ensures answers { IfOk result
        (IsAnswer stanza.now name sum.now.0 (S.state spool.old)) }
    ensures clear { OnOk result (IfSome (S.state spool.new).view.now (IsClear stanza.now name)) }
    ensures bare { IfOk result (IsBareIfNothing stanza.now name (S.state spool.old) (S.state spool.new)) }
    ensures known { IsSome (S.state spool.old).view.now → IsSome (S.state spool.new).view.now }
    ensures marks { GivesMarks stanza.now [] (S.state spool.old).view (S.state spool.new).view }
    ensures only { ChangesArchive stanza.now (S.state spool.old).view (S.state spool.new).view }
    ensures frame { CallsProperly (S.state spool.old) (S.state spool.new) }
    ensures cause { IfErr result (MarkEnds stanza.now name (S.state spool.old) (S.state spool.new)) }
{
    match ask(alloc, spool, stanza, &name, sum) {
        Ok(Asked::Done) => Ok(Asked::Done),
        Ok(Asked::Reported { code, text }) => Ok(Asked::Reported { code, text }),
        Ok(Asked::NotYet) => match sync_marks(alloc, spool, stanza) {
            Ok(()) => Ok(Asked::NotYet),
            Err(halt) => Err(halt),
        },
        Err(fault) => Err(of_mark(fault)),
    }
}
