// Marks the result of a push in the spool.
ghost use Rattle.std.specs.Prelude.{◌≡◌, ◌≤◌, ◌+◌, IfOk, IfErr, IsErrOf, OnOk};
ghost use Rattle.base_devices.specs.Cause.{Rises};
ghost use Rattle.base_devices.specs.States.{CallsProperly};
ghost use Rattle.base_model.specs.Text.{Text};
ghost use Rattle.archive_lookup.specs.Stored.{ChangesArchive};
ghost use Rattle.cmd_archive_push_async.specs.Ends.{halt_of_spool};
ghost use Rattle.cmd_archive_push_async.specs.Fates.{IsCountOf};
ghost use Rattle.cmd_archive_push_async.specs.Pushing.{fate_of};
ghost use Rattle.cmd_archive_push_async.specs.Between.{SpoolEnds, GivesMarkOf, MayMark, IsMarkedAs};

use crate::files::pushing::Tried;
use archive_spool::{put_receipt, put_refusal};
use base_devices::Disk;
use base_disk::StoreFault;
use base_model::ArchiveName;
use cmd_archive_push::{PushFault, push_status};
use cmd_types::{Halt, Object};
use std::alloc::Global;

/// What a drain did: how many files it stored, and how many were refused for their content.
#[derive(Clone, Copy, Debug, PartialEq, Eq)]
pub struct Drained {
    pub pushed: u64,
    pub refused: u64,
}

/// The fault that a fault of the spool becomes.
pub(crate) fn of_spool(fault: StoreFault) -> Halt<PushFault>
    ensures { result ≡ halt_of_spool fault }
{
    match fault {
        StoreFault::Disk => Halt::Failed(Object::Spool),
        StoreFault::TooLong { .. } | StoreFault::NoMemory => Halt::NoMemory,
    }
}

// Puts the mark.
fn put_mark<S: Disk>(
    alloc: Global,
    spool: &mut S,
    stanza: &str,
    name: ArchiveName,
    tried: &Tried,
) -> Result<(), StoreFault>
    ensures marks { GivesMarkOf stanza.now name tried.now (S.state spool.old) (S.state spool.new) }
    ensures part { MayMark stanza.now name tried.now (S.state spool.old) (S.state spool.new) }
    ensures whole { OnOk result (IsMarkedAs stanza.now name tried.now (S.state spool.old) (S.state spool.new)) }
    ensures only { ChangesArchive stanza.now (S.state spool.old).view (S.state spool.new).view }
    ensures frame { CallsProperly (S.state spool.old) (S.state spool.new) }
    ensures cause { IsErrOf result StoreFault.Disk → Rises (S.state spool.old).faults (S.state spool.new).faults }
{
    match tried {
        Tried::Stored(sum) => put_receipt(alloc, spool, stanza, &name, sum),
        Tried::Refused(fault, line) => {
            let code = u32::from(push_status(fault));
            put_refusal(alloc, spool, stanza, &name, code, line.as_str())
        }
    }
}

impl Tried {
    // What it adds to what a drain did.
    fn drained(&self) -> Drained
        ensures count { (bytes : Text) → IsCountOf (fate_of self.now bytes) result }
        ensures few { result.pushed + result.refused ≤ 1 }
    {
        match self {
            Tried::Stored(_) => Drained {
                pushed: 1,
                refused: 0,
            },
            Tried::Refused(..) => Drained {
                pushed: 0,
                refused: 1,
            },
        }
    }
}

/// Marks the result of a push.
pub(crate) fn mark_tried<S: Disk>(
    alloc: Global,
    spool: &mut S,
    stanza: &str,
    name: ArchiveName,
    tried: &Tried,
) -> Result<Drained, Halt<PushFault>>
    ensures counted { IfOk result (λ drained. (bytes : Text) → IsCountOf (fate_of tried.now bytes) drained) }
    ensures few { IfOk result (λ drained. drained.pushed + drained.refused ≤ 1) }
    ensures marks { GivesMarkOf stanza.now name tried.now (S.state spool.old) (S.state spool.new) }
    ensures part { MayMark stanza.now name tried.now (S.state spool.old) (S.state spool.new) }
    ensures whole { OnOk result (IsMarkedAs stanza.now name tried.now (S.state spool.old) (S.state spool.new)) }
    ensures only { ChangesArchive stanza.now (S.state spool.old).view (S.state spool.new).view }
    ensures frame { CallsProperly (S.state spool.old) (S.state spool.new) }
    ensures cause { IfErr result (SpoolEnds (S.state spool.old) (S.state spool.new)) }
{
    match put_mark(alloc, spool, stanza, name, tried) {
        Ok(()) => Ok(tried.drained()),
        Err(fault) => Err(of_spool(fault)),
    }
}
