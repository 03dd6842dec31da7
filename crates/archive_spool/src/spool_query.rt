// Asks the spool whether a file was stored.
ghost use Rattle.std.specs.Prelude.{◌≡◌, ◌⊎◌, [], None, IfOk, IfErr, IfSome, IfNone, IsErrOf, IsSome, OnOk, string_bytes};
ghost use Rattle.base_text.specs.Sum.{IsSum};
ghost use Rattle.base_devices.specs.Cause.{Rises};
ghost use Rattle.base_devices.specs.States.{CallsProperly, OnlyReads, Works};
ghost use Rattle.base_disk.specs.Store.{ChangesOnly};
ghost use Rattle.base_disk.specs.Fault.{IsDeviceFault, IfTooLong};
ghost use Rattle.archive_spool.specs.Asking.{AreNamesOf, IsLong, IsNameOf, IsMarkName, HasLongMark, SaysHeld, HasRefusalAt, HasNoRefusalAt, IsAnswer, IsAnswerAt, RemovesNames, RemovesMarks};
ghost use Rattle.archive_spool.specs.Marks.{GivesMarks};

use crate::names::{receipt_name, receipt_text, refusal_name};
use crate::refusals;
use base_devices::Disk;
use base_disk::{StoreFault, read_whole};
use base_model::ArchiveName;
use base_text::{NoMemory, Sum};
use std::alloc::Global;

// A mark has at most 1 MiB.
const MARK_LIMIT: u64 = 1 << 20;

/// What the spool says of a file: it was stored with this sum, nothing yet, or it was refused with this status and
/// line.
#[derive(Debug, PartialEq, Eq, Drop)]
pub enum Asked {
    Done,
    NotYet,
    Reported { code: u32, text: String },
}

/// The names of a file's two marks.
#[derive(Drop)]
pub(crate) struct MarkNames {
    receipt: String,
    refusal: String,
}

fn names_of(alloc: Global, stanza: &str, name: &ArchiveName) -> Result<MarkNames, NoMemory>
    ensures { IfOk result (AreNamesOf stanza.now name.now) }
{
    Ok(MarkNames {
        receipt: receipt_name(alloc, stanza, name)?,
        refusal: refusal_name(alloc, stanza, name)?,
    })
}

// Whether the name holds these bytes.
fn holds<S: Disk>(alloc: Global, spool: &mut S, name: &str, text: &[u8]) -> Result<bool, StoreFault>
    ensures holds { IfOk result
        (SaysHeld name.now text.now (S.state spool.old)) }
    ensures long { IfErr result (λ e. IfTooLong e (IsLong (λ n. n ≡ name.now) (S.state spool.old).view.now)) }
    ensures looks { OnlyReads (S.state spool.old) (S.state spool.new) }
    ensures cause { IsErrOf result StoreFault.Disk → Rises (S.state spool.old).faults (S.state spool.new).faults }
{
    match read_whole(alloc, spool, name, MARK_LIMIT)? {
        Some(bytes) => Ok(bytes.as_slice() == text),
        None => Ok(false),
    }
}

// The refusal that the name holds.
fn refusal_at<S: Disk>(
    alloc: Global,
    spool: &mut S,
    name: &str,
) -> Result<Option<(u32, String)>, StoreFault>
    ensures some { IfOk result (λ r. IfSome r (λ x. HasRefusalAt name.now (S.state spool.old) x.0 (string_bytes x.1))) }
    ensures none { IfOk result (λ r. IfNone r (HasNoRefusalAt name.now (S.state spool.old))) }
    ensures long { IfErr result (λ e. IfTooLong e (IsLong (λ n. n ≡ name.now) (S.state spool.old).view.now)) }
    ensures looks { OnlyReads (S.state spool.old) (S.state spool.new) }
    ensures cause { IsErrOf result StoreFault.Disk → Rises (S.state spool.old).faults (S.state spool.new).faults }
{
    let Some(bytes) = read_whole(alloc, spool, name, MARK_LIMIT)? else {
        return Ok(None);
    };
    match refusals::read_refusal(alloc, &bytes) {
        Ok(refusal) => Ok(refusal),
        Err(_) => Err(StoreFault::NoMemory),
    }
}

// What the two marks of a file say.
fn look<S: Disk>(
    alloc: Global,
    spool: &mut S,
    names: &MarkNames,
    sum: &Sum,
) -> Result<Asked, StoreFault>
    requires { IsSum sum.now.0 }
    ensures answers { IfOk result (IsAnswerAt names.now sum.now.0 (S.state spool.old)) }
    ensures long { IfErr result (λ e. IfTooLong e (IsLong (IsNameOf names.now) (S.state spool.old).view.now)) }
    ensures looks { OnlyReads (S.state spool.old) (S.state spool.new) }
    ensures cause { IsErrOf result StoreFault.Disk → Rises (S.state spool.old).faults (S.state spool.new).faults }
{
    let Ok(text) = receipt_text(alloc, sum) else {
        return Err(StoreFault::NoMemory);
    };
    if holds(alloc, spool, names.receipt.as_str(), text.as_bytes())? {
        return Ok(Asked::Done);
    }
    match refusal_at(alloc, spool, names.refusal.as_str())? {
        Some((code, text)) => Ok(Asked::Reported { code, text }),
        None => Ok(Asked::NotYet),
    }
}

// Removes both marks.
fn clear<S: Disk>(spool: &mut S, names: &MarkNames) -> Result<(), StoreFault>
    ensures now { OnOk result (RemovesNames names.now (S.state spool.old) (S.state spool.new)) }
    ensures known { IsSome (S.state spool.old).view.now → IsSome (S.state spool.new).view.now }
    ensures only { ChangesOnly (IsNameOf names.now) (S.state spool.old).view (S.state spool.new).view }
    ensures works { Works (λ _ v. v ≡ None) (λ _. ⊥) (S.state spool.old) (S.state spool.new) }
    ensures cause { IsErrOf result StoreFault.Disk → Rises (S.state spool.old).faults (S.state spool.new).faults }
    ensures refusals { IfErr result IsDeviceFault }
{
    spool.remove(&names.receipt)?;
    spool.remove(&names.refusal)?;
    Ok(())
}

/// Returns what the spool says of a file with this sum, and removes each mark of the file.
pub fn ask<S: Disk>(
    alloc: Global,
    spool: &mut S,
    stanza: &str,
    name: &ArchiveName,
    sum: &Sum,
) -> Result<Asked, StoreFault>
    requires { IsSum sum.now.0 }
    ensures answers { IfOk result
        (IsAnswer stanza.now name.now sum.now.0 (S.state spool.old)) }
    ensures gone { OnOk result (RemovesMarks stanza.now name.now (S.state spool.old) (S.state spool.new)) }
    ensures known { IsSome (S.state spool.old).view.now → IsSome (S.state spool.new).view.now }

    // It gives no receipt, and nothing else changes.
    ensures marks { GivesMarks stanza.now [] (S.state spool.old).view (S.state spool.new).view }
    ensures only { ChangesOnly (IsMarkName stanza.now name.now) (S.state spool.old).view (S.state spool.new).view }
    ensures frame { CallsProperly (S.state spool.old) (S.state spool.new) }

    ensures long { IfErr result
        (λ e. IfTooLong e (HasLongMark stanza.now name.now (S.state spool.old))) }
    ensures cause { IsErrOf result StoreFault.Disk → Rises (S.state spool.old).faults (S.state spool.new).faults }
{
    let Ok(names) = names_of(alloc, stanza, name) else {
        return Err(StoreFault::NoMemory);
    };
    let asked = look(alloc, spool, &names, sum)?;
    match clear(spool, &names) {
        Ok(()) => Ok(asked),
        Err(fault) => Err(fault),
    }
}
