// The push of a segment in a step, where the one before it is stored, and its mark in the spool.
ghost use Rattle.std.specs.Prelude.{◌≡◌, None, IfOk, IfErr, IsSome, OnOk, is_ok};
ghost use Rattle.base_text.specs.Sum.{IsSum};
ghost use Rattle.base_devices.specs.States.{CallsProperly, OnlyReads};
ghost use Rattle.base_devices.specs.Cause.{Rises};
ghost use Rattle.base_model.specs.declared.wal.ArchiveName.TheVariants.{Segment as Whole};
ghost use Rattle.base_model.specs.Text.{Text};
ghost use Rattle.base_model.specs.InfoFiles.{IsSegment};
ghost use Rattle.base_model.specs.Represents.{IsArchivePlace};
ghost use Rattle.archive_lookup.specs.Stored.{ChangesArchive};
ghost use Rattle.memory_processes.specs.Pushing.{went_of, spool_stop_of, was_tried, MayEnd, IfStored, IfDeviceError, IsRepoFault, IsSpoolFault, StopsBy, AreMarkNamesOf, BeginsLog, StoresIfThere, TurnsByPush, HoldsFile, MayPutReceipt, PutsReceipt, GivesMark, LeavesMark};

use archive_lookup::{ArchiveFault, Look, TurnError, file_names, look_for};
use archive_store::{Pushed, push};
use base_devices::Disk;
use base_disk::{StoreFault, begin, replace};
use base_model::{ArchiveId, ArchiveName, Segment};
use base_text::{NoMemory, Sum};
use repo_names::segment_text;
use std::alloc::Global;

/// The result of the push.
#[derive(Clone, Copy)]
pub(crate) enum PushResult {
    Nothing,
    Stored,
    /// It may be stored.
    Tried(TurnError),
    Refused(TurnError),
}

fn sync_directories<D: Disk>(alloc: Global, d: &mut D, stanza: &str) -> Result<(), TurnError>
    ensures begun { OnOk result (BeginsLog stanza.now (D.state d.old) (D.state d.new)) }
    ensures looks { OnlyReads (D.state d.old) (D.state d.new) }
    ensures cause { IfErr result (IsRepoFault (Rises (D.state d.old).faults (D.state d.new).faults)) }
{
    match begin(alloc, d, stanza) {
        Ok(()) => Ok(()),
        Err(StoreFault::Disk) => Err(TurnError::Repo),
        Err(StoreFault::TooLong { .. } | StoreFault::NoMemory) => Err(TurnError::NoMemory),
    }
}

// Whether the segment is stored.
fn is_stored<D: Disk>(
    alloc: Global,
    d: &mut D,
    stanza: &str,
    id: &ArchiveId,
    segment: &Segment,
) -> Result<bool, TurnError>
    ensures stored { IfOk result
        (StoresIfThere stanza.now id.now segment.now (D.state d.old)) }
    ensures fits { OnOk result ((sum : Text) → IsSum sum → IsArchivePlace id.now (Whole segment.now) sum) }
    ensures looks { OnlyReads (D.state d.old) (D.state d.new) }
    ensures cause { IfErr result (IsRepoFault (Rises (D.state d.old).faults (D.state d.new).faults)) }
{
    let Ok(names) = file_names(alloc, stanza, *id, ArchiveName::Segment(*segment)) else {
        return Err(TurnError::NoMemory);
    };
    match look_for(alloc, d, &names) {
        Ok(Look::Free) => Ok(false),
        Ok(Look::One(_)) => Ok(true),
        Ok(Look::Two(..)) => Ok(true),
        Err(ArchiveFault::Disk) => Err(TurnError::Repo),
        Err(_) => Err(TurnError::NoMemory),
    }
}

// Syncs the stanza, and returns whether the segment is stored.
fn may_push<D: Disk>(
    alloc: Global,
    d: &mut D,
    stanza: &str,
    id: &ArchiveId,
    before: &Segment,
) -> Result<bool, TurnError>
    ensures begun { OnOk result (BeginsLog stanza.now (D.state d.old) (D.state d.new)) }
    ensures stored { IfOk result
        (StoresIfThere stanza.now id.now before.now (D.state d.old)) }
    ensures fits { OnOk result ((sum : Text) → IsSum sum → IsArchivePlace id.now (Whole before.now) sum) }
    ensures looks { OnlyReads (D.state d.old) (D.state d.new) }
    ensures cause { IfErr result (IsRepoFault (Rises (D.state d.old).faults (D.state d.new).faults)) }
{
    sync_directories(alloc, d, stanza)?;
    let is_there = is_stored(alloc, d, stanza, id, before)?;
    Ok(is_there)
}

fn went_by(pushed: Result<Pushed, ArchiveFault>) -> PushResult
    ensures { result ≡ went_of pushed }
{
    match pushed {
        Ok(_) => PushResult::Stored,
        Err(ArchiveFault::Disk) => PushResult::Tried(TurnError::Repo),
        Err(ArchiveFault::NoMemory) => PushResult::Tried(TurnError::NoMemory),
        Err(_) => PushResult::Nothing,
    }
}

// Pushes the segment, where the one before it is stored.
pub(crate) fn push_after<D: Disk>(
    alloc: Global,
    d: &mut D,
    stanza: &str,
    id: ArchiveId,
    before: Segment,
    segment: Segment,
    system: u64,
    bytes: &[u8],
) -> PushResult
    ensures turn { TurnsByPush stanza.now id segment bytes.now result (D.state d.old) (D.state d.new) }
    ensures stored { IfStored result (HoldsFile stanza.now id segment bytes.now (D.state d.old) (D.state d.new)) }
    ensures only { ChangesArchive stanza.now (D.state d.old).view (D.state d.new).view }
    ensures frame { CallsProperly (D.state d.old) (D.state d.new) }
    ensures cause { IfDeviceError result (IsRepoFault (Rises (D.state d.old).faults (D.state d.new).faults)) }
{
    match may_push(alloc, d, stanza, &id, &before) {
        Ok(true) => went_by(push(
            alloc,
            d,
            stanza,
            &id,
            &ArchiveName::Segment(segment),
            system,
            bytes,
        )),
        Ok(false) => PushResult::Nothing,
        Err(error) => PushResult::Refused(error),
    }
}

/// The name of a mark, one for its text until that is whole, and the text.
#[derive(Drop)]
pub(crate) struct MarkNames {
    name: String,
    temporary: String,
    text: String,
}

fn mark_names(
    alloc: Global,
    stanza: &str,
    segment: &Segment,
    bytes: &[u8],
) -> Result<MarkNames, NoMemory>
    ensures { IfOk result (AreMarkNamesOf stanza.now segment.now bytes.now) }
{
    let digits = segment_text(alloc, segment)?;
    let sum = Sum::of(bytes).hex(alloc)?;
    Ok(MarkNames {
        name: format!(in alloc; "archive/{stanza}/out/{digits}.ok")?,
        temporary: format!(in alloc; "archive/{stanza}/out/.pgbackrest.tmp")?,
        text: format!(in alloc; "{sum}\n")?,
    })
}

fn spool_stop(fault: StoreFault) -> TurnError
    ensures { result ≡ spool_stop_of fault }
{
    match fault {
        StoreFault::Disk => TurnError::Spool,
        StoreFault::TooLong { .. } | StoreFault::NoMemory => TurnError::NoMemory,
    }
}

// Marks in the spool that the segment is stored.
fn mark<S: Disk>(
    alloc: Global,
    spool: &mut S,
    stanza: &str,
    segment: &Segment,
    bytes: &[u8],
) -> Result<(), TurnError>
    ensures crash { MayPutReceipt stanza.now segment.now bytes.now (S.state spool.old) (S.state spool.new) }
    ensures unknown { (S.state spool.old).view.now ≡ None → (S.state spool.new).view.now ≡ None }
    ensures known { IsSome (S.state spool.old).view.now → IsSome (S.state spool.new).view.now }
    ensures whole { OnOk result
        (PutsReceipt stanza.now segment.now bytes.now (S.state spool.old) (S.state spool.new)) }
    ensures only { ChangesArchive stanza.now (S.state spool.old).view (S.state spool.new).view }
    ensures frame { CallsProperly (S.state spool.old) (S.state spool.new) }
    ensures cause { IfErr result (IsSpoolFault (Rises (S.state spool.old).faults (S.state spool.new).faults)) }
{
    let Ok(names) = mark_names(alloc, stanza, segment, bytes) else {
        return Err(TurnError::NoMemory);
    };
    let MarkNames {
        name,
        temporary,
        text,
    } = names;
    match replace(
        alloc,
        spool,
        temporary.as_str(),
        name.as_str(),
        text.as_bytes(),
    ) {
        Ok(()) => Ok(()),
        Err(fault) => Err(spool_stop(fault)),
    }
}

// Ends a step with this result: where the segment is stored, it is marked.
pub(crate) fn end_turn<S: Disk>(
    alloc: Global,
    spool: &mut S,
    stanza: &str,
    segment: Segment,
    bytes: &[u8],
    went: PushResult,
) -> Result<(), TurnError>
    ensures may_end { MayEnd went (is_ok result) }
    ensures receipts { GivesMark stanza.now segment bytes.now went (S.state spool.old) (S.state spool.new) }
    ensures marks { OnOk result
        (LeavesMark stanza.now segment bytes.now went (S.state spool.old) (S.state spool.new)) }
    ensures fits { IsSegment segment }
    ensures known { IsSome (S.state spool.old).view.now → IsSome (S.state spool.new).view.now }
    ensures only { ChangesArchive stanza.now (S.state spool.old).view (S.state spool.new).view }
    ensures frame { CallsProperly (S.state spool.old) (S.state spool.new) }
    ensures cause { IfErr result (StopsBy went (Rises (S.state spool.old).faults (S.state spool.new).faults)) }
{
    match went {
        PushResult::Nothing => Ok(()),
        PushResult::Stored => mark(alloc, spool, stanza, &segment, bytes),
        PushResult::Tried(error) => Err(error),
        PushResult::Refused(error) => Err(error),
    }
}

impl PushResult {
    pub(crate) fn was_tried(self) -> bool
        ensures { result ≡ was_tried self }
    {
        match self {
            PushResult::Nothing | PushResult::Refused(_) => false,
            PushResult::Stored | PushResult::Tried(_) => true,
        }
    }
}
