// Stores a file of the log in the archive.
ghost use Rattle.std.specs.Prelude.{◌≡◌, ◌⊎◌, ◌≤◌, Some, IfOk, IfErr, IfSome, OnOk, length};
ghost use Rattle.base_devices.specs.States.{CallsProperly, OnlyReads, MakesDurable};
ghost use Rattle.repo_names.specs.Header.{BeginsWith};
ghost use Rattle.archive_lookup.specs.Causes.{IsFileOf, OnFinding, Rejects};
ghost use Rattle.archive_lookup.specs.OnlyReads.{AreNamesOf, Shows};
ghost use Rattle.archive_store.specs.Pushes.{IsPathOf, HasPushed, KeepsIfSame, LacksFile, Pushes, WritesIfNew};
ghost use Rattle.archive_store.specs.Pushing.{OnPushFinding, AreOfSystem, HasPlaces, AreNotOfSystem, ReadsToSum, Declines, AnswersPush, OtherFails, PushFromFails};
ghost use Rattle.archive_store.specs.Still.{IsStill};

use crate::fault::{PushFault, source_fault};
use crate::pieces::{ByteSource, Held, Prefix};
use crate::staging::put_new;
use crate::stream_sum::{PIECE_SIZE, sum_of};
use archive_lookup::{ArchiveFault, FileNames, Look, StoredFile, file_names, has_sum, look_synced};
use base_devices::Disk;
use base_model::{ArchiveId, ArchiveName};
use base_text::Sum;
use repo_names::check_prefix;
use std::alloc::Global;

/// How a segment came to be stored.
#[derive(Clone, Copy, Debug, PartialEq, Eq)]
pub enum Pushed {
    /// It was stored.
    New,
    /// It was stored already, with the same sum.
    Same,
}

// A segment has the header of one; other files have none.
fn check_bytes(name: &ArchiveName, system: u64, prefix: Prefix<'_>) -> Result<(), ArchiveFault>
    requires long { (40 ≤ length prefix.bytes.now) ⊎ (length prefix.bytes.now ≡ prefix.length) }
    requires within { length prefix.bytes.now ≤ prefix.length }
    ensures right { OnOk result (AreOfSystem name.now system prefix.entry.bytes.now prefix.entry.length) }
    ensures wrong { IfErr result (AreNotOfSystem name.now system prefix.entry) }
{
    if !has_sum(name) {
        return Ok(());
    }
    check_prefix(prefix.bytes, prefix.length, system)?;
    Ok(())
}

// Looks for the file, once its first bytes are found to be those of such a file.
fn look_checked<D: Disk>(
    alloc: Global,
    d: &mut D,
    stanza: &str,
    id: ArchiveId,
    name: &ArchiveName,
    system: u64,
    prefix: Prefix<'_>,
) -> Result<(FileNames, Look), ArchiveFault>
    requires long { (40 ≤ length prefix.bytes.now) ⊎ (length prefix.bytes.now ≡ prefix.length) }
    requires within { length prefix.bytes.now ≤ prefix.length }
    ensures names { IfOk result (λ x. AreNamesOf stanza.now id name.now x.0) }
    ensures shows { IfOk result (λ x. IfSome (D.state d.old).view.now (λ f. Shows stanza.now id name.now f x.1)) }
    ensures settled { OnOk result (MakesDurable (IsPathOf stanza.now id name.now) (D.state d.old) (D.state d.new)) }
    ensures places { OnOk result (HasPlaces id name.now) }
    ensures right { OnOk result (AreOfSystem name.now system prefix.entry.bytes.now prefix.entry.length) }
    ensures cause { IfErr result
        (Declines stanza.now id name.now system prefix.entry (D.state d.old) (D.state d.new)) }
    ensures looks { OnlyReads (D.state d.old) (D.state d.new) }
{
    check_bytes(name, system, prefix)?;
    let names = file_names(alloc, stanza, id, *name)?;
    let look = look_synced(alloc, d, &names)?;
    Ok((names, look))
}

// Whether the bytes have the sum of the stored file.
fn compare<H, P: ByteSource<H>>(
    device: &mut H,
    kept: &StoredFile,
    pieces: &P,
    prefix: Prefix<'_>,
) -> Result<(), PushFault>
    requires known { IfSome (P.bytes pieces.now device.old) (BeginsWith prefix.bytes.now prefix.length) }
    requires within { length prefix.bytes.now ≤ prefix.length }
    ensures same_sum { OnOk result (ReadsToSum (P.bytes pieces.now device.old) prefix.entry kept.now.sum.0) }
    ensures cause { IfErr result (OtherFails (P.bytes pieces.now device.old) prefix.entry kept.now
        (P.faults device.old) (P.faults device.new)) }
    ensures same { P.same device.old device.new }
    ensures holder_later { P.faults device.old ≤ P.faults device.new }
{
    match sum_of(device, pieces, prefix) {
        Ok(found) => {
            if kept.sum == found {
                return Ok(());
            }
            Err(PushFault::Archive(ArchiveFault::Duplicate {
                kept: kept.sum,
                found,
            }))
        }
        Err(error) => Err(source_fault(error)),
    }
}

/// Stores a file of the cluster with this system identifier, whose bytes are read in pieces after the first ones. A
/// whole or partial segment, whose header is checked, is stored under the sum of its bytes, and a history or backup
/// history file as it is. Where the bytes are unknown, each answer is that of some bytes that begin with the first ones
/// and are as many. The names of the file's folder are synced before they are looked at, and no others. It returns the
/// sum of the bytes.
pub fn push_from<D: Disk, H, P: ByteSource<H>>(
    alloc: Global,
    d: &mut D,
    device: &mut H,
    stanza: &str,
    id: &ArchiveId,
    name: &ArchiveName,
    system: u64,
    pieces: &P,
    prefix: Prefix<'_>,
) -> Result<(Pushed, Sum), PushFault>
    requires known { IfSome (P.bytes pieces.now device.old) (BeginsWith prefix.bytes.now prefix.length) }
    requires long { (40 ≤ length prefix.bytes.now) ⊎ (length prefix.bytes.now ≡ prefix.length) }
    requires within { length prefix.bytes.now ≤ prefix.length }

    // After every answer the disk, and all that a crash leaves of it at each moment, is as before or has the file more.
    ensures leaves { Pushes stanza.now id.now name.now (P.bytes pieces.now device.old)
        (D.state d.old) (D.state d.new) }
    // At Ok it has the file, and all that a crash leaves is alike at the file's paths.
    ensures file { OnOk result (HasPushed stanza.now id.now name.now (P.bytes pieces.now device.old)
        (D.state d.old) (D.state d.new)) }

    // Each answer has its cause, and what was found changes nothing.
    ensures answered { IfOk result (λ x. AnswersPush stanza.now id.now name.now system
        (P.bytes pieces.now device.old) prefix.entry (D.state d.old) (D.state d.new) x.0 x.1) }
    ensures refused { IfErr result (λ e. OnPushFinding e (IsStill (D.state d.old).view (D.state d.new).view)) }
    ensures cause { IfErr result (PushFromFails stanza.now id.now name.now system (P.bytes pieces.now device.old)
        prefix.entry (D.state d.old) (D.state d.new) (P.faults device.old) (P.faults device.new)) }
    ensures frame { CallsProperly (D.state d.old) (D.state d.new) }
    ensures same { P.same device.old device.new }
    ensures holder_later { P.faults device.old ≤ P.faults device.new }
{
    let (names, look) = look_checked(alloc, d, stanza, *id, name, system, prefix)?;
    match look {
        Look::Free => {
            let sum = put_new(alloc, d, device, &names, pieces, prefix)?;
            Ok((Pushed::New, sum))
        }
        Look::One(kept) => {
            compare(device, &kept, pieces, prefix)?;
            Ok((Pushed::Same, kept.sum))
        }
        Look::Two(first, second) => {
            Err(PushFault::Archive(ArchiveFault::Ambiguous { first, second }))
        }
    }
}

// The first bytes, at most a piece of them.
fn prefix_of(bytes: &[u8]) -> Prefix<'_>
    ensures begins { BeginsWith result.bytes.now result.length bytes.now }
    ensures long { (40 ≤ length result.bytes.now) ⊎ (length result.bytes.now ≡ result.length) }
    ensures within { length result.bytes.now ≤ result.length }
{
    let count = bytes.len().min(PIECE_SIZE);
    Prefix {
        bytes: &bytes[..count],
        length: bytes.len() as u64,
    }
}

/// Stores a file of the cluster with this system identifier: a whole or partial segment, whose header is checked, under
/// the sum of its bytes; a history or backup history file as it is.
pub fn push<D: Disk>(
    alloc: Global,
    d: &mut D,
    stanza: &str,
    id: &ArchiveId,
    name: &ArchiveName,
    system: u64,
    bytes: &[u8],
) -> Result<Pushed, ArchiveFault>
    // After every answer the disk, and all that a crash leaves of it at each moment, is as before or has the file more.
    ensures leaves { Pushes stanza.now id.now name.now (Some bytes.now) (D.state d.old) (D.state d.new) }
    // At Ok it has the file, and all that a crash leaves is alike at the file's paths.
    ensures file { OnOk result
        (HasPushed stanza.now id.now name.now (Some bytes.now) (D.state d.old) (D.state d.new)) }
    ensures written { IfOk result
        (WritesIfNew stanza.now id.now name.now bytes.now (D.state d.old) (D.state d.new)) }

    // Each answer has its cause, and what was found changes nothing.
    ensures of_system { OnOk result (IsFileOf name.now bytes.now system) }
    ensures new { IfOk result (λ p. p ≡ Pushed.New → LacksFile stanza.now id.now name.now (D.state d.old)) }
    ensures same { IfOk result
        (KeepsIfSame stanza.now id.now name.now bytes.now (D.state d.old) (D.state d.new)) }
    ensures refused { IfErr result (λ e. OnFinding e (IsStill (D.state d.old).view (D.state d.new).view)) }
    ensures cause { IfErr result
        (Rejects stanza.now id.now name.now system bytes.now (D.state d.old) (D.state d.new)) }
    ensures frame { CallsProperly (D.state d.old) (D.state d.new) }
{
    let prefix = prefix_of(bytes);
    match push_from(
        alloc,
        d,
        &mut (),
        stanza,
        id,
        name,
        system,
        &Held(bytes),
        prefix,
    ) {
        Ok((pushed, _)) => Ok(pushed),
        Err(PushFault::Archive(fault)) => Err(fault),
        // Bytes that are held are always read.
        Err(PushFault::Source) => unreachable!(),
    }
}
