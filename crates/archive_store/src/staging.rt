// Puts the bytes of a file at its path.
ghost use Rattle.std.specs.Prelude.{◌≡◌, ◌≤◌, false, IfOk, IfErr, IfSome, OnOk, length, string_bytes};
ghost use Rattle.sha1.specs.Sha1.{sha1};
ghost use Rattle.base_devices.specs.States.{CallsProperly, Works};
ghost use Rattle.base_devices.specs.Content.{SameBut, IsThere};
ghost use Rattle.base_devices.specs.Moments.{is_unsynced};
ghost use Rattle.base_devices.specs.Crash.{IsTemporary};
ghost use Rattle.base_disk.specs.Staged.{staged_name, staging_name, staging_length, HoldsStaging};
ghost use Rattle.base_model.specs.Text.{Text};
ghost use Rattle.repo_names.specs.Header.{BeginsWith};
ghost use Rattle.archive_lookup.specs.OnlyReads.{path_with};
ghost use Rattle.archive_store.specs.Pushing.{ChangesOnePath, HoldsAt, NotPut, Saves, ShareFolders, StagesAs, StagesFile, WorksAt};

use crate::fault::{PushFault, source_fault};
use crate::pieces::{ByteSource, Prefix};
use crate::stream_sum::{PIECE_SIZE, next_piece};
use archive_lookup::{ArchiveFault, FileNames};
use base_devices::Disk;
use base_disk::{Staged, Staging, add_stage, end_stage, publish, start_stage};
use base_text::Sum;
use sha1::Sha1;
use std::alloc::Global;

// Adds the bytes after the first ones, piece by piece, to what is staged, and returns the sum of all. They are summed
// as they are read, so that a byte that changes on its way to the disk shows in the name that the file gets.
fn add_rest<D: Disk, H, P: ByteSource<H>>(
    d: &mut D,
    device: &mut H,
    staging: &mut Staging,
    pieces: &P,
    prefix: Prefix<'_>,
) -> Result<Sum, PushFault>
    requires known { IfSome (P.bytes pieces.now device.old) (BeginsWith prefix.bytes.now prefix.length) }
    requires within { length prefix.bytes.now ≤ prefix.length }
    requires length { staging_length staging.old ≡ length prefix.bytes.now }
    requires holds { HoldsStaging staging.old (D.state d.old) }
    requires begun { HoldsAt (staging_name staging.old) prefix.bytes.now (D.state d.old) }
    ensures name { staging_name staging.new ≡ staging_name staging.old }
    ensures holds { OnOk result (HoldsStaging staging.new (D.state d.new)) }
    ensures staged { IfOk result (StagesAs (P.bytes pieces.now device.old) prefix.entry
        (staging_name staging.old) (D.state d.old) (D.state d.new)) }
    ensures others { SameBut (staging_name staging.old) (D.state d.old).view.now (D.state d.new).view.now }
    ensures works { Works (λ _ _. ⊥) (λ n. n ≡ staging_name staging.old) (D.state d.old) (D.state d.new) }
    ensures same { P.same device.old device.new }
    ensures holder_later { P.faults device.old ≤ P.faults device.new }
    ensures cause { IfErr result
        (NotPut (D.state d.old) (D.state d.new) (P.faults device.old) (P.faults device.new)) }
{
    let mut piece = [0u8; PIECE_SIZE];
    let mut digest = Sha1::new();
    digest.update(prefix.bytes);
    while staging.length() <= prefix.length {
        let size = match next_piece(device, pieces, staging.length(), &mut piece) {
            Ok(size) => size,
            Err(error) => return Err(source_fault(error)),
        };
        if size == 0 {
            return if staging.length() == prefix.length {
                Ok(Sum(digest.finalize()))
            } else {
                Err(PushFault::Archive(ArchiveFault::NoMemory))
            };
        }
        digest.update(&piece[..size]);
        add_stage(d, staging, &piece[..size])?;
    }
    // Only a source whose bytes are unknown can have others than this many. This is reported as out of memory.
    Err(PushFault::Archive(ArchiveFault::NoMemory))
}

// Puts the bytes at a temporary name, and returns their sum.
fn stage_from<D: Disk, H, P: ByteSource<H>>(
    alloc: Global,
    d: &mut D,
    device: &mut H,
    temp: &str,
    pieces: &P,
    prefix: Prefix<'_>,
) -> Result<(Staging, Sum), PushFault>
    requires known { IfSome (P.bytes pieces.now device.old) (BeginsWith prefix.bytes.now prefix.length) }
    requires within { length prefix.bytes.now ≤ prefix.length }
    ensures name { IfOk result (λ x. staging_name x.0 ≡ temp.now) }
    ensures holds { IfOk result (λ x. HoldsStaging x.0 (D.state d.new)) }
    ensures staged { IfOk result (λ x. StagesAs (P.bytes pieces.now device.old) prefix.entry temp.now
        (D.state d.old) (D.state d.new) x.1) }
    ensures others { SameBut temp.now (D.state d.old).view.now (D.state d.new).view.now }
    ensures works { Works (λ _ _. ⊥) (λ n. n ≡ temp.now) (D.state d.old) (D.state d.new) }
    ensures same { P.same device.old device.new }
    ensures holder_later { P.faults device.old ≤ P.faults device.new }
    ensures cause { IfErr result
        (NotPut (D.state d.old) (D.state d.new) (P.faults device.old) (P.faults device.new)) }
{
    let mut staging = start_stage(alloc, d, temp)?;
    add_stage(d, &mut staging, prefix.bytes)?;
    let sum = add_rest(d, device, &mut staging, pieces, prefix)?;
    Ok((staging, sum))
}

// Stages the bytes under a temporary name, synced, and returns their sum.
fn stage_summed<D: Disk, H, P: ByteSource<H>>(
    alloc: Global,
    d: &mut D,
    device: &mut H,
    temp: &str,
    pieces: &P,
    prefix: Prefix<'_>,
) -> Result<(Staged, Sum), PushFault>
    requires known { IfSome (P.bytes pieces.now device.old) (BeginsWith prefix.bytes.now prefix.length) }
    requires within { length prefix.bytes.now ≤ prefix.length }
    ensures name { IfOk result (λ x. staged_name x.0 ≡ temp.now) }
    ensures staged { IfOk result (λ x. StagesAs (P.bytes pieces.now device.old) prefix.entry temp.now
        (D.state d.old) (D.state d.new) x.1) }
    ensures others { SameBut temp.now (D.state d.old).view.now (D.state d.new).view.now }
    ensures synced { OnOk result (is_unsynced (D.state d.new).view temp.now ≡ false) }
    ensures there { OnOk result (IsThere (D.state d.new).view.now temp.now) }
    ensures works { WorksAt temp.now (D.state d.old) (D.state d.new) }
    ensures same { P.same device.old device.new }
    ensures holder_later { P.faults device.old ≤ P.faults device.new }
    ensures cause { IfErr result
        (NotPut (D.state d.old) (D.state d.new) (P.faults device.old) (P.faults device.new)) }
{
    let (staging, sum) = stage_from(alloc, d, device, temp, pieces, prefix)?;
    let staged = end_stage(d, staging)?;
    Ok((staged, sum))
}

// Stages the bytes, and returns their sum and the path that it gives.
fn stage_file<D: Disk, H, P: ByteSource<H>>(
    alloc: Global,
    d: &mut D,
    device: &mut H,
    names: &FileNames,
    pieces: &P,
    prefix: Prefix<'_>,
) -> Result<(Staged, Sum, String), PushFault>
    requires known { IfSome (P.bytes pieces.now device.old) (BeginsWith prefix.bytes.now prefix.length) }
    requires within { length prefix.bytes.now ≤ prefix.length }
    ensures name { IfOk result (λ x. staged_name x.0 ≡ string_bytes names.now.temporary) }
    ensures staged { IfOk result (λ x. StagesFile (P.bytes pieces.now device.old) prefix.entry names.now
        (D.state d.old) (D.state d.new) x.1 (string_bytes x.2)) }
    ensures others { SameBut (string_bytes names.now.temporary) (D.state d.old).view.now (D.state d.new).view.now }
    ensures synced { OnOk result (is_unsynced (D.state d.new).view (string_bytes names.now.temporary) ≡ false) }
    ensures there { OnOk result (IsThere (D.state d.new).view.now (string_bytes names.now.temporary)) }
    ensures works { WorksAt (string_bytes names.now.temporary) (D.state d.old) (D.state d.new) }
    ensures same { P.same device.old device.new }
    ensures holder_later { P.faults device.old ≤ P.faults device.new }
    ensures cause { IfErr result
        (NotPut (D.state d.old) (D.state d.new) (P.faults device.old) (P.faults device.new)) }
{
    let (staged, sum) = stage_summed(alloc, d, device, names.temporary.as_str(), pieces, prefix)?;
    let path = names.with_sum(alloc, &sum)?;
    Ok((staged, sum, path))
}

/// Puts the bytes at the file's path with their sum, and returns the sum.
pub(crate) fn put_new<D: Disk, H, P: ByteSource<H>>(
    alloc: Global,
    d: &mut D,
    device: &mut H,
    names: &FileNames,
    pieces: &P,
    prefix: Prefix<'_>,
) -> Result<Sum, PushFault>
    requires known { IfSome (P.bytes pieces.now device.old) (BeginsWith prefix.bytes.now prefix.length) }
    requires within { length prefix.bytes.now ≤ prefix.length }
    requires folder { ShareFolders names.now }
    requires temporary { IsTemporary (string_bytes names.now.temporary) }
    requires lasting { (bytes : Text) → ¬ IsTemporary (path_with names.now (sha1 bytes)) }

    // The bytes are those that were read, and the path has their sum.
    ensures left { Saves result (P.bytes pieces.now device.old) prefix.entry names.now
        (D.state d.old) (D.state d.new) }
    ensures only { ChangesOnePath names.now (D.state d.old) (D.state d.new) }
    ensures frame { CallsProperly (D.state d.old) (D.state d.new) }
    ensures same { P.same device.old device.new }
    ensures holder_later { P.faults device.old ≤ P.faults device.new }
    ensures cause { IfErr result
        (NotPut (D.state d.old) (D.state d.new) (P.faults device.old) (P.faults device.new)) }
{
    let (staged, sum, path) = stage_file(alloc, d, device, names, pieces, prefix)?;
    publish(d, staged, path.as_str())?;
    Ok(sum)
}
