// A file is put into the data folder.
ghost use Rattle.std.specs.Prelude.{◌≡◌, ◌≤◌, ◌↔◌, true, OnOk, IfOk, IfErr, IfSome, string_bytes};
ghost use Rattle.base_devices.specs.States.{OnlyReads};
ghost use Rattle.base_devices.specs.Content.{SameBut};
ghost use Rattle.base_devices.specs.Moments.{LeavesNoMore};
ghost use Rattle.base_devices.specs.Cause.{HasCause};
ghost use Rattle.cmd_archive_get.specs.Getting.{IsPut, ChangesPath, temporary_path};
ghost use Rattle.cmd_archive_get.specs.Serving.{refusal};
ghost use Rattle.cmd_archive_get.specs.ByOrder.{FolderEnds, CopiesFrom, CopyEnds, PassesOn, SetsStored, PassStops};

use crate::fault::GetFault;
use base_devices::{DataFolder, DeviceError, Disk};
use base_text::Sum;
use cmd_types::{Halt, Object, halted};
use sha1::Sha1;
use std::alloc::{AllocError, Global};

// This many bytes of a stored file are read at once.
const PIECE_SIZE: usize = 1 << 16;

// A segment has at most 1 GiB.
const SEGMENT_LIMIT: u64 = 1 << 30;

// The result of a copy of a stored file.
#[derive(Drop)]
enum Copied {
    /// All its bytes were copied; this is the sum of what was copied.
    Whole(Sum),
    /// It is longer than a segment.
    Long,
    /// It isn't there.
    Vanished,
}

/// The result of a pass over a stored file.
#[derive(Drop)]
pub enum Passed {
    Served,
    /// The stored file isn't there.
    Lost,
    /// Something is at the temporary name.
    Barred,
}

fn temporary_name(alloc: Global, path: &str) -> Result<String, AllocError>
    ensures { IfOk result (λ name. string_bytes name ≡ temporary_path path.now) }
{
    format!(in alloc; "{path}.pgbackrest.tmp")
}

// Writes a file under a temporary name, and then puts it in its place.
fn write_and_rename<T: DataFolder>(
    tree: &mut T,
    temporary: &str,
    path: &str,
    bytes: &[u8],
) -> Result<(), DeviceError>
    requires { temporary.now ≡ temporary_path path.now }
    ensures holds { OnOk result (IfSome (T.state tree.new).nodes (IsPut path.now bytes.now)) }
    ensures changes { ChangesPath path.now
        (λ b. b ≡ bytes.now) (T.state tree.old).nodes (T.state tree.new).nodes }
    ensures place { (T.state tree.new).opened ≡ (T.state tree.old).opened }
    ensures cause { HasCause (T.state tree.old).faults (T.state tree.new).faults result }
{
    tree.begin(temporary)?;
    tree.append(temporary, bytes)?;
    tree.rename(temporary, path)?;
    Ok(())
}

// Removes a file that can't be used. Where that fails too, the first failure is reported.
fn give_up<T: DataFolder>(tree: &mut T, temporary: &str, halt: Halt<GetFault>) -> Halt<GetFault>
    ensures known { result ≡ halt }
    ensures nodes { SameBut temporary.now (T.state tree.old).nodes (T.state tree.new).nodes }
    ensures place { (T.state tree.new).opened ≡ (T.state tree.old).opened }
    ensures later { (T.state tree.old).faults ≤ (T.state tree.new).faults }
{
    let _left = tree.remove(temporary);
    halt
}

/// Puts a file of these bytes at a path of the data folder. Where that fails, the temporary file is removed, if it
/// can be.
pub fn put_file<T: DataFolder>(
    alloc: Global,
    tree: &mut T,
    path: &str,
    bytes: &[u8],
) -> Result<(), Halt<GetFault>>
    ensures holds { OnOk result (IfSome (T.state tree.new).nodes (IsPut path.now bytes.now)) }
    ensures changes { ChangesPath path.now
        (λ b. b ≡ bytes.now) (T.state tree.old).nodes (T.state tree.new).nodes }
    ensures place { (T.state tree.new).opened ≡ (T.state tree.old).opened }
    ensures later { (T.state tree.old).faults ≤ (T.state tree.new).faults }
    ensures cause { IfErr result (FolderEnds (T.state tree.old) (T.state tree.new)) }
{
    let temporary = temporary_name(alloc, path)?;
    match write_and_rename(tree, &temporary, path, bytes) {
        Ok(()) => Ok(()),
        Err(error) => Err(give_up(tree, &temporary, halted(Object::TheDataFolder, error))),
    }
}

// Copies a stored file to a name of the data folder, piece by piece, and sums what it copies. Where something is at the
// name, nothing is done.
fn copy_new<D: Disk, T: DataFolder>(
    repo: &mut D,
    tree: &mut T,
    from: &str,
    name: &str,
) -> Result<Option<Copied>, Halt<GetFault>>
    ensures copies { CopiesFrom result (D.state repo.old) from.now name.now (T.state tree.old) (T.state tree.new) }
    ensures cause { IfErr result (CopyEnds D.state T.state repo.old repo.new tree.old tree.new) }
    ensures looks { OnlyReads (D.state repo.old) (D.state repo.new) }
    ensures tree_place { (T.state tree.new).opened ≡ (T.state tree.old).opened }
    ensures tree_later { (T.state tree.old).faults ≤ (T.state tree.new).faults }
{
    match tree.begin_new(name) {
        Ok(true) => {}
        Ok(false) => return Ok(None),
        Err(error) => return Err(halted(Object::TheDataFolder, error)),
    }
    let mut room = [0u8; PIECE_SIZE];
    let mut digest = Sha1::new();
    let mut known = 0u64;
    while known <= SEGMENT_LIMIT {
        let count = match repo.read(from, known, &mut room) {
            Ok(Some(count)) => count,
            Ok(None) => return Ok(Some(Copied::Vanished)),
            Err(error) => return Err(halted(Object::Repo, error)),
        };
        if count == 0 {
            return Ok(Some(Copied::Whole(Sum(digest.finalize()))));
        }
        if let Err(error) = tree.append(name, &room[..count]) {
            return Err(halted(Object::TheDataFolder, error));
        }
        digest.update(&room[..count]);
        known += count as u64;
    }
    Ok(Some(Copied::Long))
}

// Whether all of a file was copied, and has this sum.
fn is_right(copied: &Copied, sum: &Sum) -> bool
    ensures { result ≡ true ↔ copied.now ≡ Copied.Whole sum.now }
{
    match copied {
        Copied::Whole(found) => found == sum,
        Copied::Long | Copied::Vanished => false,
    }
}

// What is reported about a copy that isn't right.
fn refusal(copied: Copied, from: String, sum: Sum) -> Result<Passed, Halt<GetFault>>
    ensures { result ≡ refusal copied from sum }
{
    match copied {
        Copied::Whole(found) => Err(Halt::Refused(GetFault::SegmentDamaged { known: sum, found })),
        Copied::Long => Err(Halt::Refused(GetFault::TooLong {
            name: from,
            limit: SEGMENT_LIMIT,
        })),
        Copied::Vanished => Ok(Passed::Lost),
    }
}

/// Puts a stored file of this sum at a path of the data folder, in one pass: it is copied to the temporary name, where
/// nothing is, and has its place once its sum is known. Any other copy is removed; where a device failed, if
/// that can be done.
pub fn pass_on<D: Disk, T: DataFolder>(
    alloc: Global,
    repo: &mut D,
    tree: &mut T,
    from: String,
    sum: Sum,
    path: &str,
) -> Result<Passed, Halt<GetFault>>
    ensures passes { PassesOn D.state T.state result (string_bytes from) sum.0 path.now repo.old tree.old tree.new }
    ensures changes { SetsStored D.state T.state (string_bytes from) sum.0 path.now repo.old tree.old tree.new }
    ensures cause { PassStops D.state T.state (string_bytes from) sum.0 result repo.old repo.new tree.old tree.new }
    ensures looks { OnlyReads (D.state repo.old) (D.state repo.new) }
    ensures tree_place { (T.state tree.new).opened ≡ (T.state tree.old).opened }
    ensures tree_later { (T.state tree.old).faults ≤ (T.state tree.new).faults }
{
    let temporary = temporary_name(alloc, path)?;
    let name = temporary.as_str();
    let copied = match copy_new(repo, tree, from.as_str(), name) {
        Ok(Some(copied)) => copied,
        Ok(None) => return Ok(Passed::Barred),
        Err(halt) => return Err(give_up(tree, name, halt)),
    };
    if is_right(&copied, &sum) {
        if let Err(error) = tree.rename(name, path) {
            return Err(give_up(tree, name, halted(Object::TheDataFolder, error)));
        }
        return Ok(Passed::Served);
    }
    match tree.remove(name) {
        Ok(()) => refusal(copied, from, sum),
        Err(error) => Err(halted(Object::TheDataFolder, error)),
    }
}
