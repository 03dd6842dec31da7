// Takes a fetched segment from the spool.
ghost use Rattle.std.specs.Prelude.{◌≡◌, ◌≤◌, [], IfErr, OnOk, IsTrue, string_bytes};
ghost use Rattle.base_devices.specs.States.{CallsProperly, OnlyReads};
ghost use Rattle.base_crash_lists.specs.Beside.{StaysBeside};
ghost use Rattle.archive_spool.specs.Marks.{GivesMarks};
ghost use Rattle.cmd_archive_get_async.specs.Names.{ChangesAhead};
ghost use Rattle.cmd_archive_get_async.specs.Between.{SpoolEnds, ClearsAhead, ChangesSegment, TakeEnds, TakesFrom, Draws, SetsAhead};
ghost use Rattle.cmd_archive_get.specs.ByOrder.{SetsStored};

use crate::ahead::fault::of_spool;
use crate::ahead::names::{ahead_folder, ahead_name, ahead_prefix};
use crate::ahead::prefix_removal::remove_prefix;
use crate::ahead::spool_copy::SEGMENT_LIMIT;
use base_devices::{DataFolder, Disk};
use base_disk::{StoreFault, read_whole};
use base_model::Segment;
use base_text::Sum;
use cmd_archive_get::{GetFault, Passed, pass_on, put_file};
use cmd_types::{Halt, Object};
use std::alloc::Global;

// Puts the bytes at a name of the spool at a path of the data folder, where they have this sum. They are read whole.
fn pass_whole<S: Disk, T: DataFolder>(
    alloc: Global,
    spool: &mut S,
    tree: &mut T,
    name: &str,
    sum: &Sum,
    path: &str,
) -> Result<bool, Halt<GetFault>>
    ensures takes { TakesFrom S.state T.state result name.now sum.now.0 path.now spool.old tree.old tree.new }
    ensures changes { SetsStored S.state T.state name.now sum.now.0 path.now spool.old tree.old tree.new }
    ensures looks { OnlyReads (S.state spool.old) (S.state spool.new) }
    ensures tree_place { (T.state tree.new).opened ≡ (T.state tree.old).opened }
    ensures tree_later { (T.state tree.old).faults ≤ (T.state tree.new).faults }
    ensures cause { IfErr result (TakeEnds S.state T.state spool.old spool.new tree.old tree.new) }
{
    let bytes = match read_whole(alloc, spool, name, SEGMENT_LIMIT) {
        Ok(Some(bytes)) => bytes,
        Ok(None) | Err(StoreFault::TooLong { .. }) => return Ok(false),
        Err(fault) => return Err(of_spool(fault)),
    };
    if Sum::of(&bytes) != *sum {
        return Ok(false);
    }
    match put_file(alloc, tree, path, &bytes) {
        Ok(()) => Ok(true),
        Err(halt) => Err(halt),
    }
}

// Puts the bytes at a name of the spool at a path of the data folder, where they have this sum.
fn pass_ahead<S: Disk, T: DataFolder>(
    alloc: Global,
    spool: &mut S,
    tree: &mut T,
    name: &str,
    sum: &Sum,
    path: &str,
) -> Result<bool, Halt<GetFault>>
    ensures takes { TakesFrom S.state T.state result name.now sum.now.0 path.now spool.old tree.old tree.new }
    ensures changes { SetsStored S.state T.state name.now sum.now.0 path.now spool.old tree.old tree.new }
    ensures looks { OnlyReads (S.state spool.old) (S.state spool.new) }
    ensures tree_place { (T.state tree.new).opened ≡ (T.state tree.old).opened }
    ensures tree_later { (T.state tree.old).faults ≤ (T.state tree.new).faults }
    ensures cause { IfErr result (TakeEnds S.state T.state spool.old spool.new tree.old tree.new) }
{
    let from = match String::from_str(alloc, name) {
        Ok(from) => from,
        Err(_) => return Err(Halt::NoMemory),
    };
    match pass_on(alloc, spool, tree, from, *sum, path) {
        Ok(Passed::Served) => Ok(true),
        // Something was at the temporary name of the path.
        Ok(Passed::Barred) => pass_whole(alloc, spool, tree, name, sum, path),
        Ok(Passed::Lost) | Err(Halt::Refused(_)) => Ok(false),
        // To that call the spool is the repository.
        Err(Halt::Failed(Object::Repo)) => Err(Halt::Failed(Object::Spool)),
        Err(halt) => Err(halt),
    }
}

// Removes each fetched file of the segment.
fn clear<S: Disk>(
    alloc: Global,
    spool: &mut S,
    stanza: &str,
    segment: &Segment,
) -> Result<(), Halt<GetFault>>
    ensures gone { OnOk result (ClearsAhead stanza.now segment.now (S.state spool.old) (S.state spool.new)) }
    ensures only { ChangesSegment stanza.now segment.now (S.state spool.old) (S.state spool.new) }
    ensures frame { CallsProperly (S.state spool.old) (S.state spool.new) }
    ensures cause { IfErr result (SpoolEnds (S.state spool.old) (S.state spool.new)) }
{
    let Ok(folder) = ahead_folder(alloc, stanza) else {
        return Err(Halt::NoMemory);
    };
    let Ok(prefix) = ahead_prefix(alloc, stanza, segment) else {
        return Err(Halt::NoMemory);
    };
    match remove_prefix(alloc, spool, folder.as_str(), prefix.as_str()) {
        Ok(()) => Ok(()),
        Err(fault) => Err(of_spool(fault)),
    }
}

/// Puts a fetched segment at a path of the data folder where the spool has it with this sum, and returns whether it
/// has. Its names in the spool are removed.
pub fn take_ahead<S: Disk, T: DataFolder>(
    alloc: Global,
    spool: &mut S,
    tree: &mut T,
    stanza: &str,
    segment: &Segment,
    sum: &Sum,
    path: &str,
) -> Result<bool, Halt<GetFault>>
    // The bytes have the sum, by their digest; at false the spool has none that do.
    ensures takes { Draws S.state T.state stanza.now segment.now sum.now.0 path.now result spool.old tree.old tree.new }
    ensures changes { SetsAhead S.state T.state stanza.now segment.now sum.now.0 path.now spool.old tree.old tree.new }
    ensures gone { OnOk result (ClearsAhead stanza.now segment.now (S.state spool.old) (S.state spool.new)) }
    // Nothing of the spool changes but the names of the segment, and no receipt is given.
    ensures only { ChangesSegment stanza.now segment.now (S.state spool.old) (S.state spool.new) }
    ensures marks { GivesMarks stanza.now [] (S.state spool.old).view (S.state spool.new).view }
    ensures beside { StaysBeside stanza.now (S.state spool.old).view (S.state spool.new).view }
    ensures frame { CallsProperly (S.state spool.old) (S.state spool.new) }
    ensures tree_place { (T.state tree.new).opened ≡ (T.state tree.old).opened }
    ensures tree_later { (T.state tree.old).faults ≤ (T.state tree.new).faults }
    ensures cause { IfErr result (TakeEnds S.state T.state spool.old spool.new tree.old tree.new) }
{
    let Ok(name) = ahead_name(alloc, stanza, segment, sum) else {
        return Err(Halt::NoMemory);
    };
    let taken = match pass_ahead(alloc, spool, tree, name.as_str(), sum, path) {
        Ok(taken) => taken,
        Err(halt) => return Err(halt),
    };
    match clear(alloc, spool, stanza, segment) {
        Ok(()) => Ok(taken),
        Err(halt) => Err(halt),
    }
}
