// A file of the archive is served from under that of the stanza's ids that has it.
ghost use Rattle.std.specs.Prelude.{◌≡◌, ◌≤◌, true, false, Decides, map, Some, IfSome, OnOk};
ghost use Rattle.base_devices.specs.States.{OnlyReads};
ghost use Rattle.base_model.specs.declared.clusters.ClusterId.{ClusterId};
ghost use Rattle.base_model.specs.InfoFiles.{AreFrom};
ghost use Rattle.archive_lookup.specs.Paths.{has_sum};
ghost use Rattle.archive_lookup.specs.Stored.{Finds};
ghost use Rattle.cmd_archive_get.specs.Getting.{IsSame, HasSame};
ghost use Rattle.cmd_archive_get.specs.ByOrder.{PutsOfId, SetsOfId, StopsOfId, PutsUnder, SetsUnder, StopsUnder, PutsIn, SetsIn, StopsIn, LeavesAlike};

use crate::fault::{GetFault, of_archive};
use crate::order::GetOrder;
use crate::served_file::{Passed, pass_on, put_file};
use archive_lookup::{ArchiveFault, Stored, has_sum};
use archive_store::{get, present};
use base_devices::{DataFolder, Disk};
use base_model::{ArchiveId, ClusterId};
use cmd_types::Halt;
use repo_stanza::Control;
use std::alloc::Global;

/// Whether a cluster of the history is the data folder's.
pub(crate) fn is_of(cluster: &ClusterId, known: &Control) -> bool
    ensures { Decides result (IsSame known.now cluster.now) }
{
    cluster.system == known.system && cluster.version == known.version
}

/// Whether the history has a cluster that is the data folder's.
pub(crate) fn has_cluster(history: &[ClusterId], known: &Control) -> bool
    ensures there { result ≡ true → HasSame history.now known.now }
    ensures absent { result ≡ false → ¬ HasSame history.now known.now }
{
    let mut rest = history;
    while let Some((cluster, earlier)) = rest.split_last() {
        if is_of(cluster, known) {
            return true;
        }
        rest = earlier;
    }
    false
}

// Serves a file that is read whole, and returns whether it is archived under this id.
fn serve_whole<D: Disk, T: DataFolder>(
    alloc: Global,
    repo: &mut D,
    tree: &mut T,
    stanza: &str,
    id: &ArchiveId,
    order: &GetOrder<'_>,
) -> Result<bool, Halt<GetFault>>
    ensures puts { PutsOfId D.state T.state stanza.now id.now order.now result repo.old tree.old tree.new }
    ensures alike { OnOk result (LeavesAlike stanza.now id.now order.now.name (D.state repo.old) (D.state repo.new)) }
    ensures changes { SetsOfId D.state T.state stanza.now id.now order.now repo.old tree.old tree.new }
    ensures cause { StopsOfId D.state T.state stanza.now id.now order.now result repo.old repo.new tree.old tree.new }
    ensures looks { OnlyReads (D.state repo.old) (D.state repo.new) }
    ensures tree_place { (T.state tree.new).opened ≡ (T.state tree.old).opened }
    ensures tree_later { (T.state tree.old).faults ≤ (T.state tree.new).faults }
{
    match get(alloc, repo, stanza, id, &order.name) {
        Ok(bytes) => {
            put_file(alloc, tree, order.inside, &bytes)?;
            Ok(true)
        }
        Err(ArchiveFault::NotFound) => Ok(false),
        Err(fault) => Err(of_archive(fault)),
    }
}

// Serves a segment that is stored: in one pass over its bytes, or else whole.
fn serve_stored<D: Disk, T: DataFolder>(
    alloc: Global,
    repo: &mut D,
    tree: &mut T,
    stanza: &str,
    id: &ArchiveId,
    order: &GetOrder<'_>,
    stored: Stored,
) -> Result<bool, Halt<GetFault>>
    requires segment { has_sum order.now.name ≡ true }
    requires finds { IfSome (D.state repo.old).view.now
        (λ f. Finds stanza.now id.now order.now.name f (Some stored)) }
    ensures puts { PutsOfId D.state T.state stanza.now id.now order.now result repo.old tree.old tree.new }
    ensures changes { SetsOfId D.state T.state stanza.now id.now order.now repo.old tree.old tree.new }
    ensures cause { StopsOfId D.state T.state stanza.now id.now order.now result repo.old repo.new tree.old tree.new }
    ensures looks { OnlyReads (D.state repo.old) (D.state repo.new) }
    ensures tree_place { (T.state tree.new).opened ≡ (T.state tree.old).opened }
    ensures tree_later { (T.state tree.old).faults ≤ (T.state tree.new).faults }
{
    // A segment has a sum, so this is never so.
    let Some(sum) = stored.sum else {
        return serve_whole(alloc, repo, tree, stanza, id, order);
    };
    match pass_on(alloc, repo, tree, stored.path, sum, order.inside)? {
        Passed::Served => Ok(true),
        // It was listed, and isn't there any more. That it isn't archived would end a recovery.
        Passed::Lost => Err(Halt::NoMemory),
        Passed::Barred => serve_whole(alloc, repo, tree, stanza, id, order),
    }
}

// Serves a segment, and returns whether it is archived under this id.
fn serve_segment<D: Disk, T: DataFolder>(
    alloc: Global,
    repo: &mut D,
    tree: &mut T,
    stanza: &str,
    id: &ArchiveId,
    order: &GetOrder<'_>,
) -> Result<bool, Halt<GetFault>>
    requires { has_sum order.now.name ≡ true }
    ensures puts { PutsOfId D.state T.state stanza.now id.now order.now result repo.old tree.old tree.new }
    ensures alike { OnOk result (LeavesAlike stanza.now id.now order.now.name (D.state repo.old) (D.state repo.new)) }
    ensures changes { SetsOfId D.state T.state stanza.now id.now order.now repo.old tree.old tree.new }
    ensures cause { StopsOfId D.state T.state stanza.now id.now order.now result repo.old repo.new tree.old tree.new }
    ensures looks { OnlyReads (D.state repo.old) (D.state repo.new) }
    ensures tree_place { (T.state tree.new).opened ≡ (T.state tree.old).opened }
    ensures tree_later { (T.state tree.old).faults ≤ (T.state tree.new).faults }
{
    match present(alloc, repo, stanza, id, &order.name) {
        Ok(Some(stored)) => serve_stored(alloc, repo, tree, stanza, id, order, stored),
        Ok(None) => Ok(false),
        Err(fault) => Err(of_archive(fault)),
    }
}

// Serves a file from under the id of a cluster, and returns whether it is the data folder's and has the file.
fn serve_under<D: Disk, T: DataFolder>(
    alloc: Global,
    repo: &mut D,
    tree: &mut T,
    stanza: &str,
    cluster: &ClusterId,
    known: &Control,
    order: &GetOrder<'_>,
) -> Result<bool, Halt<GetFault>>
    ensures puts { PutsUnder D.state T.state cluster.now stanza.now known.now order.now result
        repo.old repo.new tree.old tree.new }
    ensures changes { SetsUnder D.state T.state cluster.now stanza.now known.now order.now repo.old tree.old tree.new }
    ensures cause { StopsUnder D.state T.state cluster.now stanza.now known.now order.now result
        repo.old repo.new tree.old tree.new }
    ensures looks { OnlyReads (D.state repo.old) (D.state repo.new) }
    ensures tree_place { (T.state tree.new).opened ≡ (T.state tree.old).opened }
    ensures tree_later { (T.state tree.old).faults ≤ (T.state tree.new).faults }
{
    if !is_of(cluster, known) {
        return Ok(false);
    }
    let id = ArchiveId {
        version: cluster.version,
        number: cluster.id,
    };
    if has_sum(&order.name) {
        serve_segment(alloc, repo, tree, stanza, &id, order)
    } else {
        serve_whole(alloc, repo, tree, stanza, &id, order)
    }
}

/// Serves a file from under the highest number of the data folder's cluster that has it, and returns whether one has.
pub(crate) fn search<D: Disk, T: DataFolder>(
    alloc: Global,
    repo: &mut D,
    tree: &mut T,
    stanza: &str,
    history: &[ClusterId],
    known: &Control,
    order: &GetOrder<'_>,
) -> Result<bool, Halt<GetFault>>
    requires numbers { AreFrom 1 (map (λ (c : ClusterId). c.id) history.now) }
    ensures puts { PutsIn D.state T.state history.now stanza.now known.now order.now result
        repo.old repo.new tree.old tree.new }
    ensures changes { SetsIn D.state T.state history.now stanza.now known.now order.now repo.old tree.old tree.new }
    ensures cause { StopsIn D.state T.state history.now stanza.now known.now order.now result
        repo.old repo.new tree.old tree.new }
    ensures looks { OnlyReads (D.state repo.old) (D.state repo.new) }
    ensures tree_place { (T.state tree.new).opened ≡ (T.state tree.old).opened }
    ensures tree_later { (T.state tree.old).faults ≤ (T.state tree.new).faults }
{
    let mut rest = history;
    while let Some((cluster, earlier)) = rest.split_last() {
        if serve_under(alloc, repo, tree, stanza, cluster, known, order)? {
            return Ok(true);
        }
        rest = earlier;
    }
    Ok(false)
}
