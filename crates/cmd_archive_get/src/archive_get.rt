// archive-get: serves a file of the archive.
ghost use Rattle.std.specs.Prelude.{◌≡◌, ◌≤◌, IfOk, IfErr, IfSome};
ghost use Rattle.base_devices.specs.States.{OnlyReads};
ghost use Rattle.base_model.specs.InfoFiles.{IsArchiveInfo};
ghost use Rattle.base_model.specs.Values.{archive_info_of};
ghost use Rattle.cmd_types.specs.Cluster.{FolderShows};
ghost use Rattle.cmd_types.specs.Current.{HasValue};
ghost use Rattle.cmd_types.specs.Reached.{reached_by};
ghost use Rattle.cmd_types.specs.Risen.{none};
ghost use Rattle.cmd_types.specs.DisksEffect.{OnNone};
ghost use Rattle.cmd_archive_get.specs.Getting.{get_early};
ghost use Rattle.cmd_archive_get.specs.ByOrder.{PutsFound, SetsFound, GetStops, GotByOrder, GotFromLeft, GivenByOrder, SetsServed, GetEnds, IsMismatchOf};

use crate::fault::GetFault;
use crate::id_search::{has_cluster, search};
use crate::order::GetOrder;
use base_devices::{DataFolder, Disk};
use base_model::ArchiveInfo;
use cmd_types::{Halt, Outcome};
use repo_stanza::{Control, Identity};
use std::alloc::Global;

/// The stanza is of another cluster than the data folder.
pub(crate) fn mismatch(info: &ArchiveInfo, known: &Control) -> Halt<GetFault>
    requires { IsArchiveInfo (archive_info_of info.now) }
    ensures { IsMismatchOf info.now known.now result }
{
    let current = &info.history[info.current as usize - 1];
    Halt::Refused(GetFault::StanzaMismatch {
        kept: Identity {
            system: current.system,
            version: current.version,
        },
        found: Identity {
            system: known.system,
            version: known.version,
        },
    })
}

// Serves a file of the stanza, and returns whether the repository has it.
fn serve_file<D: Disk, T: DataFolder>(
    alloc: Global,
    repo: &mut D,
    tree: &mut T,
    stanza: &str,
    order: &GetOrder<'_>,
    known: &Control,
    info: &ArchiveInfo,
) -> Result<bool, Halt<GetFault>>
    requires pair { IfSome (D.state repo.old).view.now (λ f. HasValue stanza.now f (archive_info_of info.now)) }
    requires valid { IsArchiveInfo (archive_info_of info.now) }
    ensures puts { PutsFound D.state T.state stanza.now known.now info.now order.now result
        repo.old repo.new tree.old tree.new }
    ensures changes { SetsFound D.state T.state stanza.now known.now order.now repo.old tree.old tree.new }
    ensures cause { GetStops D.state T.state stanza.now known.now order.now result repo.old repo.new tree.old tree.new }
    ensures looks { OnlyReads (D.state repo.old) (D.state repo.new) }
    ensures tree_place { (T.state tree.new).opened ≡ (T.state tree.old).opened }
    ensures tree_later { (T.state tree.old).faults ≤ (T.state tree.new).faults }
{
    if !has_cluster(&info.history, known) {
        return Err(mismatch(info, known));
    }
    search(alloc, repo, tree, stanza, &info.history, known, order)
}

/// Serves a file of the archive at a path of the data folder. `known` is what the data folder says about its cluster,
/// and `info` the value of the archive pair.
pub fn get_file<D: Disk, T: DataFolder>(
    alloc: Global,
    repo: &mut D,
    tree: &mut T,
    stanza: &str,
    order: &GetOrder<'_>,
    known: &Control,
    info: &ArchiveInfo,
) -> Result<Outcome, Halt<GetFault>>
    requires shows { IfSome (T.state tree.old).nodes (λ f. FolderShows f known.now) }
    requires pair { IfSome (D.state repo.old).view.now (λ f. HasValue stanza.now f (archive_info_of info.now)) }
    requires valid { IsArchiveInfo (archive_info_of info.now) }
    // The data folder has the file of the repository at Finished, and is unchanged where the repository doesn't have
    // it.
    ensures got { IfOk result (GotByOrder D.state T.state stanza.now order.now repo.old tree.old tree.new) }
    // So it is in all that a crash leaves, where that has the archive pair.
    ensures lasts { IfOk result (GotFromLeft D.state T.state stanza.now order.now repo.old repo.new tree.old tree.new) }
    ensures given { IfOk result (GivenByOrder D.state T.state stanza.now order.now repo.old tree.old tree.new) }
    ensures changes { SetsServed D.state T.state stanza.now order.now repo.old tree.old tree.new }
    ensures none { OnNone (reached_by get_early result) ((T.state tree.new).nodes ≡ (T.state tree.old).nodes) }
    ensures looks { OnlyReads (D.state repo.old) (D.state repo.new) }
    ensures opened { (T.state tree.new).opened ≡ (T.state tree.old).opened }
    ensures later { (T.state tree.old).faults ≤ (T.state tree.new).faults }
    ensures cause { IfErr result (GetEnds D.state T.state stanza.now order.now repo.old repo.new tree.old tree.new) }
{
    if serve_file(alloc, repo, tree, stanza, order, known, info)? {
        Ok(Outcome::Finished {
            lines: String::new(alloc),
        })
    } else {
        Ok(Outcome::Absent {
            name: String::from_str(alloc, order.word)?,
        })
    }
}
