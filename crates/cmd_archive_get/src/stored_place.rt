// Where a file of the archive is stored.
ghost use Rattle.std.specs.Prelude.{map, IfOk, IfErr, IfSome};
ghost use Rattle.base_devices.specs.States.{OnlyReads};
ghost use Rattle.base_model.specs.declared.clusters.ClusterId.{ClusterId};
ghost use Rattle.base_model.specs.InfoFiles.{AreFrom, IsArchiveInfo};
ghost use Rattle.base_model.specs.Values.{archive_info_of};
ghost use Rattle.cmd_types.specs.Current.{HasValue};
ghost use Rattle.cmd_archive_get.specs.Looking.{IsUndamaged};
ghost use Rattle.cmd_archive_get.specs.ByOrder.{FoundUnder, LookStops, FoundAmong, SearchStops, LooksUp, FindStops};

use crate::archive_get::mismatch;
use crate::fault::{GetFault, of_archive};
use crate::id_search::{has_cluster, is_of};
use archive_lookup::Stored;
use archive_store::present;
use base_devices::Disk;
use base_model::{ArchiveId, ArchiveInfo, ArchiveName, ClusterId};
use cmd_types::Halt;
use repo_stanza::Control;
use std::alloc::Global;

// Where the file is stored under the id of a cluster, where that is the data folder's.
fn look_under<D: Disk>(
    alloc: Global,
    repo: &mut D,
    stanza: &str,
    cluster: &ClusterId,
    known: &Control,
    name: &ArchiveName,
) -> Result<Option<Stored>, Halt<GetFault>>
    ensures finds { IfOk result (FoundUnder D.state cluster.now stanza.now known.now name.now repo.old repo.new) }
    ensures cause { IfErr result (LookStops D.state cluster.now stanza.now known.now name.now repo.old repo.new) }
    ensures undamaged { IfErr result IsUndamaged }
    ensures looks { OnlyReads (D.state repo.old) (D.state repo.new) }
{
    if !is_of(cluster, known) {
        return Ok(None);
    }
    let id = ArchiveId {
        version: cluster.version,
        number: cluster.id,
    };
    match present(alloc, repo, stanza, &id, name) {
        Ok(found) => Ok(found),
        Err(fault) => Err(of_archive(fault)),
    }
}

// Where the file is stored under the highest number of the data folder's cluster that has it.
fn look_in<D: Disk>(
    alloc: Global,
    repo: &mut D,
    stanza: &str,
    history: &[ClusterId],
    known: &Control,
    name: &ArchiveName,
) -> Result<Option<Stored>, Halt<GetFault>>
    requires numbers { AreFrom 1 (map (λ (c : ClusterId). c.id) history.now) }
    ensures finds { IfOk result (FoundAmong D.state history.now stanza.now known.now name.now repo.old repo.new) }
    ensures cause { IfErr result (SearchStops D.state history.now stanza.now known.now name.now repo.old repo.new) }
    ensures undamaged { IfErr result IsUndamaged }
    ensures looks { OnlyReads (D.state repo.old) (D.state repo.new) }
{
    let mut rest = history;
    while let Some((cluster, earlier)) = rest.split_last() {
        match look_under(alloc, repo, stanza, cluster, known, name) {
            Ok(None) => {}
            Ok(Some(stored)) => return Ok(Some(stored)),
            Err(halt) => return Err(halt),
        }
        rest = earlier;
    }
    Ok(None)
}

/// Where a file of the archive is stored that is requested for a data folder which states this. `info` is the value of
/// the archive pair.
pub fn find_file<D: Disk>(
    alloc: Global,
    repo: &mut D,
    stanza: &str,
    known: &Control,
    info: &ArchiveInfo,
    name: &ArchiveName,
) -> Result<Option<Stored>, Halt<GetFault>>
    requires pair { IfSome (D.state repo.old).view.now (λ f. HasValue stanza.now f (archive_info_of info.now)) }
    requires valid { IsArchiveInfo (archive_info_of info.now) }
    // So it is in all that a crash leaves, where that has the archive pair.
    ensures finds { IfOk result (LooksUp D.state stanza.now known.now info.now name.now repo.old repo.new) }
    ensures cause { IfErr result (FindStops D.state stanza.now known.now name.now repo.old repo.new) }
    ensures undamaged { IfErr result IsUndamaged }
    ensures looks { OnlyReads (D.state repo.old) (D.state repo.new) }
{
    if !has_cluster(&info.history, known) {
        return Err(mismatch(info, known));
    }
    look_in(alloc, repo, stanza, &info.history, known, name)
}
