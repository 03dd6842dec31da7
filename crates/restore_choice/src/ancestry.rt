// What a timeline goes back to, by its history file in the archive.
ghost use Rattle.std.specs.Prelude.{◌≤◌, ◌^◌, length, IfOk, IfErr};
ghost use Rattle.base_devices.specs.States.{OnlyReads};
ghost use Rattle.base_model.specs.InfoFiles.{IsArchiveInfo};
ghost use Rattle.base_model.specs.Values.{archive_info_of};
ghost use Rattle.cmd_setup.specs.Readies.{IsArchiveOf};
ghost use Rattle.restore_choice.specs.Ancestries.{IsCurrentId, ReadsHistory, HistoryHalts, GoesBack, BackHalts, ReadsAncestry, AncestryHalts};

use crate::fault::{ChoiceFault, of_archive, of_history};
use archive_store::get;
use base_devices::Disk;
use base_model::{ArchiveId, ArchiveInfo, ArchiveName};
use cmd_types::Halt;
use restore_target::{Ancestor, read_history};
use std::alloc::Global;

/// A timeline, and those that it goes back to.
#[derive(Debug, Drop)]
pub(crate) struct Ancestry {
    pub(crate) timeline: u32,
    pub(crate) ancestors: Vec<Ancestor>,
}

// The archive id of the current cluster.
fn current_id(archive: &ArchiveInfo) -> ArchiveId
    requires { IsArchiveInfo (archive_info_of archive.now) }
    ensures { IsCurrentId archive.now result }
{
    let current = &archive.history[archive.current as usize - 1];
    ArchiveId {
        version: current.version,
        number: current.id,
    }
}

// The bytes of the history file of a timeline.
fn read_file<D: Disk>(
    alloc: Global,
    repo: &mut D,
    stanza: &str,
    archive: &ArchiveInfo,
    timeline: u32,
) -> Result<Vec<u8>, Halt<ChoiceFault>>
    requires archive { IsArchiveOf stanza.now (D.state repo.old).view.now archive.now }
    ensures bytes { IfOk result (λ bytes. ReadsHistory stanza.now (D.state repo.old) timeline bytes.items) }
    ensures within { IfOk result (λ bytes. length bytes.items ≤ 2 ^ 20) }
    ensures looks { OnlyReads (D.state repo.old) (D.state repo.new) }
    ensures cause { IfErr result (HistoryHalts stanza.now timeline (D.state repo.old) (D.state repo.new)) }
{
    let id = current_id(archive);
    match get(alloc, repo, stanza, &id, &ArchiveName::History(timeline)) {
        Ok(bytes) => Ok(bytes),
        Err(fault) => Err(of_archive(timeline, fault)),
    }
}

// The timelines that a timeline goes back to. The first one goes back to none, and has no history file.
fn read_ancestors<D: Disk>(
    alloc: Global,
    repo: &mut D,
    stanza: &str,
    archive: &ArchiveInfo,
    timeline: u32,
) -> Result<Vec<Ancestor>, Halt<ChoiceFault>>
    requires archive { IsArchiveOf stanza.now (D.state repo.old).view.now archive.now }
    ensures back { IfOk result (λ v. GoesBack stanza.now (D.state repo.old) timeline v.items) }
    ensures looks { OnlyReads (D.state repo.old) (D.state repo.new) }
    ensures cause { IfErr result (BackHalts stanza.now timeline (D.state repo.old) (D.state repo.new)) }
{
    if timeline == 1 {
        return Ok(Vec::new(alloc));
    }
    let bytes = read_file(alloc, repo, stanza, archive, timeline)?;
    match read_history(alloc, timeline, &bytes) {
        Ok(ancestors) => Ok(ancestors),
        Err(fault) => Err(of_history(timeline, fault)),
    }
}

/// The timeline of this number, where one is asked for, and those that it goes back to.
pub(crate) fn read_ancestry<D: Disk>(
    alloc: Global,
    repo: &mut D,
    stanza: &str,
    archive: &ArchiveInfo,
    timeline: Option<u32>,
) -> Result<Option<Ancestry>, Halt<ChoiceFault>>
    requires archive { IsArchiveOf stanza.now (D.state repo.old).view.now archive.now }
    ensures ancestry { IfOk result (λ a. ReadsAncestry stanza.now (D.state repo.old) timeline a) }
    ensures looks { OnlyReads (D.state repo.old) (D.state repo.new) }
    ensures cause { IfErr result (AncestryHalts stanza.now timeline (D.state repo.old) (D.state repo.new)) }
{
    let Some(timeline) = timeline else {
        return Ok(None);
    };
    let ancestors = read_ancestors(alloc, repo, stanza, archive, timeline)?;
    Ok(Some(Ancestry {
        timeline,
        ancestors,
    }))
}
