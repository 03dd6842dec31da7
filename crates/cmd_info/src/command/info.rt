// info: the report on the stanza.
ghost use Rattle.std.specs.Prelude.{◌≡◌, ◌++◌, map, OnOk, IfOk, IfErr, string_bytes};
ghost use Rattle.base_devices.specs.States.{DiskFailed, OnlyReads};
ghost use Rattle.base_model.specs.InfoFiles.{IsBackupInfo};
ghost use Rattle.base_model.specs.Values.{backup_info_of};
ghost use Rattle.cmd_types.specs.declared.stages.object.Object.TheVariants.{Repo};
ghost use Rattle.cmd_types.specs.Current.{id_kept};
ghost use Rattle.cmd_types.specs.Halts.{HaltCause, Never, Only};
ghost use Rattle.cmd_info.specs.Reporting.{report_in, named, IsReported, HoldsPairs, AreEndsIn, HaveEndsIn, ReportsRepresented};
ghost use Rattle.cmd_types.specs.Reached.{OnFinished};

use crate::report::{ArchivedName, Report, report_json, report_text};
use archive_lookup::{ArchiveFault, ends};
use base_devices::Disk;
use base_model::{ArchiveId, ArchiveInfo, ArchiveName, BackupInfo, ClusterId, Segment};
use base_text::NoMemory;
use cmd_types::{Halt, Object, Outcome, StageFault};
use options_read::OutputWord;
use std::alloc::{AllocError, Global};

// The folder of a cluster's files in the archive.
fn archive_id(cluster: &ClusterId) -> ArchiveId
    ensures { result ≡ id_kept cluster.now }
{
    ArchiveId {
        version: cluster.version,
        number: cluster.id,
    }
}

// Stored whole segments under this id that bound all others.
fn ends_under<D: Disk>(
    alloc: Global,
    repo: &mut D,
    stanza: &str,
    id: &ArchiveId,
) -> Result<Vec<Segment>, Halt<StageFault>>
    ensures ends { IfOk result (λ found. AreEndsIn stanza.now id.now found.items (D.state repo.old)) }
    ensures looks { OnlyReads (D.state repo.old) (D.state repo.new) }
    ensures cause { IfErr result
        (HaltCause Never (Only Repo (DiskFailed (D.state repo.old) (D.state repo.new)))) }
{
    match ends(alloc, repo, stanza, id) {
        Ok(found) => Ok(found),
        Err(ArchiveFault::Disk) => Err(Halt::Failed(Object::Repo)),
        Err(_) => Err(Halt::NoMemory),
    }
}

// Adds the names of these segments.
fn add_names(
    names: &mut Vec<ArchivedName>,
    id: ArchiveId,
    segments: &[Segment],
) -> Result<(), AllocError>
    ensures { OnOk result (names.new.items ≡ names.old.items ++ map (named id) segments.now) }
{
    for segment in segments {
        names.push(ArchivedName {
            id,
            name: ArchiveName::Segment(*segment),
        })?;
    }
    Ok(())
}

// The names of stored whole segments that bound all others, of each cluster.
fn end_names<D: Disk>(
    alloc: Global,
    repo: &mut D,
    stanza: &str,
    history: &[ClusterId],
) -> Result<Vec<ArchivedName>, Halt<StageFault>>
    ensures ends { IfOk result (λ names. HaveEndsIn stanza.now history.now names.items (D.state repo.old)) }
    ensures looks { OnlyReads (D.state repo.old) (D.state repo.new) }
    ensures cause { IfErr result
        (HaltCause Never (Only Repo (DiskFailed (D.state repo.old) (D.state repo.new)))) }
{
    let mut names = Vec::new(alloc);
    for cluster in history {
        let id = archive_id(cluster);
        let segments = ends_under(alloc, repo, stanza, &id)?;
        add_names(&mut names, id, &segments)?;
    }
    Ok(names)
}

// The report in this form.
fn report_by(alloc: Global, form: OutputWord, report: &Report<'_>) -> Result<String, NoMemory>
    requires { IsBackupInfo (backup_info_of report.now.info.now) }
    ensures { IfOk result (λ text. string_bytes text ≡ report_in form report.now) }
{
    match form {
        OutputWord::Text => report_text(alloc, report),
        OutputWord::Json => report_json(alloc, report),
    }
}

/// The report on the stanza, whose pairs have these values. Nothing is healed.
pub fn report_stanza<D: Disk>(
    alloc: Global,
    repo: &mut D,
    stanza: &str,
    archive: &ArchiveInfo,
    backup: &BackupInfo,
    form: OutputWord,
) -> Result<Outcome, Halt<StageFault>>
    requires pairs { HoldsPairs stanza.now archive.now backup.now (D.state repo.old) }
    requires valid { IsBackupInfo (backup_info_of backup.now) }
    ensures known { IfOk result (λ o. OnFinished o (IsReported stanza.now form (D.state repo.old).view.now)) }
    ensures reported { IfOk result (ReportsRepresented form stanza.now (D.state repo.old)) }
    ensures looks { OnlyReads (D.state repo.old) (D.state repo.new) }
    ensures cause { IfErr result
        (HaltCause Never (Only Repo (DiskFailed (D.state repo.old) (D.state repo.new)))) }
{
    let archived = end_names(alloc, repo, stanza, &archive.history)?;
    let report = Report {
        stanza,
        archive,
        info: backup,
        archived: &archived,
    };
    match report_by(alloc, form, &report) {
        Ok(lines) => Ok(Outcome::Finished { lines }),
        Err(NoMemory) => Err(Halt::NoMemory),
    }
}
