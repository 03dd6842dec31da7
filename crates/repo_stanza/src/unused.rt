// Whether a repository without a stanza still holds files of one.
ghost use Rattle.std.specs.Prelude.{◌≡◌, ◌==◌, true, false, IfNone, IfOk, IfErr, IfSome, OnOk, position, string_bytes};
ghost use Rattle.base_devices.specs.States.{OnlyReads};
ghost use Rattle.base_devices.specs.Moments.{LeavesNoMore};
ghost use Rattle.base_model.specs.InfoFiles.{IsLabel};
ghost use Rattle.base_model.specs.Represents.{IsArchiveFile};
ghost use Rattle.base_model.specs.Text.{Text, ◌⫽◌};
ghost use Rattle.archive_lookup.specs.Paths.{Lacks};
ghost use Rattle.repo_stanza.specs.Pairs.{LacksStanza};
ghost use Rattle.repo_stanza.specs.Unused.{IsInLabel, IsUnused, HasNone, FindsNone, ForArchiveOf, ForBackupsOf, IsFirstArchived, IsFirstInLabel};
ghost use Rattle.repo_stanza.specs.Causes.{FoundFails, UnusedFails, IfLost};

use crate::fault::StanzaFault;
use archive_lookup::read_path;
use base_devices::{Disk, Found};
use repo_names::read_label;
use std::alloc::Global;

fn slash_in(path: &[u8]) -> Option<usize>
    ensures { result ≡ position (λ b. b == 47) path.now }
{
    path.iter().position(|b| *b == b'/')
}

// What comes before the first slash.
fn first_element(path: &[u8]) -> Option<&[u8]>
    ensures value { IfSome result (λ first. Lacks 47 first.now × ((rest : Text) × (path.now ≡ first.now ⫽ rest))) }
    ensures none { IfNone result (Lacks 47 path.now) }
{
    let at = slash_in(path)?;
    Some(&path[..at])
}

// Whether the path is that of an archive file, after the stanza's folder of the archive with its slash.
fn is_archived(path: &[u8], prefix: &[u8]) -> bool
    ensures archived { result ≡ true → ForArchiveOf prefix.now (λ stanza. IsArchiveFile stanza path.now) }
    ensures other { result ≡ false → ForArchiveOf prefix.now (λ stanza. ¬ IsArchiveFile stanza path.now) }
{
    read_path(path, prefix).is_some()
}

// Whether the path lies in the folder of a label, after the stanza's folder of the backups with its slash.
fn is_in_label(path: &[u8], prefix: &[u8]) -> bool
    ensures within { result ≡ true → ForBackupsOf prefix.now (λ stanza. IsInLabel stanza path.now) }
    ensures other { result ≡ false → ForBackupsOf prefix.now (λ stanza. ¬ IsInLabel stanza path.now) }
{
    let Some(below) = path.strip_prefix(prefix) else {
        return false;
    };
    match first_element(below) {
        Some(folder) => read_label(folder).is_some(),
        None => false,
    }
}

// The first of the names that is an archive file's.
fn first_archived<'a>(found: &'a [Found], prefix: &str) -> Option<&'a Found>
    ensures some { IfSome result (λ x. IsFirstArchived prefix.now found.now x.now) }
    ensures none { IfNone result (ForArchiveOf prefix.now (λ stanza. FindsNone (IsArchiveFile stanza) found.now)) }
{
    for each in found {
        if is_archived(each.name.as_bytes(), prefix.as_bytes()) {
            return Some(each);
        }
    }
    None
}

// The first of the names that lies in the folder of a label.
fn first_in_label<'a>(found: &'a [Found], prefix: &str) -> Option<&'a Found>
    ensures some { IfSome result (λ x. IsFirstInLabel prefix.now found.now x.now) }
    ensures none { IfNone result (ForBackupsOf prefix.now (λ stanza. FindsNone (IsInLabel stanza) found.now)) }
{
    for each in found {
        if is_in_label(each.name.as_bytes(), prefix.as_bytes()) {
            return Some(each);
        }
    }
    None
}

// Refuses an archive that has a file of the stanza.
fn check_archive<D: Disk>(alloc: Global, d: &mut D, stanza: &str) -> Result<(), StanzaFault>
    ensures none { OnOk result (IfSome (D.state d.old).view.now (HasNone (IsArchiveFile stanza.now))) }
    ensures looks { OnlyReads (D.state d.old) (D.state d.new) }
    ensures cause { IfErr result (FoundFails (IsArchiveFile stanza.now) (D.state d.old) (D.state d.new)) }
{
    let folder = format!(in alloc; "archive/{stanza}")?;
    let prefix = format!(in alloc; "{folder}/")?;
    let found = d.names(alloc, folder.as_str())?;
    match first_archived(&found, prefix.as_str()) {
        Some(first) => {
            let name = String::from_str(alloc, first.name.as_str())?;
            Err(StanzaFault::FilesFound { name })
        }
        None => Ok(()),
    }
}

// Refuses backups of the stanza that have a file in the folder of a label.
fn check_backups<D: Disk>(alloc: Global, d: &mut D, stanza: &str) -> Result<(), StanzaFault>
    ensures none { OnOk result (IfSome (D.state d.old).view.now (HasNone (IsInLabel stanza.now))) }
    ensures looks { OnlyReads (D.state d.old) (D.state d.new) }
    ensures cause { IfErr result (FoundFails (IsInLabel stanza.now) (D.state d.old) (D.state d.new)) }
{
    let folder = format!(in alloc; "backup/{stanza}")?;
    let prefix = format!(in alloc; "{folder}/")?;
    let found = d.names(alloc, folder.as_str())?;
    match first_in_label(&found, prefix.as_str()) {
        Some(first) => {
            let name = String::from_str(alloc, first.name.as_str())?;
            Err(StanzaFault::FilesFound { name })
        }
        None => Ok(()),
    }
}

/// Refuses a repository that has no stanza, but still an archive file of one, or a file in the folder of a label.
/// Nothing is written.
pub(crate) fn check_unused<D: Disk>(
    alloc: Global,
    d: &mut D,
    stanza: &str,
) -> Result<(), StanzaFault>
    requires { IfSome (D.state d.old).view.now (LacksStanza stanza.now) }
    ensures unused { OnOk result (IfSome (D.state d.old).view.now (IsUnused stanza.now)) }
    ensures looks { OnlyReads (D.state d.old) (D.state d.new) }
    ensures cause { IfErr result (UnusedFails stanza.now (D.state d.old) (D.state d.new)) }
    ensures label { IfErr result (λ e. IfLost e IsLabel) }
{
    check_archive(alloc, d, stanza)?;
    check_backups(alloc, d, stanza)?;
    Ok(())
}
