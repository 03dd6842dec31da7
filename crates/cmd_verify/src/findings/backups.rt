// Looks at a listed backup.
ghost use Rattle.std.specs.Prelude.{IfOk, IfSome, OnOk, IsErrOf};
ghost use Rattle.base_devices.specs.Cause.{Rises};
ghost use Rattle.base_model.specs.InfoFiles.{IsLabel};
ghost use Rattle.archive_lookup.specs.Stored.{AreStored};
ghost use Rattle.cmd_verify.specs.Looking.{AddsOfBackup, AddsListed, HoldsManifest};
ghost use Rattle.cmd_verify.specs.Sharing.{AreListed};
ghost use Rattle.base_devices.specs.States.{OnlyReads};

use crate::findings::entries::tell_unlike;
use crate::findings::finding::{Finding, LookFault};
use crate::findings::gaps::look_for_gaps;
use crate::findings::pairs::{look_at_manifest, manifest_name};
use crate::findings::references::look_for_references;
use crate::findings::shared_files::look_at_files;
use archive_lookup::Stored;
use base_devices::Disk;
use base_model::{Cluster, Entry, Label, Manifest};
use std::alloc::Global;

/// What backups are compared with: the labels that are listed, and the archived files.
#[derive(Clone, Copy)]
pub(crate) struct StanzaLists<'a> {
    pub labels: &'a [Label],
    pub files: &'a [Stored],
}

// Looks at a backup: at its manifest, its files, the segments that it needs and the labels that it refers to. The
// answer is its manifest, where it has one.
fn look_at_backup<D: Disk>(
    alloc: Global,
    d: &mut D,
    stanza: &str,
    own: &Label,
    lists: &StanzaLists<'_>,
    found: &mut Vec<Finding>,
) -> Result<Option<Manifest>, LookFault>
    requires own { IsLabel own.now }
    requires listed { IfSome (D.state d.old).view.now (λ f. AreListed stanza.now lists.now.labels.now f) }
    requires stored { IfSome (D.state d.old).view.now (λ f. AreStored stanza.now f lists.now.files.now) }
    ensures adds { OnOk result (AddsOfBackup stanza.now own.now (D.state d.old) found.old found.new) }
    ensures value { IfOk result (HoldsManifest stanza.now own.now (D.state d.old)) }
    ensures looks { OnlyReads (D.state d.old) (D.state d.new) }
    ensures cause { IsErrOf result LookFault.Disk → Rises (D.state d.old).faults (D.state d.new).faults }
{
    let name = manifest_name(alloc, stanza, own)?;
    let Some(manifest) = look_at_manifest(alloc, d, name.as_str(), found)? else {
        return Ok(None);
    };
    look_at_files(alloc, d, stanza, own, &manifest.files, lists.labels, found)?;
    look_for_gaps(alloc, stanza, own, &manifest, lists.files, found)?;
    look_for_references(alloc, name.as_str(), &manifest.files, lists.labels, found)?;
    Ok(Some(manifest))
}

/// Looks at a listed backup, and whether its manifest states what its entry does.
pub(crate) fn look_at_listed<D: Disk>(
    alloc: Global,
    d: &mut D,
    stanza: &str,
    history: &[Cluster],
    entry: &Entry,
    lists: &StanzaLists<'_>,
    found: &mut Vec<Finding>,
) -> Result<(), LookFault>
    requires own { IsLabel entry.now.label }
    requires listed { IfSome (D.state d.old).view.now (λ f. AreListed stanza.now lists.now.labels.now f) }
    requires stored { IfSome (D.state d.old).view.now (λ f. AreStored stanza.now f lists.now.files.now) }
    ensures adds { OnOk result
        (AddsListed stanza.now history.now entry.now (D.state d.old) found.old found.new) }
    ensures looks { OnlyReads (D.state d.old) (D.state d.new) }
    ensures cause { IsErrOf result LookFault.Disk → Rises (D.state d.old).faults (D.state d.new).faults }
{
    let name = manifest_name(alloc, stanza, &entry.label)?;
    let Some(manifest) = look_at_backup(alloc, d, stanza, &entry.label, lists, found)? else {
        return Ok(());
    };
    tell_unlike(alloc, name.as_str(), history, entry, &manifest, found)?;
    Ok(())
}
