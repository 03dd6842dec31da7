// Puts a backup into a data folder: everything else first, the control file last.
ghost use Rattle.std.specs.Prelude.{◌≡◌, ◌<◌, ◌≤◌, ◌^◌, true, map, vec_len, OnOk, OnErr, IfErr, IfSome};
ghost use Rattle.std.specs.List.{list_any};
ghost use Rattle.base_devices.specs.Cause.{HasCause};
ghost use Rattle.base_devices.specs.Content.{SameBut};
ghost use Rattle.base_devices.specs.DataFolder.{IsTreeListing};
ghost use Rattle.base_devices.specs.States.{AllSynced};
ghost use Rattle.base_model.specs.ManifestText.{IsManifest};
ghost use Rattle.base_model.specs.Values.{manifest_of};
ghost use Rattle.base_model.specs.StanzaName.{is_stanza};
ghost use Rattle.worker_pool.specs.Pools.{links_in};
ghost use Rattle.worker_pool.specs.Run.{AreReady};
ghost use Rattle.restore_steps.specs.Clearing.{control_path, seen_of, HasNone, StaysNone};
ghost use Rattle.restore_make.specs.Listed.{is_control_node, IsListedBut};
ghost use Rattle.restore_make.specs.Controlled.{KeepsSynced};
ghost use Rattle.restore_make.specs.Restorations.{MarksShown, ProperInFolders, StopsSafely, FinishesAll, CompletesAll, PutsRest, LeavesFinished, LeavesRestored, FailsToRestore};

use crate::control::{BackupFile, control_of, put_control};
use crate::data_files::rebuild;
use crate::fault::FillFault;
use crate::kept_files::find_kept;
use crate::options::Restoration;
use crate::settings::add_settings;
use base_devices::{DataFolder, DeviceError, FolderEntry, Link, Node, Scheduler};
use restore_steps::is_control;
use std::alloc::Global;
use worker_pool::Pool;

const CONTROL: &str = "global/pg_control";

// Whether it is the control file, or what is in its place, but no folder.
fn is_control_node(node: &FolderEntry) -> bool
    ensures { result ≡ is_control_node (seen_of node.now) }
{
    is_control(&node.path) && !matches!(&node.node, Node::Folder)
}

fn has_control(seen: &[FolderEntry]) -> bool
    ensures { result ≡ list_any (λ s. is_control_node (seen_of s)) seen.now }
{
    seen.iter().any(|node| is_control_node(node))
}

// Removes the control file before anything else.
fn remove_control<T: DataFolder>(tree: &mut T, seen: &[FolderEntry]) -> Result<(), DeviceError>
    requires seen { IfSome (T.state tree.old).nodes (λ f. IsTreeListing f (map seen_of seen.now)) }
    ensures listed { OnOk result (IfSome (T.state tree.new).nodes (λ f. IsListedBut f (map seen_of seen.now))) }
    ensures none { OnOk result (HasNone control_path (T.state tree.new).nodes) }
    ensures gone { OnOk result (KeepsSynced control_path (T.state tree.old) (T.state tree.new)) }
    ensures others { OnOk result (SameBut control_path (T.state tree.old).nodes (T.state tree.new).nodes) }
    ensures safe { OnErr result (StopsSafely (T.state tree.old) (T.state tree.new)) }
    ensures proper { (T.state tree.new).faulty_calls ≡ (T.state tree.old).faulty_calls }
    ensures opened { (T.state tree.new).opened ≡ (T.state tree.old).opened }
    ensures cause { HasCause (T.state tree.old).faults (T.state tree.new).faults result }
{
    if has_control(seen) {
        return tree.remove_synced(CONTROL);
    }
    Ok(())
}

// The control file comes last, where there is one.
fn put_last<T: DataFolder, L: Link, U: Scheduler>(
    alloc: Global,
    what: &Restoration<'_>,
    pool: &mut Pool<L, U>,
    tree: &mut T,
) -> Result<(), FillFault>
    requires few { vec_len pool.old.links < 2 ^ 32 }
    requires ready { AreReady (links_in L.link_state pool.old) }
    requires stanza { is_stanza what.now.stanza.now ≡ true }
    requires rules { IsManifest (manifest_of what.now.manifest.now) }
    ensures finishes { OnOk result (FinishesAll what.now L.link_state pool.old T.state tree.old tree.new) }
    ensures synced { OnOk result (AllSynced (T.state tree.new)) }
    ensures none { OnErr result (StaysNone control_path (T.state tree.old).nodes (T.state tree.new).nodes) }
    ensures proper { ProperInFolders what.now (T.state tree.old) (T.state tree.new) }
    ensures opened { (T.state tree.new).opened ≡ (T.state tree.old).opened }
    ensures later { (T.state tree.old).faults ≤ (T.state tree.new).faults }
    ensures fault { IfErr result (FailsToRestore what.now L.link_state pool.old pool.new T.state tree.old tree.new) }
{
    match control_of(&what.manifest.files) {
        Some(file) => {
            let control = BackupFile {
                stanza: what.stanza,
                own: &what.manifest.label,
                entry: file,
            };
            put_control(alloc, &control, pool, tree)
        }
        None => Ok(tree.sync()?),
    }
}

// Adds the settings, and then the control file.
fn apply_settings<T: DataFolder, L: Link, U: Scheduler>(
    alloc: Global,
    what: &Restoration<'_>,
    pool: &mut Pool<L, U>,
    tree: &mut T,
) -> Result<(), FillFault>
    requires few { vec_len pool.old.links < 2 ^ 32 }
    requires ready { AreReady (links_in L.link_state pool.old) }
    requires stanza { is_stanza what.now.stanza.now ≡ true }
    requires rules { IsManifest (manifest_of what.now.manifest.now) }
    ensures completes { OnOk result (CompletesAll what.now L.link_state pool.old T.state tree.old tree.new) }
    ensures synced { OnOk result (AllSynced (T.state tree.new)) }
    ensures none { OnErr result (StaysNone control_path (T.state tree.old).nodes (T.state tree.new).nodes) }
    ensures proper { ProperInFolders what.now (T.state tree.old) (T.state tree.new) }
    ensures opened { (T.state tree.new).opened ≡ (T.state tree.old).opened }
    ensures later { (T.state tree.old).faults ≤ (T.state tree.new).faults }
    ensures fault { IfErr result (FailsToRestore what.now L.link_state pool.old pool.new T.state tree.old tree.new) }
{
    add_settings(alloc, what, pool, tree)?;
    put_last(alloc, what, pool, tree)
}

// Puts everything in its place where it is known which files are kept, the control file last.
fn put_rest<T: DataFolder, L: Link, U: Scheduler>(
    alloc: Global,
    what: &Restoration<'_>,
    marks: &[bool],
    pool: &mut Pool<L, U>,
    tree: &mut T,
) -> Result<(), FillFault>
    requires few { vec_len pool.old.links < 2 ^ 32 }
    requires ready { AreReady (links_in L.link_state pool.old) }
    requires stanza { is_stanza what.now.stanza.now ≡ true }
    requires rules { IsManifest (manifest_of what.now.manifest.now) }
    requires seen { IfSome (T.state tree.old).nodes (λ f. IsListedBut f (map seen_of what.now.seen.now)) }
    requires marks { MarksShown what.now marks.now }
    ensures puts { OnOk result (PutsRest what.now marks.now L.link_state pool.old T.state tree.old tree.new) }
    ensures synced { OnOk result (AllSynced (T.state tree.new)) }
    ensures none { OnErr result (StaysNone control_path (T.state tree.old).nodes (T.state tree.new).nodes) }
    ensures proper { (T.state tree.new).faulty_calls ≡ (T.state tree.old).faulty_calls }
    ensures opened { (T.state tree.new).opened ≡ (T.state tree.old).opened }
    ensures later { (T.state tree.old).faults ≤ (T.state tree.new).faults }
    ensures fault { IfErr result (FailsToRestore what.now L.link_state pool.old pool.new T.state tree.old tree.new) }
{
    rebuild(alloc, what, marks, pool, tree)?;
    apply_settings(alloc, what, pool, tree)
}

/// Restores a backup into a data folder that was listed immediately before.
pub fn restore_files<T: DataFolder, L: Link, U: Scheduler>(
    alloc: Global,
    what: &Restoration<'_>,
    pool: &mut Pool<L, U>,
    tree: &mut T,
) -> Result<(), FillFault>
    requires few { vec_len pool.old.links < 2 ^ 32 }
    requires ready { AreReady (links_in L.link_state pool.old) }
    requires stanza { is_stanza what.now.stanza.now ≡ true }
    requires rules { IsManifest (manifest_of what.now.manifest.now) }
    requires seen { IfSome (T.state tree.old).nodes (λ f. IsTreeListing f (map seen_of what.now.seen.now)) }
    // The tree has each file of the manifest, with bytes that a link read at its place, or as delta kept it; it has the
    // settings of the recovery, the folders, and nothing else.
    ensures finished { OnOk result (LeavesFinished what.now L.link_state pool.old T.state tree.old tree.new) }
    // Over links that read the repository it is the restored tree of the manifest's backup.
    ensures restored { OnOk result (LeavesRestored what.now L.link_state pool.old T.state tree.old tree.new) }
    // A crash leaves all of it.
    ensures synced { OnOk result (AllSynced (T.state tree.new)) }
    // After a refusal there is no control file, unless nothing was changed.
    ensures control { OnErr result (StopsSafely (T.state tree.old) (T.state tree.new)) }
    // No call is faulty.
    ensures proper { (T.state tree.new).faulty_calls ≡ (T.state tree.old).faulty_calls }
    ensures opened { (T.state tree.new).opened ≡ (T.state tree.old).opened }
    ensures later { (T.state tree.old).faults ≤ (T.state tree.new).faults }
    ensures fault { IfErr result (FailsToRestore what.now L.link_state pool.old pool.new T.state tree.old tree.new) }
{
    remove_control(tree, what.seen)?;
    let marks = find_kept(alloc, &what.options, &what.manifest.files, what.seen, pool)?;
    put_rest(alloc, what, &marks, pool, tree)
}
