// Puts all files of a backup but the control file in their places.
ghost use Rattle.std.specs.Prelude.{◌≡◌, ◌<◌, ◌≤◌, ◌^◌, true, map, vec_len, OnOk, IfErr, IfSome};
ghost use Rattle.base_devices.specs.Cause.{HasCause};
ghost use Rattle.base_devices.specs.Order.{are_in_order};
ghost use Rattle.base_model.specs.InfoFiles.{IsLabel};
ghost use Rattle.base_model.specs.ManifestText.{IsManifest};
ghost use Rattle.base_model.specs.Text.{In};
ghost use Rattle.base_model.specs.Values.{FileEntry as Entry, file_entry_of, manifest_of};
ghost use Rattle.base_model.specs.StanzaName.{is_stanza};
ghost use Rattle.worker_pool.specs.Pools.{links_in, LeavesLinks};
ghost use Rattle.worker_pool.specs.Run.{AreReady};
ghost use Rattle.restore_steps.specs.Clearing.{control_path, seen_of, StaysNone};
ghost use Rattle.restore_steps.specs.Sources.{IsEntry};
ghost use Rattle.restore_make.specs.Listed.{IsListedBut, HasFolders};
ghost use Rattle.restore_make.specs.Restorations.{MarksShown, Prepares, ProperWhereListed, RebuildsAll, FailsToRestore};
ghost use Rattle.restore_make.specs.Selected.{FillsSelected, ProperWhereHoused, FailsToFill};

use crate::fault::FillFault;
use crate::file_jobs::FileJobs;
use crate::file_writes::write_files;
use crate::kept_times::time_kept;
use crate::options::Restoration;
use crate::restore_plan::{Selection, plan_files};
use base_devices::{DataFolder, DeviceError, FolderEntry, Link, Scheduler};
use base_model::Manifest;
use restore_steps::{begin_bare, clear, make_folders};
use std::alloc::Global;
use worker_pool::Pool;

// Makes the folder ready: nothing is left that the backup doesn't have, and its folders and its files without bytes are
// there.
fn prepare<T: DataFolder>(
    tree: &mut T,
    manifest: &Manifest,
    seen: &[FolderEntry],
) -> Result<(), DeviceError>
    requires rules { IsManifest (manifest_of manifest.now) }
    ensures ready { OnOk result (Prepares manifest.now seen.now (T.state tree.old) (T.state tree.new)) }
    ensures control { StaysNone control_path (T.state tree.old).nodes (T.state tree.new).nodes }
    // Where all that is there is listed, no call is faulty: each folder is made before what lies in it.
    ensures proper { ProperWhereListed seen.now (T.state tree.old) (T.state tree.new) }
    ensures opened { (T.state tree.new).opened ≡ (T.state tree.old).opened }
    ensures cause { HasCause (T.state tree.old).faults (T.state tree.new).faults result }
{
    clear(tree, manifest, seen)?;
    make_folders(tree, &manifest.folders)?;
    begin_bare(tree, &manifest.files)
}

// Writes the ordinary files that aren't kept.
fn fill<T: DataFolder, L: Link, U: Scheduler>(
    alloc: Global,
    chosen: &Selection<'_>,
    pool: &mut Pool<L, U>,
    tree: &mut T,
) -> Result<(), FillFault>
    requires few { vec_len pool.old.links < 2 ^ 32 }
    requires ready { AreReady (links_in L.link_state pool.old) }
    requires stanza { is_stanza chosen.now.stanza.now ≡ true }
    requires own { IsLabel chosen.now.own.now }
    requires entries { (e : Entry) → In e (map file_entry_of chosen.now.files.now) → IsEntry e }
    requires order { are_in_order (map (λ e. e.path) (map file_entry_of chosen.now.files.now)) ≡ true }
    ensures fills { OnOk result (FillsSelected chosen.now L.link_state pool.old T.state tree.old tree.new) }
    ensures control { StaysNone control_path (T.state tree.old).nodes (T.state tree.new).nodes }
    ensures proper { ProperWhereHoused chosen.now (T.state tree.old) (T.state tree.new) }
    ensures opened { (T.state tree.new).opened ≡ (T.state tree.old).opened }
    ensures later { (T.state tree.old).faults ≤ (T.state tree.new).faults }
    ensures left { OnOk result (LeavesLinks L.link_state pool.old pool.new) }
    ensures fault { IfErr result (FailsToFill chosen.now L.link_state pool.old pool.new T.state tree.old tree.new) }
{
    let planned = plan_files(alloc, chosen)?;
    let asked = FileJobs {
        jobs: &planned.jobs,
        wanted: &planned.wanted,
    };
    write_files(alloc, &asked, pool, tree)
}

/// Every file of a backup but the control file is put in its place, unless it is kept or gets settings. A file that is
/// kept gets the backup's time. The folders are made, and nothing else is left.
pub(crate) fn rebuild<T: DataFolder, L: Link, U: Scheduler>(
    alloc: Global,
    what: &Restoration<'_>,
    marks: &[bool],
    pool: &mut Pool<L, U>,
    tree: &mut T,
) -> Result<(), FillFault>
    requires few { vec_len pool.old.links < 2 ^ 32 }
    requires ready { AreReady (links_in L.link_state pool.old) }
    requires stanza { is_stanza what.now.stanza.now ≡ true }
    requires rules { IsManifest (manifest_of what.now.manifest.now) }
    requires seen { IfSome (T.state tree.old).nodes (λ f. IsListedBut f (map seen_of what.now.seen.now)) }
    requires marks { MarksShown what.now marks.now }
    ensures rebuilds { OnOk result (RebuildsAll what.now marks.now L.link_state pool.old T.state tree.old tree.new) }
    ensures control { StaysNone control_path (T.state tree.old).nodes (T.state tree.new).nodes }
    ensures folders { OnOk result (HasFolders (manifest_of what.now.manifest.now).folders (T.state tree.new).nodes) }
    ensures proper { (T.state tree.new).faulty_calls ≡ (T.state tree.old).faulty_calls }
    ensures opened { (T.state tree.new).opened ≡ (T.state tree.old).opened }
    ensures later { (T.state tree.old).faults ≤ (T.state tree.new).faults }
    ensures left { OnOk result (LeavesLinks L.link_state pool.old pool.new) }
    ensures fault { IfErr result (FailsToRestore what.now L.link_state pool.old pool.new T.state tree.old tree.new) }
{
    prepare(tree, what.manifest, what.seen)?;
    time_kept(tree, &what.manifest.files, marks)?;
    let chosen = Selection {
        stanza: what.stanza,
        own: &what.manifest.label,
        recovery: what.options.recovery,
        files: &what.manifest.files,
        marks,
    };
    fill(alloc, &chosen, pool, tree)
}
