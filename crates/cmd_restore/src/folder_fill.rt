// Puts the backup's files into the folder.
ghost use Rattle.std.specs.Prelude.{◌≡◌, ◌≤◌, ◌<◌, ◌^◌, [], true, false, map, vec_len, IfErr, IfSome, OnOk, OnErr};
ghost use Rattle.base_devices.specs.States.{AllSynced};
ghost use Rattle.base_devices.specs.DataFolder.{IsTreeListing};
ghost use Rattle.base_model.specs.ManifestText.{IsManifest};
ghost use Rattle.base_model.specs.Values.{manifest_of};
ghost use Rattle.base_model.specs.StanzaName.{is_stanza};
ghost use Rattle.worker_pool.specs.Pools.{links_in};
ghost use Rattle.worker_pool.specs.Run.{AreReady};
ghost use Rattle.restore_steps.specs.Clearing.{seen_of};
ghost use Rattle.restore_make.specs.Restorations.{StopsSafely};
ghost use Rattle.cmd_restore.specs.Ends.{leaves_folder};
ghost use Rattle.cmd_restore.specs.Putting.{PutsFiles, PutHalts, FillsBy, FillHalts};

use crate::fault::{RestoreCommandFault, of_fill};
use crate::log_fetch::{fetch_of, recovery_by, settings_for};
use crate::order::RecoverOrder;
use crate::worker_start::{count_of, start_workers};
use base_devices::{DataFolder, FolderEntry, Link, Scheduler};
use base_model::Manifest;
use cmd_types::Halt;
use restore_make::{Restoration, RestoreOptions, restore_files};
use std::alloc::Global;
use worker_pool::Pool;

/// The manifest's backup of the stanza is to be put into the folder of this listing, by an order.
#[derive(Clone, Copy)]
pub(crate) struct FillOrder<'a> {
    pub(crate) stanza: &'a str,
    pub(crate) order: &'a RecoverOrder<'a>,
    pub(crate) manifest: &'a Manifest,
    pub(crate) seen: &'a [FolderEntry],
}

// Puts the files into the folder over links that were given it; the pool has those that were lost by that.
fn put_files<T: DataFolder, L: Link, U: Scheduler>(
    alloc: Global,
    asked: &FillOrder<'_>,
    options: &RestoreOptions<'_>,
    pool: &mut Pool<L, U>,
    tree: &mut T,
) -> Result<(), Halt<RestoreCommandFault>>
    requires few { vec_len pool.old.links < 2 ^ 32 }
    requires ready { AreReady (links_in L.link_state pool.old) }
    requires stanza { is_stanza asked.now.stanza.now ≡ true }
    requires rules { IsManifest (manifest_of asked.now.manifest.now) }
    requires seen { IfSome (T.state tree.old).nodes (λ f. IsTreeListing f (map seen_of asked.now.seen.now)) }
    ensures finished { OnOk result (PutsFiles asked.now options.now L.link_state pool.old T.state tree.old tree.new) }
    ensures synced { OnOk result (AllSynced (T.state tree.new)) }
    ensures control { OnErr result (StopsSafely (T.state tree.old) (T.state tree.new)) }
    ensures changes { IfErr result (λ halt. leaves_folder halt ≡ false) }
    ensures proper { (T.state tree.new).faulty_calls ≡ (T.state tree.old).faulty_calls }
    ensures opened { (T.state tree.new).opened ≡ (T.state tree.old).opened }
    ensures later { (T.state tree.old).faults ≤ (T.state tree.new).faults }
    // Where the used links are those of which these are left, the cause is of them.
    ensures cause { PutHalts result asked.now L.link_state pool.old T.state tree.old tree.new }
{
    let what = Restoration {
        stanza: asked.stanza,
        manifest: asked.manifest,
        options: *options,
        seen: asked.seen,
    };
    match restore_files(alloc, &what, pool, tree) {
        Ok(()) => Ok(()),
        Err(fault) => Err(of_fill(count_of(&pool.lost), fault)),
    }
}

/// Starts the workers, and puts the files of the manifest's backup into the listed folder.
pub(crate) fn fill<T: DataFolder, L: Link, U: Scheduler>(
    alloc: Global,
    asked: &FillOrder<'_>,
    pool: &mut Pool<L, U>,
    tree: &mut T,
) -> Result<(), Halt<RestoreCommandFault>>
    requires few { vec_len pool.old.links < 2 ^ 32 }
    requires ready { AreReady (links_in L.link_state pool.old) }
    requires none { pool.old.lost.items ≡ [] }
    requires stanza { is_stanza asked.now.stanza.now ≡ true }
    requires rules { IsManifest (manifest_of asked.now.manifest.now) }
    requires seen { IfSome (T.state tree.old).nodes (λ f. IsTreeListing f (map seen_of asked.now.seen.now)) }
    ensures finished { OnOk result (FillsBy asked.now L.link_state pool.old T.state tree.old tree.new) }
    ensures synced { OnOk result (AllSynced (T.state tree.new)) }
    ensures control { OnErr result (StopsSafely (T.state tree.old) (T.state tree.new)) }
    ensures changes { IfErr result (λ halt. leaves_folder halt ≡ false) }
    ensures proper { (T.state tree.new).faulty_calls ≡ (T.state tree.old).faulty_calls }
    ensures opened { (T.state tree.new).opened ≡ (T.state tree.old).opened }
    ensures later { (T.state tree.old).faults ≤ (T.state tree.new).faults }
    ensures cause { IfErr result (FillHalts asked.now L.link_state pool.old T.state tree.old tree.new) }
{
    let order = asked.order;
    let Ok(fetch) = fetch_of(alloc, asked.stanza, &order.recovery) else {
        return Err(Halt::NoMemory);
    };
    let Ok(settings) = settings_for(alloc, &order.recovery) else {
        return Err(Halt::NoMemory);
    };
    let options = RestoreOptions {
        delta: order.delta,
        recovery: recovery_by(&order.recovery, &fetch, &settings),
    };
    start_workers(alloc, pool, order)?;
    put_files(alloc, asked, &options, pool, tree)
}
