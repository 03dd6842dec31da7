// restore: puts a backup into the data folder.
ghost use Rattle.std.specs.Prelude.{◌≡◌, ◌≤◌, ◌<◌, ◌^◌, true, vec_len, IfOk, IfErr, OnOk, OnErr};
ghost use Rattle.base_devices.specs.States.{OnlyReads, AllSynced};
ghost use Rattle.base_model.specs.InfoFiles.{IsLabel};
ghost use Rattle.base_model.specs.ManifestText.{IsManifest};
ghost use Rattle.base_model.specs.Values.{manifest_of};
ghost use Rattle.base_model.specs.StanzaName.{is_stanza};
ghost use Rattle.worker_pool.specs.Pools.{links_in};
ghost use Rattle.worker_pool.specs.Run.{AreReady};
ghost use Rattle.restore_make.specs.Restorations.{StopsSafely};
ghost use Rattle.cmd_setup.specs.Readies.{IsArchiveOf, IsBackupOf};
ghost use Rattle.restore_choice.specs.Judging.{ReadWith};
ghost use Rattle.restore_choice.specs.Loading.{LoadsManifest, LoadHalts};
ghost use Rattle.cmd_restore.specs.Commanding.{RecoversBy, GivesBackupBy, HaltsBy};
ghost use Rattle.cmd_restore.specs.Ends.{LeavesFolder};

use crate::fault::{RestoreCommandFault, of_choice, of_load};
use crate::folder_fill::{FillOrder, fill};
use crate::folder_listing::look;
use crate::order::{InfoValues, RecoverOrder};
use crate::texts::restored_line;
use base_devices::{DataFolder, Disk, Link, Scheduler};
use base_model::Manifest;
use cmd_types::{Halt, Outcome};
use restore_choice::{Chosen, DamagedManifest, choose, load};
use std::alloc::Global;
use worker_pool::Pool;

// The manifest of the chosen backup: the one that was read as it was chosen, or else it is read now.
fn manifest_for<D: Disk>(
    alloc: Global,
    repo: &mut D,
    stanza: &str,
    chosen: Chosen,
) -> Result<Manifest, Halt<DamagedManifest>>
    requires label { IsLabel chosen.label }
    requires read { ReadWith stanza.now (D.state repo.old).view.now chosen }
    ensures found { IfOk result (λ m. LoadsManifest stanza.now chosen.label (D.state repo.old) (manifest_of m)) }
    ensures rules { IfOk result (λ m. IsManifest (manifest_of m)) }
    ensures looks { OnlyReads (D.state repo.old) (D.state repo.new) }
    ensures cause { IfErr result (LoadHalts stanza.now chosen.label (D.state repo.old) (D.state repo.new)) }
{
    match chosen.manifest {
        Some(manifest) => Ok(manifest),
        None => load(alloc, repo, stanza, &chosen.label),
    }
}

/// Puts a backup of the stanza into the data folder, and nothing else: the one that the order chooses. The
/// folder is empty, or with delta holds a cluster whose equal files stay. The first links read the repository, as many
/// as the order has workers; the others aren't used.
pub fn restore_backup<D: Disk, T: DataFolder, L: Link, U: Scheduler>(
    alloc: Global,
    repo: &mut D,
    tree: &mut T,
    pool: &mut Pool<L, U>,
    stanza: &str,
    order: &RecoverOrder<'_>,
    pairs: InfoValues<'_>,
) -> Result<Outcome, Halt<RestoreCommandFault>>
    requires few { vec_len pool.old.links < 2 ^ 32 }
    requires ready { AreReady (links_in L.link_state pool.old) }
    requires stanza { is_stanza stanza.now ≡ true }
    requires archive { IsArchiveOf stanza.now (D.state repo.old).view.now pairs.archive.now }
    requires backup { IsBackupOf stanza.now (D.state repo.old).view.now pairs.backup.now }
    ensures looks { OnlyReads (D.state repo.old) (D.state repo.new) }
    ensures restored { IfOk result
        (RecoversBy stanza.now order.now (D.state repo.old) L.link_state pool.old T.state tree.old tree.new) }
    // Where the repository represents a stanza, the backup is one of the stanza's.
    ensures given { IfOk result
        (GivesBackupBy stanza.now order.now (D.state repo.old) L.link_state pool.old T.state tree.old tree.new) }
    // A crash leaves all of it.
    ensures synced { OnOk result (AllSynced (T.state tree.new)) }
    // After a refusal there is no control file, unless nothing was changed.
    ensures control { OnErr result (StopsSafely (T.state tree.old) (T.state tree.new)) }
    ensures unchanged { IfErr result (LeavesFolder (T.state tree.old) (T.state tree.new)) }
    // No call of the data folder is faulty.
    ensures proper { (T.state tree.new).faulty_calls ≡ (T.state tree.old).faulty_calls }
    ensures opened { (T.state tree.new).opened ≡ (T.state tree.old).opened }
    ensures later { (T.state tree.old).faults ≤ (T.state tree.new).faults }
    ensures cause { IfErr result
        (HaltsBy stanza.now order.now D.state repo.old repo.new L.link_state pool.old T.state tree.old tree.new) }
{
    pool.lost.clear();
    let InfoValues { archive, backup } = pairs;
    let chosen = match choose(alloc, repo, stanza, archive, backup, &order.choice) {
        Ok(chosen) => chosen,
        Err(halt) => return Err(of_choice(halt)),
    };
    let label = chosen.label;
    let seen = look(alloc, order.delta, tree)?;
    let manifest = match manifest_for(alloc, repo, stanza, chosen) {
        Ok(manifest) => manifest,
        Err(halt) => return Err(of_load(halt)),
    };
    let Ok(lines) = restored_line(alloc, &label) else {
        return Err(Halt::NoMemory);
    };
    let asked = FillOrder {
        stanza,
        order,
        manifest: &manifest,
        seen: &seen,
    };
    fill(alloc, &asked, pool, tree)?;
    Ok(Outcome::Finished { lines })
}
