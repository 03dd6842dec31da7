// What is done under the locks, before a command's own part.
ghost use Rattle.std.specs.Prelude.{◌≡◌, false, OnOk, IfOk, IfErr, IfSome, string_bytes};
ghost use Rattle.base_devices.specs.States.{CallsProperly, OnlyReads, OnlyReadsFolder};
ghost use Rattle.archive_store.specs.Still.{IsStill};
ghost use Rattle.cmd_types.specs.declared.stages.plan.SyncScope.TheVariants.{Whole, Looked};
ghost use Rattle.cmd_types.specs.Halts.{Never};
ghost use Rattle.cmd_types.specs.Plans.{AreHealed, AreHeld, OnReading};
ghost use Rattle.base_model.specs.Names.{archive_folder};
ghost use Rattle.cmd_types.specs.DisksEffect.{Quiet, HealsPair};
ghost use Rattle.cmd_setup.specs.Readies.{IsReady};
ghost use Rattle.cmd_setup.specs.Settled.{SettlesFor};
ghost use Rattle.cmd_setup.specs.Stages.{RepoCause};
ghost use Rattle.cmd_setup.specs.Calls.{ChangesPair, KeepsArchivePair, LeavesPair, SyncsArchivePair, BeginsBy, HealsBy, HealsForGood, NotReady, StaysSynced};

use crate::cluster::cluster_by;
use crate::pairs::{archive_by, backup_by};
use crate::ready::Ready;
use base_devices::{DataFolder, Disk, Locks};
use base_disk::{StoreFault, begin};
use cmd_types::{Halt, Object, Plan, StageFault, SyncScope, halted};
use std::alloc::{AllocError, Global};

/// Syncs the stanza's folders or that of the archive pair, reads the control file, and reads or heals the pairs, as
/// far as the plan says so. As long as it has the locks nobody can release them.
pub fn prepare<D: Disk, T: DataFolder, K: Locks>(
    alloc: Global,
    repo: &mut D,
    tree: &mut T,
    _locks: &K,
    stanza: &str,
    plan: &Plan,
) -> Result<Ready, Halt<StageFault>>
    requires locked { AreHeld plan.now stanza.now (K.state _locks.now).taken }
    ensures ready { IfOk result (IsReady plan.now stanza.now (D.state repo.new).view.now (T.state tree.old).nodes) }
    ensures quiet { Quiet stanza.now (D.state repo.old).view (D.state repo.new).view }
    ensures begun { OnOk result (BeginsBy plan.now stanza.now (D.state repo.old) (D.state repo.new)) }
    ensures heals { OnOk result (HealsBy plan.now stanza.now (D.state repo.old) (D.state repo.new)) }
    ensures healed { OnOk result (IfSome (D.state repo.new).view.now (AreHealed plan.now.pairs stanza.now)) }
    // No crash removes it.
    ensures lasts { OnOk result (HealsForGood plan.now stanza.now (D.state repo.old) (D.state repo.new)) }
    ensures synced { StaysSynced stanza.now (D.state repo.old).view (D.state repo.new).view }
    // Where a pair is healed nothing else of the repository changes.
    ensures leaves { LeavesPair plan.now.pairs stanza.now (D.state repo.old).view (D.state repo.new).view }
    ensures still { OnReading plan.now.pairs (IsStill (D.state repo.old).view (D.state repo.new).view) }
    ensures frame { CallsProperly (D.state repo.old) (D.state repo.new) }
    ensures looks { OnlyReadsFolder (T.state tree.old) (T.state tree.new) }
    ensures unread { plan.now.control ≡ false → tree.new ≡ tree.old }
    ensures cause { IfErr result (NotReady D.state T.state plan.now stanza.now repo.old repo.new tree.old tree.new) }
{
    sync_directories(alloc, repo, stanza, plan.sync_scope)?;
    find(alloc, repo, tree, stanza, plan)
}

// Syncs all of the stanza's folders.
fn sync_whole<D: Disk>(alloc: Global, repo: &mut D, stanza: &str) -> Result<(), Halt<StageFault>>
    ensures settled { OnOk result (SettlesFor Whole stanza.now (D.state repo.old).view (D.state repo.new).view) }
    ensures members { OnOk result (SyncsArchivePair stanza.now (D.state repo.old) (D.state repo.new)) }
    ensures looks { OnlyReads (D.state repo.old) (D.state repo.new) }
    ensures cause { IfErr result (RepoCause (λ _. Never) (D.state repo.old) (D.state repo.new)) }
{
    match begin(alloc, repo, stanza) {
        Ok(()) => Ok(()),
        Err(StoreFault::Disk) => Err(Halt::Failed(Object::Repo)),
        Err(StoreFault::TooLong { .. } | StoreFault::NoMemory) => Err(Halt::NoMemory),
    }
}

fn pair_folder(alloc: Global, stanza: &str) -> Result<String, AllocError>
    ensures { IfOk result (λ folder. string_bytes folder ≡ archive_folder stanza.now) }
{
    format!(in alloc; "archive/{stanza}")
}

// Syncs the folder of the archive pair.
fn sync_pair<D: Disk>(alloc: Global, repo: &mut D, stanza: &str) -> Result<(), Halt<StageFault>>
    ensures settled { OnOk result (SettlesFor Looked stanza.now (D.state repo.old).view (D.state repo.new).view) }
    ensures members { OnOk result (SyncsArchivePair stanza.now (D.state repo.old) (D.state repo.new)) }
    ensures looks { OnlyReads (D.state repo.old) (D.state repo.new) }
    ensures cause { IfErr result (RepoCause (λ _. Never) (D.state repo.old) (D.state repo.new)) }
{
    let folder = pair_folder(alloc, stanza)?;
    match repo.sync_directory(&folder) {
        Ok(()) => Ok(()),
        Err(error) => Err(halted(Object::Repo, error)),
    }
}

// Syncs what is looked at before the command's own part.
fn sync_directories<D: Disk>(
    alloc: Global,
    repo: &mut D,
    stanza: &str,
    sync_scope: SyncScope,
) -> Result<(), Halt<StageFault>>
    ensures settled { OnOk result (SettlesFor sync_scope stanza.now (D.state repo.old).view (D.state repo.new).view) }
    ensures members { OnOk result (SyncsArchivePair stanza.now (D.state repo.old) (D.state repo.new)) }
    ensures looks { OnlyReads (D.state repo.old) (D.state repo.new) }
    ensures cause { IfErr result (RepoCause (λ _. Never) (D.state repo.old) (D.state repo.new)) }
{
    match sync_scope {
        SyncScope::Whole => sync_whole(alloc, repo, stanza),
        SyncScope::Looked => sync_pair(alloc, repo, stanza),
    }
}

// Reads the control file, and reads or heals the pairs.
fn find<D: Disk, T: DataFolder>(
    alloc: Global,
    repo: &mut D,
    tree: &mut T,
    stanza: &str,
    plan: &Plan,
) -> Result<Ready, Halt<StageFault>>
    ensures ready { IfOk result (IsReady plan.now stanza.now (D.state repo.new).view.now (T.state tree.old).nodes) }
    ensures heals_pair { HealsPair stanza.now (D.state repo.old).view (D.state repo.new).view }
    ensures lasts { OnOk result (KeepsArchivePair stanza.now (D.state repo.old) (D.state repo.new)) }
    ensures heals { OnOk result (HealsBy plan.now stanza.now (D.state repo.old) (D.state repo.new)) }
    ensures healed { OnOk result (IfSome (D.state repo.new).view.now (AreHealed plan.now.pairs stanza.now)) }
    ensures synced { StaysSynced stanza.now (D.state repo.old).view (D.state repo.new).view }
    ensures changes { ChangesPair stanza.now (D.state repo.old).view (D.state repo.new).view }
    ensures still { OnReading plan.now.pairs (IsStill (D.state repo.old).view (D.state repo.new).view) }
    ensures frame { CallsProperly (D.state repo.old) (D.state repo.new) }
    ensures looks { OnlyReadsFolder (T.state tree.old) (T.state tree.new) }
    ensures unread { plan.now.control ≡ false → tree.new ≡ tree.old }
    ensures cause { IfErr result (NotReady D.state T.state plan.now stanza.now repo.old repo.new tree.old tree.new) }
{
    let control = cluster_by(alloc, tree, plan.control)?;
    let archive = archive_by(alloc, repo, stanza, plan.pairs)?;
    let backup = backup_by(alloc, repo, stanza, plan.pairs)?;
    Ok(Ready {
        control,
        archive,
        backup,
    })
}
