// Makes a backup.
ghost use Rattle.std.specs.Prelude.{◌≤◌, ◌<◌, ◌^◌, vec_len, IfOk, IfErr, OnOk};
ghost use Rattle.base_devices.specs.States.{CallsProperly, OnlyReads, OnlyReadsFolder};
ghost use Rattle.base_crash_lists.specs.Beside.{StaysBeside};
ghost use Rattle.worker_pool.specs.Pools.{links_in};
ghost use Rattle.worker_pool.specs.Run.{AreReady};
ghost use Rattle.cmd_types.specs.Plans.{backup_lock};
ghost use Rattle.cmd_setup.specs.Readies.{IsBackupOf};
ghost use Rattle.cmd_backup_offline.specs.Held.{IsHeld};
ghost use Rattle.cmd_rehearse.specs.Causes.{LostCause};
ghost use Rattle.cmd_rehearse.specs.Calls.{RepoHalt, BackupHalt, IsTakenAs, BacksUp};

use crate::backup_totals::Counted;
use crate::fault::{StepFault, of_info, of_offline};
use crate::stanza_setup::{SAMPLE, read_archive};
use backup_plan::PlanSettings;
use base_devices::{Clock, DataFolder, Disk, Link, Locks, Scheduler};
use base_model::{BackupInfo, BackupKind};
use cmd_backup_common::{KnownStanza, TakeOrder};
use cmd_backup_offline::{OfflineOrder, OfflineTask, back_up_offline};
use cmd_types::Halt;
use repo_pair::load_pair;
use repo_stanza::backup_info_name;
use std::alloc::Global;
use worker_pool::Pool;

/// A backup of a rehearsal: of which stanza and what, of which kind, and which of its files are counted.
#[derive(Clone, Copy)]
pub(crate) struct BackupStep<'a> {
    pub stanza: &'a str,
    pub take: TakeOrder<'a>,
    pub kind: BackupKind,
    pub counted: Counted,
}

// No bundles, and files are distinguished by their times.
const SETTINGS: PlanSettings = PlanSettings {
    delta: false,
    bundle: false,
    bundle_size: 1 << 20,
    bundle_limit: 1 << 20,
};

/// The value of the backup pair.
pub(crate) fn read_backup<D: Disk>(
    alloc: Global,
    repo: &mut D,
    stanza: &str,
) -> Result<BackupInfo, Halt<StepFault>>
    ensures found { IfOk result (IsBackupOf stanza.now (D.state repo.old).view.now) }
    ensures looks { OnlyReads (D.state repo.old) (D.state repo.new) }
    ensures cause { IfErr result (RepoHalt (LostCause stanza.now) (D.state repo.old) (D.state repo.new)) }
{
    let name = backup_info_name(alloc, stanza)?;
    match load_pair(alloc, repo, name.as_str()) {
        Ok(info) => Ok(info),
        Err(fault) => Err(of_info(fault)),
    }
}

/// Makes a backup of the data folder, of the kind that is asked for.
pub(crate) fn back_up<D: Disk, T: DataFolder, C: Clock, K: Locks, L: Link, U: Scheduler>(
    alloc: Global,
    repo: &mut D,
    tree: &mut T,
    clock: &mut C,
    locks: &K,
    pool: &mut Pool<L, U>,
    step: &BackupStep<'_>,
) -> Result<(), Halt<StepFault>>
    requires locked { IsHeld (backup_lock step.now.stanza.now) (K.state locks.now).taken }
    requires few { vec_len pool.old.links < 2 ^ 32 }
    requires ready { AreReady (links_in L.link_state pool.old) }
    ensures advances { BacksUp step.now.stanza.now result (D.state repo.old) (D.state repo.new) }
    ensures taken { OnOk result (IsTakenAs step.now (D.state repo.old) (D.state repo.new)) }
    ensures beside { StaysBeside step.now.stanza.now (D.state repo.old).view (D.state repo.new).view }
    ensures frame { CallsProperly (D.state repo.old) (D.state repo.new) }
    ensures looks { OnlyReadsFolder (T.state tree.old) (T.state tree.new) }
    ensures later { (C.state clock.old).faults ≤ (C.state clock.new).faults }
    ensures least { (C.state clock.old).least ≤ (C.state clock.new).least }
    ensures cause { BackupHalt D.state T.state C.state step.now result
        repo.old repo.new tree.old tree.new clock.old clock.new }
{
    let archive = read_archive(alloc, repo, step.stanza)?;
    let backup = read_backup(alloc, repo, step.stanza)?;
    let task = OfflineTask {
        order: OfflineOrder {
            take: step.take,
            kind: step.kind,
            settings: SETTINGS,
        },
        stanza: KnownStanza {
            name: step.stanza,
            control: &SAMPLE,
            archive: &archive,
            backup,
        },
    };
    match back_up_offline(alloc, repo, tree, clock, locks, pool, task) {
        Ok(_) => Ok(()),
        Err(halt) => Err(of_offline(halt)),
    }
}
