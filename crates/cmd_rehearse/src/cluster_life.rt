// The life of a cluster, from its stanza to its expiry.
ghost use Rattle.std.specs.Prelude.{◌≤◌, IfOk, IfErr, OnOk};
ghost use Rattle.base_devices.specs.States.{CallsProperly, OnlyReadsFolder};
ghost use Rattle.base_model.specs.Steps.{Expire};
ghost use Rattle.base_crash_lists.specs.Beside.{StaysBeside};
ghost use Rattle.worker_pool.specs.Run.{AreReady};
ghost use Rattle.cmd_rehearse.specs.Advancing.{Carries, StaysOpen};
ghost use Rattle.cmd_rehearse.specs.Causes.{StepCause};
ghost use Rattle.cmd_rehearse.specs.Commands.{keeps_one};
ghost use Rattle.cmd_rehearse.specs.Counting.{ShowsLast};
ghost use Rattle.cmd_rehearse.specs.Rehearsing.{CountsExpired};
ghost use Rattle.cmd_rehearse.specs.Calls.{HoldsBoth, RepoHalt, LifeHalt, IsTakenAs, BacksUpFor, Lives};
ghost use Rattle.worker_pool.specs.Pools.{links_in};

use crate::backup_step::{BackupStep, back_up};
use crate::backup_totals::{Amount, Counted, count_last};
use crate::fault::{StepFault, of_expire};
use crate::links::deal_links;
use crate::order::RehearseOrder;
use crate::stanza_setup::prepare_stanza;
use base_devices::{Clock, DataFolder, Disk, Link, Locks, Scheduler};
use base_model::BackupKind;
use base_sample::grow_cluster;
use cmd_types::{Halt, Object, halted};
use expire_make::expire;
use expire_rules::{FullRule, Rules};
use std::alloc::Global;
use worker_pool::Pool;

// One full backup is kept.
const KEEPS_ONE: Rules = Rules {
    full: FullRule::Count(1),
    diff: None,
    archive: None,
    archive_kind: BackupKind::Full,
};

/// The files and bytes that each backup stored itself, and the labels that the expiry removed.
#[derive(Clone, Copy, Debug)]
pub(crate) struct Lived {
    pub first: Amount,
    pub second: Amount,
    pub third: Amount,
    pub expired: usize,
}

// Makes a backup of this kind by links of its own, and counts what it stored itself.
fn back_up_counted<D: Disk, T: DataFolder, C: Clock, K: Locks, L: Link, U: Scheduler>(
    alloc: Global,
    repo: &mut D,
    tree: &mut T,
    clock: &mut C,
    locks: &K,
    pool: &mut Pool<L, U>,
    step: &BackupStep<'_>,
) -> Result<Amount, Halt<StepFault>>
    requires locked { HoldsBoth step.now.stanza.now (K.state locks.now) }
    requires ready { AreReady (links_in L.link_state pool.old) }
    ensures advances { BacksUpFor D.state T.state C.state step.now.stanza.now result
        repo.old repo.new tree.old tree.new clock.old clock.new }
    ensures taken { OnOk result (IsTakenAs step.now (D.state repo.old) (D.state repo.new)) }
    ensures known { IfOk result (ShowsLast step.now.stanza.now step.now.counted (D.state repo.new).view.now) }
    ensures beside { StaysBeside step.now.stanza.now (D.state repo.old).view (D.state repo.new).view }
    ensures frame { CallsProperly (D.state repo.old) (D.state repo.new) }
    ensures looks { OnlyReadsFolder (T.state tree.old) (T.state tree.new) }
    ensures later { (C.state clock.old).faults ≤ (C.state clock.new).faults }
    ensures least { (C.state clock.old).least ≤ (C.state clock.new).least }
    ensures left { AreReady (links_in L.link_state pool.new) }
{
    let others = deal_links(alloc, pool, step.take.workers)?;
    let ended = back_up(alloc, repo, tree, clock, locks, pool, step);
    pool.links = others;
    ended?;
    count_last(alloc, repo, step.stanza, step.counted)
}

// Expires all that one full backup doesn't need, and returns how many backups were removed.
fn let_go<D: Disk>(alloc: Global, repo: &mut D, stanza: &str) -> Result<usize, Halt<StepFault>>
    ensures carries { Carries stanza.now (Expire keeps_one) result (D.state repo.old).view (D.state repo.new).view }
    ensures expired { IfOk result (CountsExpired stanza.now (D.state repo.old).view.now) }
    ensures beside { StaysBeside stanza.now (D.state repo.old).view (D.state repo.new).view }
    ensures frame { CallsProperly (D.state repo.old) (D.state repo.new) }
    ensures cause { IfErr result (RepoHalt (StepCause stanza.now) (D.state repo.old) (D.state repo.new)) }
{
    match expire(alloc, repo, stanza, &KEEPS_ONE, 0) {
        Ok(gone) => Ok(gone.labels.len()),
        Err(fault) => Err(of_expire(fault)),
    }
}

/// Makes the stanza, its segments, a full backup, an incremental one once the cluster has grown, and again a full one,
/// and expires all that one full backup doesn't need.
pub(crate) fn live<D: Disk, T: DataFolder, C: Clock, K: Locks, L: Link, U: Scheduler>(
    alloc: Global,
    repo: &mut D,
    tree: &mut T,
    clock: &mut C,
    locks: &K,
    pool: &mut Pool<L, U>,
    order: &RehearseOrder<'_>,
) -> Result<Lived, Halt<StepFault>>
    requires locked { HoldsBoth order.now.stanza.now (K.state locks.now) }
    requires ready { AreReady (links_in L.link_state pool.old) }
    ensures lives { Lives order.now result (D.state repo.old) (D.state repo.new) }
    ensures beside { StaysBeside order.now.stanza.now (D.state repo.old).view (D.state repo.new).view }
    ensures frame { CallsProperly (D.state repo.old) (D.state repo.new) }
    ensures folder { StaysOpen (T.state tree.old) (T.state tree.new) }
    ensures later { (C.state clock.old).faults ≤ (C.state clock.new).faults }
    ensures least { (C.state clock.old).least ≤ (C.state clock.new).least }
    ensures left { AreReady (links_in L.link_state pool.new) }
    ensures cause { LifeHalt D.state T.state C.state order.now result
        repo.old repo.new tree.old tree.new clock.old clock.new }
{
    let full = BackupStep {
        stanza: order.stanza,
        take: order.take,
        kind: BackupKind::Full,
        counted: Counted::Own,
    };
    let further = BackupStep {
        kind: BackupKind::Incr,
        counted: Counted::Filled,
        ..full
    };
    prepare_stanza(alloc, repo, locks, order.stanza, order.number)?;
    let first = back_up_counted(alloc, repo, tree, clock, locks, pool, &full)?;
    if let Err(error) = grow_cluster(alloc, tree, order.number) {
        return Err(halted(Object::TheDataFolder, error));
    }
    let second = back_up_counted(alloc, repo, tree, clock, locks, pool, &further)?;
    let third = back_up_counted(alloc, repo, tree, clock, locks, pool, &full)?;
    let expired = let_go(alloc, repo, order.stanza)?;
    Ok(Lived {
        first,
        second,
        third,
        expired,
    })
}
