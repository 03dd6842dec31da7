// Restores the last backup over a damaged data folder, and verifies the repository.
ghost use Rattle.std.specs.Prelude.{◌≡◌, true, IfOk, IfErr, OnOk};
ghost use Rattle.base_devices.specs.States.{OnlyReads};
ghost use Rattle.base_model.specs.StanzaName.{is_stanza};
ghost use Rattle.worker_pool.specs.Pools.{links_in};
ghost use Rattle.worker_pool.specs.Run.{AreReady};
ghost use Rattle.cmd_verify.specs.Verifying.{IsVerified, EndsWithNone};
ghost use Rattle.cmd_rehearse.specs.declared.backup_totals.Counted.TheVariants.{All as TheAll};
ghost use Rattle.cmd_rehearse.specs.Advancing.{StaysOpen};
ghost use Rattle.cmd_rehearse.specs.Causes.{StepCause};
ghost use Rattle.cmd_rehearse.specs.Counting.{ShowsLast};
ghost use Rattle.cmd_rehearse.specs.Rehearsing.{CountsStored, ComesTo};
ghost use Rattle.cmd_rehearse.specs.Calls.{RepoHalt, EndHalt, RestoresLast, ComesToEnd};

use crate::backup_step::read_backup;
use crate::backup_totals::{Amount, Counted, count_last};
use crate::fault::{StepFault, of_all, of_examine, of_restore};
use crate::links::deal_links;
use crate::order::RehearseOrder;
use crate::stanza_setup::read_archive;
use archive_lookup::all;
use base_devices::{DataFolder, Disk, Link, Scheduler};
use base_sample::spoil_cluster;
use cmd_restore::{InfoValues, RecoverOrder, RecoveryType, restore_backup};
use cmd_types::{Halt, Object, Outcome, halted};
use cmd_verify::verify_stanza;
use restore_choice::{Bounds, Choice};
use std::alloc::Global;
use worker_pool::Pool;

/// How many files are archived, how many files and bytes are restored, and what a verification reported.
#[derive(Drop)]
pub(crate) struct RehearsalEnd {
    pub kept: usize,
    pub restored: Amount,
    pub found: Outcome,
}

// The last backup, whichever that is.
const ANY: Bounds = Bounds {
    deadline: None,
    timeline: None,
};

// Restores the last backup by its digests, by links of its own: the others aren't needed any more. No recovery is asked
// for.
fn restore_last<D: Disk, T: DataFolder, L: Link, U: Scheduler>(
    alloc: Global,
    repo: &mut D,
    tree: &mut T,
    pool: &mut Pool<L, U>,
    order: &RehearseOrder<'_>,
) -> Result<(), Halt<StepFault>>
    requires ready { AreReady (links_in L.link_state pool.old) }
    requires stanza { is_stanza order.now.stanza.now ≡ true }
    ensures restored { OnOk result (RestoresLast order.now (D.state repo.old) (T.state tree.new)) }
    ensures looks { OnlyReads (D.state repo.old) (D.state repo.new) }
    ensures folder { StaysOpen (T.state tree.old) (T.state tree.new) }
    ensures cause { IfErr result (EndHalt D.state T.state order.now repo.old repo.new tree.old tree.new) }
{
    let archive = read_archive(alloc, repo, order.stanza)?;
    let backup = read_backup(alloc, repo, order.stanza)?;
    let _others = deal_links(alloc, pool, order.take.workers)?;
    let recover = RecoverOrder {
        data_folder: order.take.data_folder,
        repository: order.take.repository,
        choice: Choice::Last(ANY),
        workers: order.take.workers,
        delta: true,
        recovery: RecoveryType::Nothing,
    };
    let pairs = InfoValues {
        archive: &archive,
        backup: &backup,
    };
    let restored = restore_backup(alloc, repo, tree, pool, order.stanza, &recover, pairs);
    match restored {
        Ok(_) => Ok(()),
        Err(halt) => Err(of_restore(halt)),
    }
}

// How many files are archived.
fn count_stored<D: Disk>(
    alloc: Global,
    repo: &mut D,
    stanza: &str,
) -> Result<usize, Halt<StepFault>>
    ensures stored { IfOk result (CountsStored stanza.now (D.state repo.old).view.now) }
    ensures looks { OnlyReads (D.state repo.old) (D.state repo.new) }
    ensures cause { IfErr result (RepoHalt (StepCause stanza.now) (D.state repo.old) (D.state repo.new)) }
{
    match all(alloc, repo, stanza) {
        Ok(files) => Ok(files.len()),
        Err(fault) => Err(of_all(fault)),
    }
}

// Verifies the repository.
fn verify_all<D: Disk>(
    alloc: Global,
    repo: &mut D,
    stanza: &str,
) -> Result<Outcome, Halt<StepFault>>
    ensures examined { IfOk result (IsVerified stanza.now (D.state repo.old).view.now) }
    ensures sound { IfOk result (EndsWithNone stanza.now (D.state repo.old).view.now) }
    ensures looks { OnlyReads (D.state repo.old) (D.state repo.new) }
    ensures cause { IfErr result (RepoHalt (StepCause stanza.now) (D.state repo.old) (D.state repo.new)) }
{
    let backup = read_backup(alloc, repo, stanza)?;
    match verify_stanza(alloc, repo, stanza, &backup) {
        Ok(outcome) => Ok(outcome),
        Err(halt) => Err(of_examine(halt)),
    }
}

// The end of a rehearsal in the repository.
fn look_around<D: Disk>(
    alloc: Global,
    repo: &mut D,
    stanza: &str,
) -> Result<RehearsalEnd, Halt<StepFault>>
    ensures ended { IfOk result (λ e. ComesTo stanza.now (D.state repo.old).view.now e.kept e.restored e.found) }
    ensures looks { OnlyReads (D.state repo.old) (D.state repo.new) }
    ensures cause { IfErr result (RepoHalt (StepCause stanza.now) (D.state repo.old) (D.state repo.new)) }
{
    let kept = count_stored(alloc, repo, stanza)?;
    let restored = count_last(alloc, repo, stanza, Counted::All)?;
    let found = verify_all(alloc, repo, stanza)?;
    Ok(RehearsalEnd {
        kept,
        restored,
        found,
    })
}

/// Restores the damaged data folder, and verifies the repository.
pub(crate) fn end<D: Disk, T: DataFolder, L: Link, U: Scheduler>(
    alloc: Global,
    repo: &mut D,
    tree: &mut T,
    pool: &mut Pool<L, U>,
    order: &RehearseOrder<'_>,
) -> Result<RehearsalEnd, Halt<StepFault>>
    requires ready { AreReady (links_in L.link_state pool.old) }
    requires stanza { is_stanza order.now.stanza.now ≡ true }
    ensures ended { IfOk result (ComesToEnd order.now (D.state repo.old) (T.state tree.new)) }
    ensures looks { OnlyReads (D.state repo.old) (D.state repo.new) }
    ensures folder { StaysOpen (T.state tree.old) (T.state tree.new) }
    ensures cause { IfErr result (EndHalt D.state T.state order.now repo.old repo.new tree.old tree.new) }
{
    if let Err(error) = spoil_cluster(alloc, tree) {
        return Err(halted(Object::TheDataFolder, error));
    }
    restore_last(alloc, repo, tree, pool, order)?;
    look_around(alloc, repo, order.stanza)
}
