// The wait for the segments that an online backup needs.
ghost use Rattle.std.specs.Prelude.{◌≡◌, ◌≤◌, ℕ, is_ok, IfErr, IfSome, OnOk, OnErr};
ghost use Rattle.base_devices.specs.States.{CallsProperly};
ghost use Rattle.base_model.specs.ManifestText.{IsWalPart};
ghost use Rattle.base_model.specs.Text.{Text};
ghost use Rattle.archive_wait.specs.Stored.{HoldsPart, Endures, Idles};
ghost use Rattle.archive_wait.specs.TurnsDone.{Counts, WentByTurns, CountsTurn};
ghost use Rattle.archive_wait.specs.Causes.{TurnEnds, WaitEnds};

use crate::fault::{AwaitFault, turn_fault};
use crate::missing_segment::first_missing;
use archive_lookup::OtherProcesses;
use base_devices::Disk;
use base_model::{ArchiveId, WalPart};
use std::alloc::Global;

// Waits for one step of others.
fn wait_turn<D: Disk, S: Disk, A: OtherProcesses<D, S>>(
    repo: &mut D,
    spool: &mut S,
    processes: &mut A,
) -> Result<(), AwaitFault>
    ensures went { WentByTurns A.state D.state S.state (is_ok result) processes.old processes.new
        repo.old repo.new spool.old spool.new }
    ensures repo_frame { CallsProperly (D.state repo.old) (D.state repo.new) }
    ensures spool_frame { CallsProperly (S.state spool.old) (S.state spool.new) }
    ensures started { (A.state processes.new).started ≡ (A.state processes.old).started }
    ensures counted { OnOk result (CountsTurn (A.state processes.old) (A.state processes.new)) }
    ensures uncounted { OnErr result ((A.state processes.new).turns ≡ (A.state processes.old).turns) }
    ensures later { (A.state processes.old).faults ≤ (A.state processes.new).faults }
    ensures cause { IfErr result (TurnEnds D.state S.state repo.old repo.new spool.old spool.new) }
{
    match processes.turn(repo, spool) {
        Ok(()) => Ok(()),
        Err(error) => Err(turn_fault(error)),
    }
}

/// Waits until each segment of the part is archived under the id, for this many steps of other processes at most. Where
/// none is missing no step of others is taken. pgBackRest's option `archive-timeout`.
pub fn await_segments<D: Disk, S: Disk, A: OtherProcesses<D, S>>(
    alloc: Global,
    repo: &mut D,
    spool: &mut S,
    processes: &mut A,
    stanza: &str,
    id: &ArchiveId,
    wal: &WalPart,
    turns: u64,
) -> Result<(), AwaitFault>
    requires { IsWalPart wal.now }
    // Each segment is archived, and stays so in all that a crash leaves.
    ensures archived { OnOk result (IfSome (D.state repo.new).view.now (HoldsPart stanza.now id.now wal.now)) }
    ensures lasting { OnOk result (Endures A.state D.state stanza.now id.now wal.now processes.new repo.old repo.new) }

    // The steps of other processes are all that was done.
    ensures went { WentByTurns A.state D.state S.state (is_ok result) processes.old processes.new
        repo.old repo.new spool.old spool.new }
    ensures repo_frame { CallsProperly (D.state repo.old) (D.state repo.new) }
    ensures spool_frame { CallsProperly (S.state spool.old) (S.state spool.new) }
    ensures started { (A.state processes.new).started ≡ (A.state processes.old).started }
    ensures few { (n : ℕ) × (n ≤ turns) × Counts n (A.state processes.old).turns (A.state processes.new).turns }
    ensures later { (A.state processes.old).faults ≤ (A.state processes.new).faults }
    ensures quiet { Idles stanza.now id.now wal.now (D.state repo.old) processes.old processes.new spool.old spool.new }

    ensures cause { IfErr result (WaitEnds A.state D.state S.state stanza.now id.now wal.now turns
        processes.old processes.new repo.old repo.new spool.old spool.new) }
{
    for _ in 0..turns {
        match first_missing(alloc, repo, stanza, id, wal) {
            Ok(None) => return Ok(()),
            Ok(Some(_)) => {}
            Err(fault) => return Err(fault),
        }
        if let Err(fault) = wait_turn(repo, spool, processes) {
            return Err(fault);
        }
    }
    match first_missing(alloc, repo, stanza, id, wal) {
        Ok(None) => Ok(()),
        Ok(Some(segment)) => Err(AwaitFault::NotArrived { segment, turns }),
        Err(fault) => Err(fault),
    }
}
