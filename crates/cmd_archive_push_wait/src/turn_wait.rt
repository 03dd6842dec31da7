// A step of other processes.
ghost use Rattle.std.specs.Prelude.{◌≡◌, ◌≤◌, is_ok, IfErr, OnOk, OnErr};
ghost use Rattle.base_devices.specs.States.{CallsProperly};
ghost use Rattle.cmd_archive_push_wait.specs.Between.{TurnStops, TookTurn};
ghost use Rattle.archive_wait.specs.TurnsDone.{CountsTurn};

use crate::fault::{QueueFault, of_turn};
use archive_lookup::OtherProcesses;
use base_devices::Disk;
use cmd_types::Halt;

/// Waits for one step of others.
pub(crate) fn wait_turn<D: Disk, S: Disk, A: OtherProcesses<D, S>>(
    repo: &mut D,
    spool: &mut S,
    processes: &mut A,
) -> Result<(), Halt<QueueFault>>
    ensures turn { TookTurn A.state D.state S.state (is_ok result)
        processes.old processes.new repo.old repo.new spool.old spool.new }
    ensures repo_frame { CallsProperly (D.state repo.old) (D.state repo.new) }
    ensures spool_frame { CallsProperly (S.state spool.old) (S.state spool.new) }
    ensures started { (A.state processes.new).started ≡ (A.state processes.old).started }
    ensures counted { OnOk result (CountsTurn (A.state processes.old) (A.state processes.new)) }
    ensures uncounted { OnErr result ((A.state processes.new).turns ≡ (A.state processes.old).turns) }
    ensures later { (A.state processes.old).faults ≤ (A.state processes.new).faults }
    ensures cause { IfErr result (TurnStops D.state S.state repo.old repo.new spool.old spool.new) }
{
    match processes.turn(repo, spool) {
        Ok(()) => Ok(()),
        Err(error) => Err(of_turn(error)),
    }
}
