// archive-push in the background: the file is queued for archive-push:async.
ghost use Rattle.std.specs.Prelude.{◌≤◌, map, IfOk, IfErr, string_bytes};
ghost use Rattle.base_devices.specs.States.{CallsProperly, OnlyReadsFolder};
ghost use Rattle.cmd_archive_push_wait.specs.Between.{MayStart, TakesFew, StayBeside, WaitsByTurns, AcknowledgesLog, QueuePushEnds};

use crate::fault::QueueFault;
use crate::log_file_sum::sum_file;
use crate::queued_file::queue_file;
use archive_lookup::OtherProcesses;
use base_devices::{DataFolder, Disk};
use cmd_archive_push::PushOrder;
use cmd_types::{Halt, Outcome};
use std::alloc::Global;

/// Queues the file that the order names for a drain that is started with these arguments, and waits for it, for this
/// many steps of other processes at most.
pub fn queue_push<D: Disk, S: Disk, T: DataFolder, A: OtherProcesses<D, S>>(
    alloc: Global,
    repo: &mut D,
    spool: &mut S,
    tree: &mut T,
    processes: &mut A,
    stanza: &str,
    order: &PushOrder<'_>,
    arguments: &[String],
    turns: u64,
) -> Result<Outcome, Halt<QueueFault>>
    // It is acknowledged only where a drain has stored the bytes that the data folder has.
    ensures stored { IfOk result (AcknowledgesLog A.state D.state S.state T.state stanza.now order.now
        processes.old processes.new repo.old repo.new spool.old tree.old) }
    // In the log it is the steps of others that it waited for: all of them at Ok, and a part after every answer.
    ensures takes { WaitsByTurns A.state D.state S.state stanza.now result
        processes.old processes.new repo.old repo.new spool.old spool.new }
    ensures beside { StayBeside A.state D.state S.state stanza.now processes.new repo.old repo.new spool.old spool.new }
    ensures repo_frame { CallsProperly (D.state repo.old) (D.state repo.new) }
    ensures spool_frame { CallsProperly (S.state spool.old) (S.state spool.new) }
    ensures looks { OnlyReadsFolder (T.state tree.old) (T.state tree.new) }
    ensures few { TakesFew turns (A.state processes.old) (A.state processes.new) }
    ensures started { MayStart (map string_bytes arguments.now) (A.state processes.old) (A.state processes.new) }
    ensures later { (A.state processes.old).faults ≤ (A.state processes.new).faults }
    ensures cause { IfErr result (QueuePushEnds A.state D.state S.state T.state
        stanza.now order.now (map string_bytes arguments.now) turns
        processes.old processes.new repo.old repo.new spool.old spool.new tree.old tree.new) }
{
    let sum = match sum_file(alloc, tree, order) {
        Ok(sum) => sum,
        Err(halt) => return Err(halt),
    };
    match queue_file(
        alloc, repo, spool, processes, stanza, order.name, &sum, arguments, turns,
    ) {
        Ok(()) => Ok(Outcome::Finished {
            lines: String::new(alloc),
        }),
        Err(halt) => Err(halt),
    }
}
