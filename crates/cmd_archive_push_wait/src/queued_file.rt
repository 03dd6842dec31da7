// Queues a file for other processes.
ghost use Rattle.std.specs.Prelude.{◌≤◌, map, is_ok, IfErr, OnOk, string_bytes};
ghost use Rattle.base_text.specs.Sum.{IsSum};
ghost use Rattle.base_devices.specs.States.{CallsProperly};
ghost use Rattle.cmd_archive_push_wait.specs.Between.{MayStart, TakesFew, Skips, WentByStanza, AcknowledgesFile, QueueEnds};

use crate::fault::QueueFault;
use crate::mark_lookup::look;
use crate::turn_wait::wait_turn;
use archive_lookup::OtherProcesses;
use archive_spool::Asked;
use base_devices::Disk;
use base_model::ArchiveName;
use base_text::Sum;
use cmd_types::{Halt, Object, halted};
use std::alloc::Global;

/// Queues a file with this sum for a drain that is started with these arguments, where the spool says nothing of it,
/// and waits for that drain, for this many steps of other processes at most. pgBackRest's options `archive-async`,
/// `archive-timeout`.
pub fn queue_file<D: Disk, S: Disk, A: OtherProcesses<D, S>>(
    alloc: Global,
    repo: &mut D,
    spool: &mut S,
    processes: &mut A,
    stanza: &str,
    name: ArchiveName,
    sum: &Sum,
    arguments: &[String],
    turns: u64,
) -> Result<(), Halt<QueueFault>>
    requires { IsSum sum.now.0 }
    // It is acknowledged only where a drain has stored a file of this name and sum.
    ensures stored { OnOk result (AcknowledgesFile A.state D.state S.state stanza.now name sum.now.0
        processes.old processes.new repo.old repo.new spool.old) }

    // The steps of other processes are all that was done.
    ensures went { WentByStanza A.state D.state S.state stanza.now (is_ok result)
        processes.old processes.new repo.old repo.new spool.old spool.new }
    ensures repo_frame { CallsProperly (D.state repo.old) (D.state repo.new) }
    ensures spool_frame { CallsProperly (S.state spool.old) (S.state spool.new) }
    ensures few { TakesFew turns (A.state processes.old) (A.state processes.new) }
    ensures started { MayStart (map string_bytes arguments.now) (A.state processes.old) (A.state processes.new) }
    ensures later { (A.state processes.old).faults ≤ (A.state processes.new).faults }
    ensures quiet { Skips stanza.now name sum.now.0 (S.state spool.old) processes.old processes.new repo.old repo.new }

    ensures cause { IfErr result (QueueEnds A.state D.state S.state
        stanza.now name sum.now.0 (map string_bytes arguments.now) turns
        processes.old processes.new repo.old repo.new spool.old spool.new) }
{
    match look(alloc, spool, stanza, name, sum) {
        Ok(Asked::NotYet) => {}
        Ok(Asked::Done) => return Ok(()),
        Ok(Asked::Reported { code, text }) => {
            return Err(Halt::Refused(QueueFault::Reported { code, text }));
        }
        Err(halt) => return Err(halt),
    }
    if let Err(error) = processes.start(arguments) {
        return Err(halted(Object::Others, error));
    }
    for _ in 0..turns {
        if let Err(halt) = wait_turn(repo, spool, processes) {
            return Err(halt);
        }
        match look(alloc, spool, stanza, name, sum) {
            Ok(Asked::NotYet) => {}
            Ok(Asked::Done) => return Ok(()),
            Ok(Asked::Reported { code, text }) => {
                return Err(Halt::Refused(QueueFault::Reported { code, text }));
            }
            Err(halt) => return Err(halt),
        }
    }
    Err(Halt::Refused(QueueFault::NotYet { turns }))
}
