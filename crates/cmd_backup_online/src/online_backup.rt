// backup of a running server.
ghost use Rattle.std.specs.Prelude.{◌≡◌, ◌∷◌, [], ◌≤◌, ◌<◌, ◌^◌, vec_len, IfOk, IfErr, OnOk};
ghost use Rattle.base_devices.specs.States.{CallsProperly, OnlyReadsFolder};
ghost use Rattle.worker_pool.specs.Pools.{links_in};
ghost use Rattle.worker_pool.specs.Run.{AreReady};
ghost use Rattle.cmd_types.specs.Plans.{backup_lock};
ghost use Rattle.cmd_setup.specs.Readies.{IsArchiveOf, IsBackupOf};
ghost use Rattle.cmd_backup_online.specs.Halting.{OnlineHalts};
ghost use Rattle.cmd_backup_online.specs.Running.{StaysIn, LeavesServer, SendsTalk, TurnsWithin};
ghost use Rattle.cmd_backup_online.specs.Tasks.{DoesTask, MarksTask, TakesTask};
ghost use Rattle.cmd_backup_online.specs.Touching.{TouchesIn};

use crate::backup_finish::{NeededLog, conclude, end_backup, wait};
use crate::fault::{OnlineBackupFault, of_offline};
use crate::online_checks::{Prepared, prepare};
use crate::online_read::Gathered;
use crate::order::{OnlineTask, ServerTask};
use crate::server_session::talk;
use archive_lookup::OtherProcesses;
use base_devices::{Clock, DataFolder, Disk, Link, Locks, Scheduler, ServerConnection};
use cmd_backup_offline::{BackupBasis, files_of};
use cmd_types::{Halt, Outcome};
use std::alloc::Global;
use worker_pool::Pool;

/// Makes a backup of the data folder of a running server, and lists it as the stanza's last. It is of the kind that is
/// asked for, and a full one where there is no backup on which it could be based. The first links read the folder, as
/// many as the order has workers, while the server is in its backup; the others aren't used. It is listed once each
/// segment of its part of the log is archived. As long as it has the lock nobody can release it.
pub fn back_up_online<
    D: Disk,
    S: Disk,
    T: DataFolder,
    V: ServerConnection,
    A: OtherProcesses<D, S>,
    C: Clock,
    K: Locks,
    L: Link,
    U: Scheduler,
>(
    alloc: Global,
    repo: &mut D,
    spool: &mut S,
    tree: &mut T,
    server: &mut V,
    processes: &mut A,
    clock: &mut C,
    _locks: &K,
    pool: &mut Pool<L, U>,
    task: OnlineTask<'_>,
) -> Result<Outcome, Halt<OnlineBackupFault>>
    requires locked { (K.state _locks.now).taken ≡ backup_lock task.stanza.name.now ∷ [] }
    requires few { vec_len pool.old.links < 2 ^ 32 }
    requires ready { AreReady (links_in L.link_state pool.old) }
    requires archive { IsArchiveOf task.stanza.name.now (D.state repo.old).view.now task.stanza.archive.now }
    requires backup { IsBackupOf task.stanza.name.now (D.state repo.old).view.now task.stanza.backup }

    // In the log it is a backup of what the used links read, and, unless it is a full one, of what its prior has,
    // after the steps of others that it waited for.
    ensures does { DoesTask task.entry L.link_state pool.old result V.state server.old server.new
        A.state processes.old processes.new D.state repo.old repo.new }
    ensures marks { MarksTask task.entry result A.state processes.old processes.new
        (D.state repo.old) S.state spool.old spool.new }
    ensures taken { IfOk result (TakesTask task.entry L.link_state pool.old (T.state tree.old)
        V.state server.old server.new A.state processes.old processes.new D.state repo.old repo.new
        C.state clock.old clock.new) }

    // Whatever the repository holds, nothing changes but names of this backup, the pair of the list, and what others
    // change in the archive, where their steps are known.
    ensures only { TouchesIn task.entry.stanza.name.now (A.state processes.new) D.state repo.old repo.new }
    ensures beside { StaysIn task.entry.stanza.name.now (A.state processes.new) D.state repo.old repo.new }
    ensures spool_beside { StaysIn task.entry.stanza.name.now (A.state processes.new) S.state spool.old spool.new }

    // The talk with the server is ended, where it began: what is refused before is refused as any backup may be.
    ensures sent { OnOk result (SendsTalk task.entry.order (V.state server.old) (V.state server.new)) }
    ensures place { OnOk result ((V.state server.new).place ≡ task.entry.order.socket.now) }
    ensures ended { IfErr result (LeavesServer (V.state server.old) (V.state server.new)) }

    ensures frame { CallsProperly (D.state repo.old) (D.state repo.new) }
    ensures spool_frame { CallsProperly (S.state spool.old) (S.state spool.new) }
    ensures looks { OnlyReadsFolder (T.state tree.old) (T.state tree.new) }
    ensures started { (A.state processes.new).started ≡ (A.state processes.old).started }
    ensures few { TurnsWithin task.entry.order.archive_timeout (A.state processes.old) (A.state processes.new) }
    ensures server_later { (V.state server.old).faults ≤ (V.state server.new).faults }
    ensures processes_later { (A.state processes.old).faults ≤ (A.state processes.new).faults }
    ensures least { (C.state clock.old).least ≤ (C.state clock.new).least }
    ensures later { (C.state clock.old).faults ≤ (C.state clock.new).faults }
    ensures cause { IfErr result (OnlineHalts task.entry L.link_state pool.old A.state processes.old processes.new
        D.state repo.old repo.new S.state spool.old spool.new T.state tree.old tree.new
        V.state server.old server.new C.state clock.old clock.new) }
{
    let OnlineTask {
        order,
        stanza: known,
    } = task;
    let stanza = known.name;
    let system = known.control.system;
    let prepared = match prepare(alloc, repo, clock, pool, &order.later, known) {
        Ok(prepared) => prepared,
        Err(halt) => return Err(of_offline(halt)),
    };
    let Prepared { next, base } = prepared;
    let old = files_of(&base);
    let basis = BackupBasis {
        stanza,
        order: order.later,
        old,
    };
    let asked = ServerTask {
        order,
        system,
        basis,
        next,
    };
    let (gathered, online) = talk(alloc, repo, tree, server, clock, pool, asked)?;
    let Gathered {
        fetched,
        label,
        id,
        lines,
    } = gathered;
    let needed = NeededLog {
        id,
        wal: online.wal,
        most: order.archive_timeout,
    };
    let closed = end_backup(alloc, repo, clock, stanza, &label, fetched, online)?;
    wait(alloc, repo, spool, processes, stanza, &needed)?;
    conclude(alloc, repo, stanza, &label, lines, closed)
}
