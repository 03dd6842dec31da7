// Asks the server to start and to stop its backup, and reads the data folder between them.
ghost use Rattle.std.specs.Prelude.{◌≡◌, ◌⊎◌, ◌≤◌, ◌<◌, ◌^◌, vec_len, string_bytes, IfOk, IfErr, OnOk, OnErr};
ghost use Rattle.base_devices.specs.States.{CallsProperly, OnlyReadsFolder};
ghost use Rattle.base_model.specs.InfoFiles.{IsBackupInfo};
ghost use Rattle.base_model.specs.ManifestText.{IsSegSize, IsWalPart};
ghost use Rattle.base_model.specs.Values.{backup_info_of};
ghost use Rattle.worker_pool.specs.Pools.{links_in};
ghost use Rattle.worker_pool.specs.Run.{AreReady};
ghost use Rattle.base_crash_lists.specs.Beside.{StaysBeside};
ghost use Rattle.backup_make.specs.Online.{IsOnline, online_of};
ghost use Rattle.cmd_backup_common.specs.Seconds.{IsNext};
ghost use Rattle.cmd_types.specs.declared.stages.halt.Halt.TheVariants.{NoMemory as OutOfMemory};
ghost use Rattle.cmd_backup_offline.specs.Basis.{MayBeBasis};
ghost use Rattle.cmd_backup_online.specs.Faults.{of_backup};
ghost use Rattle.cmd_backup_online.specs.Halting.{StopHalts, TalkHalts};
ghost use Rattle.cmd_backup_online.specs.Running.{BeginsAt, GivesUpOn, LeavesTalk, ReportsBoth, SendsStop, SendsTalk, StopsBetween, TalkGathers};
ghost use Rattle.cmd_backup_online.specs.Touching.{TouchesNext};

use crate::fault::{OnlineBackupFault, of_backup, of_talk};
use crate::online_read::{Gathered, gather};
use crate::order::ServerTask;
use backup_make::Online;
use base_devices::{Clock, DataFolder, Disk, Link, Scheduler, ServerConnection};
use cmd_backup_common::BackupFault;
use cmd_types::Halt;
use server_talk::{Begun, Finished, abandon, start, stop};
use std::alloc::Global;
use worker_pool::Pool;

// Aborts the server's backup after this error: the talk is ended, and the server drops the backup.
fn give_up<V: ServerConnection>(
    server: &mut V,
    begun: Begun,
    halt: Halt<BackupFault>,
) -> Halt<OnlineBackupFault>
    ensures halt { (result ≡ of_backup halt) ⊎ (result ≡ OutOfMemory) }
    ensures ended { LeavesTalk (V.state server.old) (V.state server.new) result }
    ensures later { (V.state server.old).faults ≤ (V.state server.new).faults }
{
    match abandon(server, begun) {
        Ok(()) => of_backup(halt),
        Err(_) => Halt::NoMemory,
    }
}

// What a backup has of a server that stopped it. A message of a server has at most 16 MiB, and so has the label file.
fn online_of(finished: Finished) -> Result<Online, Halt<OnlineBackupFault>>
    requires { IsWalPart finished.wal }
    ensures online { IfOk result (λ o. IsOnline (online_of o)) }
    ensures part { IfOk result (λ o. o.wal ≡ finished.wal) }
    ensures label { IfOk result (λ o. string_bytes o.label_file ≡ string_bytes finished.label_file) }
    ensures long { IfErr result (λ h. h ≡ OutOfMemory) }
{
    if u32::try_from(finished.label_file.len()).is_err() {
        return Err(Halt::NoMemory);
    }
    Ok(Online {
        wal: finished.wal,
        label_file: finished.label_file,
    })
}

// Has the server stop its backup, and ends the talk.
fn end_talk<V: ServerConnection>(
    alloc: Global,
    server: &mut V,
    begun: Begun,
) -> Result<Online, Halt<OnlineBackupFault>>
    requires { IsSegSize begun.size.0 }
    ensures online { IfOk result (λ o. IsOnline (online_of o)) }
    ensures stopped { IfOk result (StopsBetween begun (V.state server.old) (V.state server.new)) }
    ensures sent { OnOk result (SendsStop (V.state server.old) (V.state server.new)) }
    ensures place { (V.state server.new).place ≡ (V.state server.old).place }
    ensures ended { IfErr result (LeavesTalk (V.state server.old) (V.state server.new)) }
    ensures later { (V.state server.old).faults ≤ (V.state server.new).faults }
    ensures cause { IfErr result (StopHalts begun (V.state server.old) (V.state server.new)) }
{
    match stop(alloc, server, begun) {
        Ok(finished) => online_of(finished),
        Err(fault) => Err(of_talk(fault)),
    }
}

/// Has the server start its backup, has the data folder read, and has the server stop its backup. What reads the folder
/// borrows the backup that the server has started, and what stops it consumes that. Nothing can be read afterwards. A
/// talk that began is ended in any case.
pub(crate) fn talk<
    'a,
    D: Disk,
    T: DataFolder,
    V: ServerConnection,
    C: Clock,
    L: Link,
    U: Scheduler,
>(
    alloc: Global,
    repo: &mut D,
    tree: &mut T,
    server: &mut V,
    clock: &mut C,
    pool: &mut Pool<L, U>,
    task: ServerTask<'a>,
) -> Result<(Gathered<'a>, Online), Halt<OnlineBackupFault>>
    requires list { IsBackupInfo (backup_info_of task.next.list) }
    requires next { IsNext task.next.second (backup_info_of task.next.list) }
    requires old { MayBeBasis task.basis task.next.list }
    requires few { vec_len pool.old.links < 2 ^ 32 }
    requires ready { AreReady (links_in L.link_state pool.old) }
    ensures gathered { IfOk result (TalkGathers task.entry L.link_state pool.old T.state tree.old
        D.state repo.old repo.new) }
    ensures begins { IfOk result (λ p. BeginsAt task.entry.next.second p.0) }
    ensures online { IfOk result (λ p. IsOnline (online_of p.1)) }
    ensures known { IfOk result (λ p. ReportsBoth task.entry.system (V.state server.old) (V.state server.new) p.1) }
    ensures sent { OnOk result (SendsTalk task.entry.order (V.state server.old) (V.state server.new)) }
    ensures place { OnOk result ((V.state server.new).place ≡ task.entry.order.socket.now) }
    ensures ended { IfErr result (LeavesTalk (V.state server.old) (V.state server.new)) }
    ensures unlisted { OnErr result (GivesUpOn task.entry T.state tree.old D.state repo.old repo.new) }
    ensures only { TouchesNext task.entry D.state repo.old repo.new }
    ensures beside { StaysBeside task.entry.basis.stanza.now (D.state repo.old).view (D.state repo.new).view }
    ensures frame { CallsProperly (D.state repo.old) (D.state repo.new) }
    ensures looks { OnlyReadsFolder (T.state tree.old) (T.state tree.new) }
    ensures later { (V.state server.old).faults ≤ (V.state server.new).faults }
    ensures least { (C.state clock.old).least ≤ (C.state clock.new).least }
    ensures clock_later { (C.state clock.old).faults ≤ (C.state clock.new).faults }
    ensures cause { IfErr result (TalkHalts task.entry L.link_state pool.old D.state repo.old repo.new
        T.state tree.old tree.new V.state server.old server.new C.state clock.old clock.new) }
{
    let order = task.order;
    let begun = match start(
        alloc,
        server,
        order.socket,
        order.user,
        order.database,
        task.system,
        order.fast,
    ) {
        Ok(begun) => begun,
        Err(fault) => return Err(of_talk(fault)),
    };
    let gathered = match gather(alloc, repo, tree, clock, pool, &begun, task) {
        Ok(gathered) => gathered,
        Err(halt) => return Err(give_up(server, begun, halt)),
    };
    let online = end_talk(alloc, server, begun)?;
    Ok((gathered, online))
}
