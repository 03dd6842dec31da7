// Lists a backup that the server stopped, once the log that it needs is archived.
ghost use Rattle.std.specs.Prelude.{◌≡◌, ◌≤◌, Some, IfOk, IfErr, IfSome, OnOk};
ghost use Rattle.base_devices.specs.States.{CallsProperly};
ghost use Rattle.base_model.specs.InfoFiles.{IsLabel};
ghost use Rattle.base_model.specs.ManifestText.{IsWalPart};
ghost use Rattle.backup_make.specs.Closing.{StagesLabel, StopsShown};
ghost use Rattle.backup_make.specs.Draft.{IsFree};
ghost use Rattle.backup_make.specs.Made.{LeavesList};
ghost use Rattle.backup_make.specs.Online.{IsOnline, online_of};
ghost use Rattle.backup_make.specs.Staged.{IsClosed, IsClosedOf, IsFetched, closed_draft, fetched_draft};
ghost use Rattle.backup_make.specs.Touched.{TouchesBackup};
ghost use Rattle.archive_wait.specs.Stored.{HoldsPart};
ghost use Rattle.cmd_backup_online.specs.Halting.{EndHalts, PublishHalts, WaitHalts};
ghost use Rattle.cmd_backup_online.specs.Running.{KeepsBeside, PublishesAlike, PublishesClosed, PublishesWith, TurnsWithin, WentOn};

use crate::fault::{OnlineBackupFault, of_backup, of_wait};
use archive_lookup::OtherProcesses;
use archive_wait::await_segments;
use backup_make::{Closed, Fetched, Online, close_online, publish};
use base_devices::{Clock, Disk};
use base_model::{ArchiveId, Label, WalPart};
use cmd_backup_common::of_make;
use cmd_types::{Halt, Outcome};
use std::alloc::Global;

/// The backup of this label stops now, with what the server reported.
pub(crate) fn end_backup<'a, D: Disk, C: Clock>(
    alloc: Global,
    repo: &mut D,
    clock: &mut C,
    stanza: &str,
    label: &Label,
    fetched: Fetched<'a>,
    online: Online,
) -> Result<Closed<'a>, Halt<OnlineBackupFault>>
    requires fetched { IsFetched fetched }
    requires online { IsOnline (online_of online) }
    requires free { IsFree (fetched_draft fetched) }
    requires label { IsLabel label.now }
    ensures closed { IfOk result IsClosed }
    ensures of { IfOk result (IsClosedOf fetched.entry (Some (online_of online))) }
    ensures shows { IfOk result (StopsShown (C.state clock.old) (C.state clock.new)) }
    ensures staged { OnOk result (StagesLabel fetched.entry (online_of online) (D.state repo.old) (D.state repo.new)) }
    ensures unlisted { LeavesList (fetched_draft fetched.entry) (D.state repo.old).view (D.state repo.new).view }
    ensures only { TouchesBackup (fetched_draft fetched.entry) (D.state repo.old) (D.state repo.new) }
    ensures beside { KeepsBeside (fetched_draft fetched.entry).stanza.now (D.state repo.old) (D.state repo.new) }
    ensures frame { CallsProperly (D.state repo.old) (D.state repo.new) }
    ensures least { (C.state clock.old).least ≤ (C.state clock.new).least }
    ensures later { (C.state clock.old).faults ≤ (C.state clock.new).faults }
    ensures cause { IfErr result (EndHalts D.state repo.old repo.new C.state clock.old clock.new) }
{
    match close_online(alloc, repo, clock, fetched, online) {
        Ok(closed) => Ok(closed),
        Err(fault) => Err(of_backup(of_make(alloc, stanza, label, 0, fault))),
    }
}

/// The part of the log that a backup needs, and for how many steps of other processes it is waited at most.
#[derive(Clone, Copy)]
pub(crate) struct NeededLog {
    pub(crate) id: ArchiveId,
    pub(crate) wal: WalPart,
    pub(crate) most: u64,
}

/// Waits until each segment of the part of the log is archived.
pub(crate) fn wait<D: Disk, S: Disk, A: OtherProcesses<D, S>>(
    alloc: Global,
    repo: &mut D,
    spool: &mut S,
    others: &mut A,
    stanza: &str,
    log: &NeededLog,
) -> Result<(), Halt<OnlineBackupFault>>
    requires { IsWalPart log.now.wal }
    ensures archived { OnOk result (IfSome (D.state repo.new).view.now (HoldsPart stanza.now log.now.id log.now.wal)) }
    ensures went { WentOn result A.state others.old others.new D.state repo.old repo.new S.state spool.old spool.new }
    ensures repo_frame { CallsProperly (D.state repo.old) (D.state repo.new) }
    ensures spool_frame { CallsProperly (S.state spool.old) (S.state spool.new) }
    ensures started { (A.state others.new).started ≡ (A.state others.old).started }
    ensures few { TurnsWithin log.now.most (A.state others.old) (A.state others.new) }
    ensures later { (A.state others.old).faults ≤ (A.state others.new).faults }
    ensures cause { IfErr result (WaitHalts stanza.now log.now A.state others.old others.new D.state repo.old repo.new
        S.state spool.old spool.new) }
{
    let NeededLog { id, wal, most } = *log;
    match await_segments(alloc, repo, spool, others, stanza, &id, &wal, most) {
        Ok(()) => Ok(()),
        Err(fault) => Err(of_wait(fault)),
    }
}

/// Lists the backup of this label, which has stopped, and returns with the lines that report it.
pub(crate) fn conclude<D: Disk>(
    alloc: Global,
    repo: &mut D,
    stanza: &str,
    label: &Label,
    lines: String,
    closed: Closed<'_>,
) -> Result<Outcome, Halt<OnlineBackupFault>>
    requires closed { IsClosed closed }
    requires stanza { (closed_draft closed).stanza.now ≡ stanza.now }
    requires label { IsLabel label.now }
    requires label_is { label.now ≡ (closed_draft closed).label }
    ensures publishes { PublishesWith lines closed.entry (D.state repo.old) (D.state repo.new) result }
    ensures stops { OnOk result (PublishesClosed closed.entry (D.state repo.old) (D.state repo.new)) }
    ensures alike { OnOk result (PublishesAlike closed.entry (D.state repo.old) (D.state repo.new)) }
    ensures only { TouchesBackup (closed_draft closed.entry) (D.state repo.old) (D.state repo.new) }
    ensures beside { KeepsBeside (closed_draft closed.entry).stanza.now (D.state repo.old) (D.state repo.new) }
    ensures frame { CallsProperly (D.state repo.old) (D.state repo.new) }
    ensures cause { IfErr result (PublishHalts closed.entry (D.state repo.old) (D.state repo.new)) }
{
    match publish(alloc, repo, closed) {
        Ok(()) => Ok(Outcome::Finished { lines }),
        Err(fault) => Err(of_backup(of_make(alloc, stanza, label, 0, fault))),
    }
}
