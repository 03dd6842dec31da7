// Stops a backup.
ghost use Rattle.std.specs.Prelude.{◌≡◌, ◌≤◌, OnOk, IfOk, IfErr};
ghost use Rattle.base_model.specs.ManifestText.{IsSegSize, IsWalPart};
ghost use Rattle.server_talk.specs.Views.{stopped_view};
ghost use Rattle.server_talk.specs.Ending.{StartsAt};
ghost use Rattle.server_talk.specs.Calls.{SendsAll};
ghost use Rattle.server_talk.specs.Telling.{stopping, finished_stop};
ghost use Rattle.server_talk.specs.Causes.{Misses};
ghost use Rattle.server_talk.specs.BackupCalls.{ShowsFinished, RefusesStop, TalkIsClosed};

use crate::backups::begun::{Begun, Finished};
use crate::backups::fault::OnlineFault;
use crate::backups::talk_abort::part;
use crate::backups::wal_span::wal_part;
use crate::session::{Stopped, close, stop_backup};
use base_devices::ServerConnection;
use repo_names::{Lsn, SegSize, Segment};
use std::alloc::Global;

// What the server reported of the stop, which is to have no map of tablespaces, and a part of the log.
fn judge(
    size: SegSize,
    from: Lsn,
    segment: Segment,
    known: Stopped,
) -> Result<Finished, OnlineFault>
    requires { IsSegSize size.0 }
    ensures fits { IfOk result (λ s. IsWalPart s.wal) }
    ensures value { IfOk result (λ s. (stopped_view known ≡ finished_stop s) × StartsAt size from segment s.wal) }
    ensures cause { IfErr result (Misses size.0 segment (stopped_view known)) }
{
    if !known.map_file.is_empty() {
        return Err(OnlineFault::TablespaceMap);
    }
    match wal_part(size, segment, known.segment, from, known.lsn) {
        Some(wal) => Ok(Finished {
            wal,
            label_file: known.label_file,
        }),
        None => Err(OnlineFault::SpanWrong {
            start: segment,
            stop: known.segment,
        }),
    }
}

/// Has the server stop the backup, and ends the session.
pub fn stop<V: ServerConnection>(
    alloc: Global,
    connection: &mut V,
    backup: Begun,
) -> Result<Finished, OnlineFault>
    requires { IsSegSize backup.size.0 }
    // It starts where the backup did, and keeps the rules that a manifest has for it.
    ensures fits { IfOk result (λ s. IsWalPart s.wal) }
    ensures begins { IfOk result (λ s. StartsAt backup.size backup.from backup.segment s.wal) }
    ensures known { IfOk result (ShowsFinished V.state backup connection.old connection.new) }
    ensures sent { OnOk result (SendsAll V.state stopping connection.old connection.new) }
    ensures place { (V.state connection.new).place ≡ (V.state connection.old).place }
    ensures cause { IfErr result (RefusesStop V.state backup connection.old connection.new) }
    ensures closed { IfErr result (TalkIsClosed V.state connection.old connection.new) }
    ensures later { (V.state connection.old).faults ≤ (V.state connection.new).faults }
{
    let Begun {
        mut session,
        size,
        from,
        segment,
    } = backup;
    let known = match stop_backup(alloc, connection, &mut session) {
        Ok(known) => known,
        Err(fault) => return Err(part(connection, session, OnlineFault::Server(fault))),
    };
    match judge(size, from, segment, known) {
        Ok(stopped) => {
            close(connection, session)?;
            Ok(stopped)
        }
        Err(fault) => Err(part(connection, session, fault)),
    }
}
