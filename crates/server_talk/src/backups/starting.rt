// Starts a backup.
ghost use Rattle.std.specs.Prelude.{◌≡◌, ◌≤◌, ◌<◌, ◌+◌, ◌^◌, length, OnOk, IfOk, IfErr};
ghost use Rattle.base_model.specs.ManifestText.{IsSegSize};
ghost use Rattle.server_talk.specs.Calls.{SendsAll};
ghost use Rattle.server_talk.specs.Telling.{starting, ShowsBegun};
ghost use Rattle.server_talk.specs.BackupCalls.{beginning, ShowsStart, RefusesBeginning, RefusesStart, TalkIsClosed};

use crate::backups::begun::Begun;
use crate::backups::fault::OnlineFault;
use crate::backups::talk_abort::part;
use crate::session::{ServerFault, Session, Started, check_system, open, start_backup};
use base_devices::ServerConnection;
use repo_names::SegSize;
use std::alloc::Global;

// Asks for the system, which is to be this one, and starts.
fn begin<V: ServerConnection>(
    alloc: Global,
    connection: &mut V,
    session: &mut Session,
    system: u64,
    fast: bool,
) -> Result<(SegSize, Started), ServerFault>
    ensures known { IfOk result
        (ShowsStart V.state system session.old session.new connection.old connection.new) }
    ensures sized { IfOk result (λ p. IsSegSize p.0.0) }
    ensures sent { OnOk result (SendsAll V.state (beginning fast) connection.old connection.new) }
    ensures place { (V.state connection.new).place ≡ (V.state connection.old).place }
    ensures cause { IfErr result (RefusesBeginning V.state system session.old connection.old connection.new) }
    ensures later { (V.state connection.old).faults ≤ (V.state connection.new).faults }
{
    let size = match check_system(alloc, connection, session, system) {
        Ok(size) => size,
        Err(fault) => return Err(fault),
    };
    match start_backup(alloc, connection, session, fast) {
        Ok(started) => Ok((size, started)),
        Err(fault) => Err(fault),
    }
}

/// Opens a session at the server's socket and starts a backup: with `fast` at once, else after the next checkpoint. The
/// server has to be of this system. pgBackRest's option `start-fast`.
pub fn start<V: ServerConnection>(
    alloc: Global,
    connection: &mut V,
    path: &str,
    user: &str,
    database: &str,
    system: u64,
    fast: bool,
) -> Result<Begun, OnlineFault>
    requires { length user.now + length database.now + 97 < 2 ^ 32 }
    ensures known { IfOk result (ShowsBegun system (V.state connection.old).pending (V.state connection.new).pending) }
    ensures sized { IfOk result (λ b. IsSegSize b.size.0) }
    ensures sent { OnOk result
        (SendsAll V.state (starting user.now database.now fast) connection.old connection.new) }
    ensures place { OnOk result ((V.state connection.new).place ≡ path.now) }
    ensures cause { IfErr result (RefusesStart V.state system connection.old connection.new) }
    ensures closed { IfErr result (TalkIsClosed V.state connection.old connection.new) }
    ensures later { (V.state connection.old).faults ≤ (V.state connection.new).faults }
{
    let mut session = match open(alloc, connection, path, user, database) {
        Ok(session) => session,
        Err(fault) => return Err(OnlineFault::Server(fault)),
    };
    match begin(alloc, connection, &mut session, system, fast) {
        Ok((size, Started { lsn, segment })) => Ok(Begun {
            session,
            size,
            from: lsn,
            segment,
        }),
        Err(fault) => Err(part(connection, session, OnlineFault::Server(fault))),
    }
}
