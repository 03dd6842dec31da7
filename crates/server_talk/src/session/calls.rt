// What a session's calls send and receive.
ghost use Rattle.std.specs.Prelude.{◌≡◌, ◌<◌, ◌+◌, ◌^◌, length, OnOk, OnErr, IfErr};
ghost use Rattle.server_talk.specs.declared.session.phase.Phase.TheVariants.{Heading};
ghost use Rattle.server_talk.specs.Sends.{startup_of, query_of, closing};
ghost use Rattle.server_talk.specs.Views.{session_view};
ghost use Rattle.server_talk.specs.Reads.{IsOutside, HasCause};
ghost use Rattle.server_talk.specs.Calls.{SendsAll, IsParted, ReadsTalk, ReadsStart, ReadsRow};

use crate::session::fault::ServerFault;
use crate::session::phase::Phase;
use crate::session::sends::{open_connection, part, query, send, startup};
use crate::session::session::Session;
use crate::session::talk::{Talk, run};
use base_devices::ServerConnection;
use std::alloc::Global;

// The talk from a phase on.
fn receive_out<V: ServerConnection>(
    alloc: Global,
    connection: &mut V,
    phase: Phase,
    columns: u16,
    session: Session,
) -> Result<Talk, ServerFault>
    ensures read { ReadsTalk V.state phase columns session result connection.old connection.new }
    ensures sent { (V.state connection.new).sent ≡ (V.state connection.old).sent }
    ensures place { (V.state connection.new).place ≡ (V.state connection.old).place }
    ensures cause { HasCause (V.state connection.old).faults (V.state connection.new).faults result }
{
    let limit = session.left();
    let start = Talk {
        phase,
        row: Vec::new(alloc),
        row_end: 0,
        session,
    };
    run(alloc, connection, limit, columns, start)
}

/// Opens the server's socket and starts a session of this user in this database. A session that is refused is ended.
pub fn open<V: ServerConnection>(
    alloc: Global,
    connection: &mut V,
    path: &str,
    user: &str,
    database: &str,
) -> Result<Session, ServerFault>
    requires { length user.now + length database.now + 97 < 2 ^ 32 }
    ensures read { ReadsStart V.state result connection.old connection.new }
    ensures sent { OnOk result
        (SendsAll V.state (startup_of user.now database.now) connection.old connection.new) }
    ensures parted { IfErr result
        (IsParted V.state (startup_of user.now database.now) connection.old connection.new) }
    ensures place { OnOk result ((V.state connection.new).place ≡ path.now) }
    ensures cause { HasCause (V.state connection.old).faults (V.state connection.new).faults result }
{
    let message = startup(alloc, user, database)?;
    open_connection(connection, path)?;
    send(connection, &message)?;
    match receive_out(alloc, connection, Phase::Granted, 0, Session::new()) {
        Ok(talk) => Ok(talk.session),
        Err(fault) => Err(part(connection, fault)),
    }
}

// Sends a query and receives its answer.
pub(crate) fn ask<V: ServerConnection>(
    alloc: Global,
    connection: &mut V,
    session: &Session,
    text: &str,
    columns: u16,
) -> Result<Talk, ServerFault>
    requires { length text.now + 5 < 2 ^ 32 }
    ensures read { ReadsTalk V.state Heading columns session.now result connection.old connection.new }
    ensures sent { OnOk result (SendsAll V.state (query_of text.now) connection.old connection.new) }
    ensures place { (V.state connection.new).place ≡ (V.state connection.old).place }
    ensures cause { HasCause (V.state connection.old).faults (V.state connection.new).faults result }
{
    let message = query(alloc, text)?;
    send(connection, &message)?;
    receive_out(alloc, connection, Phase::Heading, columns, session.same())
}

/// Asks a query, and answers its one row: each column's text, and none for NULL. After a refusal nothing more is to be
/// asked.
pub fn ask_row<V: ServerConnection>(
    alloc: Global,
    connection: &mut V,
    session: &mut Session,
    text: &str,
    columns: u16,
) -> Result<Vec<Option<String>>, ServerFault>
    requires { length text.now + 5 < 2 ^ 32 }
    ensures read { ReadsRow V.state columns session.old session.new result connection.old connection.new }
    ensures kept { OnErr result (session_view session.new ≡ session_view session.old) }
    ensures sent { OnOk result (SendsAll V.state (query_of text.now) connection.old connection.new) }
    ensures place { (V.state connection.new).place ≡ (V.state connection.old).place }
    ensures cause { HasCause (V.state connection.old).faults (V.state connection.new).faults result }
{
    match ask(alloc, connection, session, text, columns) {
        Ok(talk) => {
            *session = talk.session;
            Ok(talk.row)
        }
        Err(fault) => Err(fault),
    }
}

/// Ends a session.
pub fn close<V: ServerConnection>(connection: &mut V, session: Session) -> Result<(), ServerFault>
    ensures sent { OnOk result (SendsAll V.state closing connection.old connection.new) }
    ensures pending { (V.state connection.new).pending ≡ (V.state connection.old).pending }
    ensures place { (V.state connection.new).place ≡ (V.state connection.old).place }
    ensures outside { IfErr result IsOutside }
    ensures cause { HasCause (V.state connection.old).faults (V.state connection.new).faults result }
{
    send(connection, b"X\0\0\0\x04".as_slice())
}
