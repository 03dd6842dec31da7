// Ends a talk before its backup has ended.
ghost use Rattle.std.specs.Prelude.{◌≡◌, ◌≢◌, ◌≤◌, ◌⊎◌, OnOk};
ghost use Rattle.server_talk.specs.declared.session.fault.ServerFault.TheVariants.{NoMemory as WithoutMemory};
ghost use Rattle.server_talk.specs.Calls.{SendsOrFails};
ghost use Rattle.server_talk.specs.Sends.{closing};
ghost use Rattle.server_talk.specs.declared.backups.fault.OnlineFault.TheVariants.{Server};

use crate::backups::begun::Begun;
use crate::backups::fault::OnlineFault;
use crate::session::{ServerFault, Session, close};
use base_devices::ServerConnection;
use base_text::NoMemory;

// Ends a session. That this failed isn't reported, except when out of memory.
fn leave<V: ServerConnection>(connection: &mut V, session: Session) -> Result<(), NoMemory>
    ensures sent { OnOk result (SendsOrFails V.state closing connection.old connection.new) }
    ensures pending { (V.state connection.new).pending ≡ (V.state connection.old).pending }
    ensures place { (V.state connection.new).place ≡ (V.state connection.old).place }
    ensures later { (V.state connection.old).faults ≤ (V.state connection.new).faults }
{
    match close(connection, session) {
        Ok(()) => Ok(()),
        Err(ServerFault::ServerConnection) => Ok(()),
        Err(_) => Err(NoMemory),
    }
}

/// Ends the session of a backup that is given up, and the server then drops the backup. That this failed isn't
/// reported, except when out of memory.
pub fn abandon<V: ServerConnection>(connection: &mut V, backup: Begun) -> Result<(), NoMemory>
    ensures sent { OnOk result (SendsOrFails V.state closing connection.old connection.new) }
    ensures pending { (V.state connection.new).pending ≡ (V.state connection.old).pending }
    ensures place { (V.state connection.new).place ≡ (V.state connection.old).place }
    ensures later { (V.state connection.old).faults ≤ (V.state connection.new).faults }
{
    leave(connection, backup.session)
}

/// Ends a session for this fault.
pub(crate) fn part<V: ServerConnection>(
    connection: &mut V,
    session: Session,
    fault: OnlineFault,
) -> OnlineFault
    ensures fault { (result ≡ fault) ⊎ (result ≡ Server WithoutMemory) }
    ensures sent { result ≢ Server WithoutMemory → SendsOrFails V.state closing connection.old connection.new }
    ensures pending { (V.state connection.new).pending ≡ (V.state connection.old).pending }
    ensures place { (V.state connection.new).place ≡ (V.state connection.old).place }
    ensures later { (V.state connection.old).faults ≤ (V.state connection.new).faults }
{
    match leave(connection, session) {
        Ok(()) => fault,
        Err(_) => OnlineFault::Server(ServerFault::NoMemory),
    }
}
