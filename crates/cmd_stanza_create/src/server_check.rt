// The server is asked for its system.
ghost use Rattle.std.specs.Prelude.{◌≡◌, ◌≢◌, ◌≤◌, ◌⊎◌, None, Some, OnOk, IfOk, IfErr, IfSome, string_bytes};
ghost use Rattle.server_talk.specs.declared.session.fault.ServerFault.TheVariants.{NoMemory as OutOfMemory};
ghost use Rattle.server_talk.specs.Reads.{HasCause, IsOutside};
ghost use Rattle.cmd_stanza_create.specs.Server.{server_view, socket_path};
ghost use Rattle.cmd_stanza_create.specs.Talking.{IsOf, ShowsFault, AsksAt, AsksIfAny, EndsOrFails, ClosesOrFails, AskFails, server_halt};

use crate::server::Server;
use base_devices::ServerConnection;
use cmd_types::{Halt, Object};
use server_talk::{ServerFault, Session, check_system, close, open};
use std::alloc::{AllocError, Global};

/// The path of the socket of a server.
pub fn socket_path(alloc: Global, server: &Server) -> Result<String, AllocError>
    ensures { IfOk result (λ path. string_bytes path ≡ socket_path (server_view server.now)) }
{
    let folder = server.folder;
    let port = server.port;
    format!(in alloc; "{folder}/.s.PGSQL.{port}")
}

// How a fault of a talk ends the command.
fn server_halt(fault: ServerFault) -> Halt<ServerFault>
    ensures { result ≡ server_halt fault }
{
    match fault {
        ServerFault::NoMemory => Halt::NoMemory,
        ServerFault::ServerConnection => Halt::Failed(Object::Server),
        fault => Halt::Refused(fault),
    }
}

// Ends a session that was refused. That this failed isn't reported, except when out of memory.
fn part<V: ServerConnection>(
    connection: &mut V,
    session: Session,
    fault: ServerFault,
) -> ServerFault
    ensures fault { (result ≡ fault) ⊎ (result ≡ OutOfMemory) }
    ensures ended { result ≢ OutOfMemory → EndsOrFails (V.state connection.old) (V.state connection.new) }
    ensures later { (V.state connection.old).faults ≤ (V.state connection.new).faults }
{
    match close(connection, session) {
        Ok(()) => fault,
        Err(ServerFault::ServerConnection) => fault,
        Err(_) => ServerFault::NoMemory,
    }
}

// The talk: a session that asks for the system alone.
fn talk<V: ServerConnection>(
    alloc: Global,
    connection: &mut V,
    server: &Server,
    path: &str,
    system: u64,
) -> Result<(), ServerFault>
    ensures same { OnOk result (IsOf system (V.state connection.old).pending) }
    ensures asks { OnOk result (AsksAt path.now server.now (V.state connection.old) (V.state connection.new)) }
    ensures known { IfErr result (λ e. ¬ IsOutside e → ShowsFault system (V.state connection.old).pending e) }
    ensures ended { IfErr result
        (λ e. ¬ IsOutside e → EndsOrFails (V.state connection.old) (V.state connection.new)) }
    ensures cause { HasCause (V.state connection.old).faults (V.state connection.new).faults result }
{
    let mut session = match open(alloc, connection, path, server.user, server.database) {
        Ok(session) => session,
        Err(fault) => return Err(fault),
    };
    match check_system(alloc, connection, &mut session, system) {
        Ok(_) => close(connection, session),
        Err(fault) => Err(part(connection, session, fault)),
    }
}

fn ask_system<V: ServerConnection>(
    alloc: Global,
    connection: &mut V,
    server: &Server,
    system: u64,
) -> Result<(), Halt<ServerFault>>
    ensures same { OnOk result (IsOf system (V.state connection.old).pending) }
    ensures asks { OnOk result
        (AsksIfAny (Some server.now) (V.state connection.old) (V.state connection.new)) }
    ensures closed { IfErr result (ClosesOrFails (V.state connection.old) (V.state connection.new)) }
    ensures later { (V.state connection.old).faults ≤ (V.state connection.new).faults }
    ensures cause { IfErr result
        (AskFails (Some server.now) system (V.state connection.old) (V.state connection.new)) }
{
    let path = socket_path(alloc, server)?;
    match talk(alloc, connection, server, &path, system) {
        Ok(()) => Ok(()),
        Err(fault) => Err(server_halt(fault)),
    }
}

/// Asks the server for its system, where one is to be asked. It has to be this one.
pub fn check_server<V: ServerConnection>(
    alloc: Global,
    connection: &mut V,
    server: Option<Server>,
    system: u64,
) -> Result<(), Halt<ServerFault>>
    ensures quiet { server.entry ≡ None → connection.new ≡ connection.old }
    ensures same { OnOk result (IfSome server.entry (λ _. IsOf system (V.state connection.old).pending)) }
    ensures asks { OnOk result (AsksIfAny server.entry (V.state connection.old) (V.state connection.new)) }
    ensures closed { IfErr result (ClosesOrFails (V.state connection.old) (V.state connection.new)) }
    ensures later { (V.state connection.old).faults ≤ (V.state connection.new).faults }
    ensures cause { IfErr result (AskFails server.entry system (V.state connection.old) (V.state connection.new)) }
{
    match server {
        Some(server) => ask_system(alloc, connection, &server, system),
        None => Ok(()),
    }
}
