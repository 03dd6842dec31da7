// What is sent to a server.
ghost use Rattle.std.specs.Prelude.{◌≡◌, ◌≢◌, ◌≤◌, ◌⊎◌, ◌<◌, ◌+◌, ◌^◌, ◌++◌, length, IfOk, IfErr, OnOk};
ghost use Rattle.server_talk.specs.declared.session.fault.ServerFault.TheVariants.{NoMemory};
ghost use Rattle.server_talk.specs.Sends.{parameter, parameters, startup_of, query_of, closing};
ghost use Rattle.server_talk.specs.Reads.{IsOutside, HasCause};
ghost use Rattle.server_talk.specs.Calls.{SendsAll, SendsOrFails};

use crate::session::fault::ServerFault;
use base_devices::{DeviceError, ServerConnection};
use std::alloc::{AllocError, Global};

// Adds a parameter of the session.
#[tactic(auto, unfolding(crate::specs::Sends::parameter))]
fn add_parameter(bytes: &mut Vec<u8>, name: &str, value: &str) -> Result<(), AllocError>
    ensures { OnOk result (bytes.new.items ≡ bytes.old.items ++ parameter name.now value.now) }
{
    bytes.extend_from_slice(name.as_bytes())?;
    bytes.push(0)?;
    bytes.extend_from_slice(value.as_bytes())?;
    bytes.push(0)?;
    Ok(())
}

// The parameters of the session.
#[tactic(auto, unfolding(crate::specs::Sends::parameters))]
fn parameters(alloc: Global, user: &str, database: &str) -> Result<Vec<u8>, AllocError>
    ensures { IfOk result (λ v. v.items ≡ parameters user.now database.now) }
{
    let mut bytes: Vec<u8> = Vec::new(alloc);
    add_parameter(&mut bytes, "user", user)?;
    add_parameter(&mut bytes, "database", database)?;
    add_parameter(&mut bytes, "application_name", "pgbackrest")?;
    add_parameter(&mut bytes, "statement_timeout", "0")?;
    add_parameter(&mut bytes, "idle_session_timeout", "0")?;
    bytes.push(0)?;
    Ok(bytes)
}

/// The first message.
#[tactic(auto, using(crate::proofs::Startup::parameters_length), unfolding(crate::specs::Sends::startup_of))]
pub(crate) fn startup(alloc: Global, user: &str, database: &str) -> Result<Vec<u8>, AllocError>
    requires { length user.now + length database.now + 97 < 2 ^ 32 }
    ensures { IfOk result (λ v. v.items ≡ startup_of user.now database.now) }
{
    let parameters = parameters(alloc, user, database)?;
    let mut bytes: Vec<u8> = Vec::new(alloc);
    bytes.extend_from_slice(&(parameters.len() as u32 + 8).to_be_bytes())?;
    // Protocol 3.0.
    bytes.extend_from_slice(&196608u32.to_be_bytes())?;
    bytes.extend_from_slice(&parameters)?;
    Ok(bytes)
}

/// The message of a query.
#[tactic(auto, unfolding(crate::specs::Sends::query_of))]
pub(crate) fn query(alloc: Global, text: &str) -> Result<Vec<u8>, AllocError>
    requires { length text.now + 5 < 2 ^ 32 }
    ensures { IfOk result (λ v. v.items ≡ query_of text.now) }
{
    let mut bytes: Vec<u8> = Vec::new(alloc);
    bytes.push(b'Q')?;
    bytes.extend_from_slice(&(text.len() as u32 + 5).to_be_bytes())?;
    bytes.extend_from_slice(text.as_bytes())?;
    bytes.push(0)?;
    Ok(bytes)
}

/// Sends a whole message.
pub(crate) fn send<V: ServerConnection>(connection: &mut V, bytes: &[u8]) -> Result<(), ServerFault>
    ensures outside { IfErr result IsOutside }
    ensures sent { OnOk result (SendsAll V.state bytes.now connection.old connection.new) }
    ensures pending { (V.state connection.new).pending ≡ (V.state connection.old).pending }
    ensures place { (V.state connection.new).place ≡ (V.state connection.old).place }
    ensures cause { HasCause (V.state connection.old).faults (V.state connection.new).faults result }
{
    match connection.send(bytes) {
        Ok(()) => Ok(()),
        Err(DeviceError::Failed) => Err(ServerFault::ServerConnection),
        Err(DeviceError::NoMemory) => Err(ServerFault::NoMemory),
    }
}

/// Ends a session that was refused. That this failed isn't reported, except when out of memory.
pub(crate) fn part<V: ServerConnection>(connection: &mut V, fault: ServerFault) -> ServerFault
    ensures fault { (result ≡ fault) ⊎ (result ≡ NoMemory) }
    ensures sent { result ≢ NoMemory → SendsOrFails V.state closing connection.old connection.new }
    ensures later { (V.state connection.old).faults ≤ (V.state connection.new).faults }
{
    match connection.send(b"X\0\0\0\x04".as_slice()) {
        Ok(()) => fault,
        Err(DeviceError::Failed) => fault,
        Err(DeviceError::NoMemory) => ServerFault::NoMemory,
    }
}

/// Opens the server's socket.
pub(crate) fn open_connection<V: ServerConnection>(
    connection: &mut V,
    path: &str,
) -> Result<(), ServerFault>
    ensures outside { IfErr result IsOutside }
    ensures place { OnOk result ((V.state connection.new).place ≡ path.now) }
    ensures sent { (V.state connection.new).sent ≡ (V.state connection.old).sent }
    ensures pending { (V.state connection.new).pending ≡ (V.state connection.old).pending }
    ensures cause { HasCause (V.state connection.old).faults (V.state connection.new).faults result }
{
    match connection.open(path) {
        Ok(()) => Ok(()),
        Err(DeviceError::Failed) => Err(ServerFault::ServerConnection),
        Err(DeviceError::NoMemory) => Err(ServerFault::NoMemory),
    }
}
