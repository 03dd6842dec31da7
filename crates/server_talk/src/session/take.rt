// Bytes of a connection, however it cuts them.
ghost use Rattle.std.specs.Prelude.{◌≡◌, ◌≤◌, take, length, IfOk, OnOk, IfSome, IfErr};
ghost use Rattle.server_talk.specs.Reads.{IsOutside, HasCause};
ghost use Rattle.server_talk.specs.Calls.{ReadsBytes, PassesBytes};

use crate::session::fault::ServerFault;
use base_devices::{DeviceError, ServerConnection};
use std::alloc::Global;

// Up to this many bytes: fewer only at the end.
fn gather<V: ServerConnection>(
    alloc: Global,
    connection: &mut V,
    count: usize,
) -> Result<Vec<u8>, ServerFault>
    ensures outside { IfErr result IsOutside }
    ensures bytes { IfOk result (λ v. IfSome (V.state connection.old).pending (λ s. v.items ≡ take count s)) }
    ensures rest { OnOk result (PassesBytes V.state count connection.old connection.new) }
    ensures room { IfOk result (λ v. length v.items ≤ count) }
    ensures sent { (V.state connection.new).sent ≡ (V.state connection.old).sent }
    ensures place { (V.state connection.new).place ≡ (V.state connection.old).place }
    ensures cause { HasCause (V.state connection.old).faults (V.state connection.new).faults result }
{
    let mut bytes: Vec<u8> = Vec::new(alloc);
    let mut piece = [0u8; 4096];
    while bytes.len() < count {
        let want = (count - bytes.len()).min(4096);
        let got = match connection.receive(&mut piece[..want]) {
            Ok(n) => n,
            Err(DeviceError::Failed) => return Err(ServerFault::ServerConnection),
            Err(DeviceError::NoMemory) => return Err(ServerFault::NoMemory),
        };
        if got == 0 {
            return Ok(bytes);
        }
        bytes.extend_from_slice(&piece[..got])?;
    }
    Ok(bytes)
}

pub(crate) fn take<V: ServerConnection>(
    alloc: Global,
    connection: &mut V,
    count: usize,
) -> Result<Vec<u8>, ServerFault>
    ensures read { ReadsBytes V.state count result connection.old connection.new }
    ensures room { IfOk result (λ v. length v.items ≤ count) }
    ensures sent { (V.state connection.new).sent ≡ (V.state connection.old).sent }
    ensures place { (V.state connection.new).place ≡ (V.state connection.old).place }
    ensures cause { HasCause (V.state connection.old).faults (V.state connection.new).faults result }
{
    gather(alloc, connection, count)
}
