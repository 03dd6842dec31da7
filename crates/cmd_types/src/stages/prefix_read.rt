// Reads the prefix of a known file.
ghost use Rattle.std.specs.Prelude.{◌≤◌, ◌<◌, IfOk, IfSome, length};
ghost use Rattle.base_devices.specs.States.{OnlyReadsFolder};
ghost use Rattle.base_devices.specs.Cause.{HasCause};
ghost use Rattle.cmd_types.specs.Cluster.{IsFilePrefix};

use base_devices::{DataFolder, DeviceError, ReadableFile};
use std::alloc::Global;

/// The first bytes of a known file, at most `limit`; None where it isn't there.
pub fn read_prefix<T: DataFolder>(
    alloc: Global,
    tree: &mut T,
    what: &ReadableFile,
    limit: usize,
) -> Result<Option<Vec<u8>>, DeviceError>
    requires { 0 < limit }
    ensures bytes { IfOk result (IsFilePrefix what.now limit (T.state tree.old)) }
    ensures within { IfOk result (λ r. IfSome r (λ v. length v.items ≤ limit)) }
    ensures looks { OnlyReadsFolder (T.state tree.old) (T.state tree.new) }
    ensures cause { HasCause (T.state tree.old).faults (T.state tree.new).faults result }
{
    let mut bytes = Vec::new(alloc);
    let mut buf = [0u8; 32768];
    while bytes.len() < limit {
        match tree.read(what, bytes.len() as u64, &mut buf)? {
            None => return Ok(None),
            Some(0) => return Ok(Some(bytes)),
            Some(n) => bytes.extend_from_slice(&buf[..n])?,
        }
    }
    bytes.truncate(limit);
    Ok(Some(bytes))
}
