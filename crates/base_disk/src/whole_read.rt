// All the bytes of a name.
ghost use Rattle.std.specs.Prelude.{◌≡◌, ◌≤◌, ◌<◌, Option, IfOk, IfErr, IsErrOf, IfSome, Vec, length};
ghost use Rattle.std.specs.declared.alloc.Global.{Global};
ghost use Rattle.base_devices.specs.States.{OnlyReads};
ghost use Rattle.base_devices.specs.Cause.{Rises};
ghost use Rattle.base_disk.specs.Fault.{IfTooLong};
ghost use Rattle.base_disk.specs.WholeReads.{IsPastLimit, ReadsWhole};

use crate::fault::StoreFault;
use base_devices::Disk;
use std::alloc::Global;

/// All the bytes of a name, at most `limit`; None where it is absent.
pub fn read_whole<D: Disk>(
    alloc: Global,
    d: &mut D,
    name: &str,
    limit: u64,
) -> Result<Option<Vec<u8>>, StoreFault>
    ensures bytes { IfOk result (λ r. ReadsWhole name.now limit (D.state d.old) r) }
    ensures within { IfOk result (λ r. IfSome r (λ v. length v.items ≤ limit)) }
    ensures named { IfErr result (λ e. IfTooLong e (λ n l. (n ≡ name.now) × (l ≡ limit))) }
    ensures too_long { IfErr result (λ e. IfTooLong e (λ _ _. IsPastLimit name.now limit (D.state d.old))) }
    ensures looks { OnlyReads (D.state d.old) (D.state d.new) }
    ensures cause { IsErrOf result StoreFault.Disk → Rises (D.state d.old).faults (D.state d.new).faults }
{
    let mut bytes = Vec::new(alloc);
    let mut buf = [0u8; 32768];
    while bytes.len() as u64 <= limit {
        match d.read(name, bytes.len() as u64, &mut buf)? {
            None => return Ok(None),
            Some(0) => return Ok(Some(bytes)),
            Some(n) => bytes.extend_from_slice(&buf[..n])?,
        }
    }
    Err(StoreFault::TooLong {
        name: String::from_str(alloc, name)?,
        limit,
    })
}
