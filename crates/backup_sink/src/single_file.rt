// Stores a file by itself.
ghost use Rattle.std.specs.Prelude.{◌≡◌, OnOk};
ghost use Rattle.base_devices.specs.Content.{LiesDirectlyIn, SameBut};
ghost use Rattle.base_devices.specs.States.{Works};
ghost use Rattle.base_devices.specs.Cause.{HasCause};
ghost use Rattle.backup_sink.specs.Sealed.{IsSealedAt};
ghost use Rattle.backup_sink.specs.Writing.{Replaces};

use crate::parts::begin_with;
use base_devices::{DeviceError, Disk};

/// Stores the bytes at the name, in place of what it has, durably: a crash leaves exactly these.
pub fn store_file<D: Disk>(
    d: &mut D,
    folder: &str,
    name: &str,
    bytes: &[u8],
) -> Result<(), DeviceError>
    requires { LiesDirectlyIn folder.now name.now }
    ensures value { OnOk result (Replaces name.now bytes.now (D.state d.old) (D.state d.new)) }
    ensures others { SameBut name.now (D.state d.old).view.now (D.state d.new).view.now }
    ensures works { Works (λ n _. n ≡ name.now) (λ n. n ≡ name.now) (D.state d.old) (D.state d.new) }
    ensures sealed { OnOk result (IsSealedAt name.now (D.state d.new).view) }
    ensures cause { HasCause (D.state d.old).faults (D.state d.new).faults result }
{
    begin_with(d, name, bytes)?;
    d.sync(name)?;
    d.sync_directory(folder)
}
