// What a backup's keeper does at a job's name.
ghost use Rattle.std.specs.Prelude.{◌≡◌, false, OnOk, IsTrue};
ghost use Rattle.base_devices.specs.Content.{IsThere, SameBut};
ghost use Rattle.base_devices.specs.States.{Works};
ghost use Rattle.base_devices.specs.Cause.{HasCause};
ghost use Rattle.backup_sink.specs.Writing.{AddsBytes};

use base_devices::{DeviceError, Disk};

/// Adds bytes to the name, which is made where it isn't begun.
pub(crate) fn add_part<D: Disk>(
    d: &mut D,
    name: &str,
    begun: bool,
    bytes: &[u8],
) -> Result<(), DeviceError>
    requires { IsTrue begun → IsThere (D.state d.old).view.now name.now }
    ensures value { OnOk result (AddsBytes name.now begun bytes.now (D.state d.old) (D.state d.new)) }
    ensures others { SameBut name.now (D.state d.old).view.now (D.state d.new).view.now }
    ensures works { Works (λ n _. n ≡ name.now) (λ n. n ≡ name.now) (D.state d.old) (D.state d.new) }
    ensures cause { HasCause (D.state d.old).faults (D.state d.new).faults result }
{
    if begun {
        d.append(name, bytes)
    } else {
        begin_with(d, name, bytes)
    }
}

/// Makes the name, with these bytes.
pub(crate) fn begin_with<D: Disk>(d: &mut D, name: &str, bytes: &[u8]) -> Result<(), DeviceError>
    ensures value { OnOk result (AddsBytes name.now false bytes.now (D.state d.old) (D.state d.new)) }
    ensures others { SameBut name.now (D.state d.old).view.now (D.state d.new).view.now }
    ensures works { Works (λ n _. n ≡ name.now) (λ n. n ≡ name.now) (D.state d.old) (D.state d.new) }
    ensures cause { HasCause (D.state d.old).faults (D.state d.new).faults result }
{
    d.begin(name)?;
    d.append(name, bytes)
}

/// Removes the name, where that is requested.
pub(crate) fn remove_if<D: Disk>(d: &mut D, name: &str, wanted: bool) -> Result<(), DeviceError>
    ensures others { SameBut name.now (D.state d.old).view.now (D.state d.new).view.now }
    ensures works { Works (λ n _. n ≡ name.now) (λ n. n ≡ name.now) (D.state d.old) (D.state d.new) }
    ensures cause { HasCause (D.state d.old).faults (D.state d.new).faults result }
{
    if wanted {
        return d.remove(name);
    }
    Ok(())
}
