// Puts bytes at a name of their own, before another name takes them.
ghost use Rattle.std.specs.Prelude.{◌≡◌, ◌<◌, ◌+◌, ◌^◌, [], false, length, IfOk, IfErr, OnOk, IsErrOf};
ghost use Rattle.base_devices.specs.States.{Works, WorksBySync};
ghost use Rattle.base_devices.specs.Content.{IsThere, SameBut};
ghost use Rattle.base_devices.specs.Moments.{is_unsynced};
ghost use Rattle.base_devices.specs.Cause.{Rises};
ghost use Rattle.base_disk.specs.Fault.{IsDeviceFault};
ghost use Rattle.base_disk.specs.Staged.{staged_name, staging_name, staging_length, HasLength, AppendsBytes, HoldsStaging, PutsBytes};

use crate::fault::StoreFault;
use base_devices::Disk;
use std::alloc::Global;

/// A name whose bytes are on the disk.
#[derive(Drop)]
pub struct Staged {
    name: String,
}

impl Staged {
    pub fn name(&self) -> &str
        ensures { result.now ≡ staged_name self.now }
    {
        self.name.as_str()
    }
}

/// A name at which bytes are being put, piece by piece.
#[derive(Drop)]
pub struct Staging {
    name: String,
    length: u64,
}

impl Staging {
    pub fn name(&self) -> &str
        ensures { result.now ≡ staging_name self.now }
    {
        self.name.as_str()
    }

    /// How many bytes were put there.
    pub fn length(&self) -> u64
        ensures { result ≡ staging_length self.now }
    {
        self.length
    }
}

/// Makes the name hold no bytes, so that bytes can be added.
pub fn start_stage<D: Disk>(alloc: Global, d: &mut D, name: &str) -> Result<Staging, StoreFault>
    ensures name { IfOk result (λ staging. staging_name staging ≡ name.now) }
    ensures length { IfOk result (λ staging. staging_length staging ≡ 0) }
    ensures now { OnOk result (PutsBytes name.now [] (D.state d.old) (D.state d.new)) }
    ensures holds { OnOk result (HasLength (D.state d.new).view.now name.now 0) }
    ensures others { SameBut name.now (D.state d.old).view.now (D.state d.new).view.now }
    ensures works { Works (λ _ _. ⊥) (λ n. n ≡ name.now) (D.state d.old) (D.state d.new) }
    ensures cause { IsErrOf result StoreFault.Disk → Rises (D.state d.old).faults (D.state d.new).faults }
    ensures refusals { IfErr result IsDeviceFault }
{
    let kept_name = String::from_str(alloc, name)?;
    d.begin(name)?;
    Ok(Staging {
        name: kept_name,
        length: 0,
    })
}

/// Adds bytes at the end of what was put there. After a refusal the name may hold a part of them, so the `Staging` is
/// given up.
pub fn add_stage<D: Disk>(d: &mut D, staging: &mut Staging, bytes: &[u8]) -> Result<(), StoreFault>
    requires holds { HoldsStaging staging.old (D.state d.old) }
    requires room { staging_length staging.old + length bytes.now < 2 ^ 64 }
    ensures name { staging_name staging.new ≡ staging_name staging.old }
    ensures length { OnOk result (staging_length staging.new ≡ staging_length staging.old + length bytes.now) }
    ensures now { AppendsBytes result (staging_name staging.old) bytes.now (D.state d.old) (D.state d.new) }
    ensures holds { OnOk result (HoldsStaging staging.new (D.state d.new)) }
    ensures others { SameBut (staging_name staging.old) (D.state d.old).view.now (D.state d.new).view.now }
    ensures works { Works (λ _ _. ⊥) (λ n. n ≡ staging_name staging.old) (D.state d.old) (D.state d.new) }
    ensures cause { IsErrOf result StoreFault.Disk → Rises (D.state d.old).faults (D.state d.new).faults }
    ensures refusals { IfErr result IsDeviceFault }
{
    d.append(&staging.name, bytes)?;
    staging.length += bytes.len() as u64;
    Ok(())
}

/// Syncs what was put there, so that a crash leaves it whole or what the name kept before.
pub fn end_stage<D: Disk>(d: &mut D, staging: Staging) -> Result<Staged, StoreFault>
    requires { HoldsStaging staging (D.state d.old) }
    ensures name { IfOk result (λ staged. staged_name staged ≡ staging_name staging) }
    ensures now { (D.state d.new).view.now ≡ (D.state d.old).view.now }
    ensures there { OnOk result (IsThere (D.state d.new).view.now (staging_name staging)) }
    ensures synced { OnOk result (is_unsynced (D.state d.new).view (staging_name staging) ≡ false) }
    ensures works { WorksBySync (λ n. n ≡ staging_name staging) (D.state d.old) (D.state d.new) }
    ensures cause { IsErrOf result StoreFault.Disk → Rises (D.state d.old).faults (D.state d.new).faults }
    ensures refusals { IfErr result IsDeviceFault }
{
    d.sync(&staging.name)?;
    Ok(Staged { name: staging.name })
}

/// Puts the bytes at the name, in place of what it held, and syncs it.
pub fn stage<D: Disk>(
    alloc: Global,
    d: &mut D,
    name: &str,
    bytes: &[u8],
) -> Result<Staged, StoreFault>
    ensures name { IfOk result (λ staged. staged_name staged ≡ name.now) }
    ensures now { OnOk result (PutsBytes name.now bytes.now (D.state d.old) (D.state d.new)) }
    ensures others { SameBut name.now (D.state d.old).view.now (D.state d.new).view.now }
    ensures synced { OnOk result (is_unsynced (D.state d.new).view name.now ≡ false) }
    ensures works { Works (λ n _. n ≡ name.now) (λ n. n ≡ name.now) (D.state d.old) (D.state d.new) }
    ensures cause { IsErrOf result StoreFault.Disk → Rises (D.state d.old).faults (D.state d.new).faults }
    ensures refusals { IfErr result IsDeviceFault }
{
    let mut staging = start_stage(alloc, d, name)?;
    add_stage(d, &mut staging, bytes)?;
    end_stage(d, staging)
}
