// Gives staged bytes a name.
ghost use Rattle.std.specs.Prelude.{◌≡◌, ◌≢◌, None, false, IfErr, OnOk, IsErrOf};
ghost use Rattle.base_devices.specs.States.{ChangesDisk};
ghost use Rattle.base_devices.specs.Content.{Name, moved, LiesDirectlyIn, IsThere};
ghost use Rattle.base_devices.specs.Moments.{is_unsynced};
ghost use Rattle.base_devices.specs.Cause.{Rises};
ghost use Rattle.base_disk.specs.Fault.{IsDeviceFault};
ghost use Rattle.base_disk.specs.Staged.{staged_name};
ghost use Rattle.base_disk.specs.Store.{LiesIn};
ghost use Rattle.base_disk.specs.Publications.{IsPublishedFrom, OnlyMoves};

use crate::fault::StoreFault;
use crate::staging::Staged;
use base_devices::Disk;

/// Gives the staged bytes the name, so that a crash leaves what the name had or these bytes whole.
pub fn publish<D: Disk>(d: &mut D, staged: Staged, name: &str) -> Result<(), StoreFault>
    requires folder { (folder : Name) × LiesIn folder (staged_name staged) × LiesIn folder name.now }
    requires other { staged_name staged ≢ name.now }
    requires synced { is_unsynced (D.state d.old).view (staged_name staged) ≡ false }
    requires there { IsThere (D.state d.old).view.now (staged_name staged) }
    ensures now { ChangesDisk result (moved (staged_name staged) name.now) (D.state d.old) (D.state d.new) }
    ensures published { OnOk result
        (IsPublishedFrom (staged_name staged) name.now (D.state d.old) (D.state d.new)) }
    ensures works { OnlyMoves (staged_name staged) name.now (D.state d.old) (D.state d.new) }
    ensures cause { IsErrOf result StoreFault.Disk → Rises (D.state d.old).faults (D.state d.new).faults }
    ensures refusals { IfErr result IsDeviceFault }
{
    let folder = folder_of(name);
    publish_in(d, staged.name(), name, folder)
}

// The folder of a name that lies in one, and in none within it.
fn folder_of(name: &str) -> &str
    requires { (folder : Name) × LiesIn folder name.now }
    ensures { LiesDirectlyIn result.now name.now }
{
    match name.rsplit_once('/') {
        Some((folder, _)) => folder,
        None => name,
    }
}

// Moves the bytes to the name and syncs the names of its folder, since a crash may undo a rename until then.
fn publish_in<D: Disk>(d: &mut D, from: &str, name: &str, folder: &str) -> Result<(), StoreFault>
    requires lies { LiesDirectlyIn folder.now name.now }
    requires other { from.now ≢ name.now }
    requires synced { is_unsynced (D.state d.old).view from.now ≡ false }
    requires there { IsThere (D.state d.old).view.now from.now }
    ensures now { ChangesDisk result (moved from.now name.now) (D.state d.old) (D.state d.new) }
    ensures published { OnOk result (IsPublishedFrom from.now name.now (D.state d.old) (D.state d.new)) }
    ensures works { OnlyMoves from.now name.now (D.state d.old) (D.state d.new) }
    ensures cause { IsErrOf result StoreFault.Disk → Rises (D.state d.old).faults (D.state d.new).faults }
    ensures refusals { IfErr result IsDeviceFault }
{
    d.rename(from, name)?;
    d.sync_directory(folder)?;
    Ok(())
}
