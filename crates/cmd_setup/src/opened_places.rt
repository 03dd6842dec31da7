// Opens the places of a command.
ghost use Rattle.std.specs.Prelude.{◌≡◌, ◌≤◌, None, IfErr, IfSome};
ghost use Rattle.base_devices.specs.States.{Opens};
ghost use Rattle.archive_store.specs.Still.{IsStill};
ghost use Rattle.cmd_types.specs.Halts.{Never};
ghost use Rattle.cmd_setup.specs.Folder.{FolderCause};
ghost use Rattle.cmd_setup.specs.Stages.{DiskCause};

use base_devices::{DataFolder, Disk};
use cmd_types::{Halt, Object, StageFault, halted};

/// Opens a disk, where its place is named.
pub fn open_disk<D: Disk>(
    disk: &mut D,
    object: Object,
    place: Option<&str>,
) -> Result<(), Halt<StageFault>>
    ensures opens { IfSome place.entry (λ p. Opens result p.now (D.state disk.old).opened (D.state disk.new).opened) }
    ensures unopened { place.entry ≡ None → disk.new ≡ disk.old }
    ensures still { IsStill (D.state disk.old).view (D.state disk.new).view }
    ensures proper { (D.state disk.new).faulty_calls ≡ (D.state disk.old).faulty_calls }
    ensures later { (D.state disk.old).faults ≤ (D.state disk.new).faults }
    ensures cause { IfErr result (DiskCause object Never (D.state disk.old) (D.state disk.new)) }
{
    let Some(place) = place else {
        return Ok(());
    };
    match disk.open(place) {
        Ok(()) => Ok(()),
        Err(error) => Err(halted(object, error)),
    }
}

/// Opens the data folder, where it is named.
pub fn open_tree<T: DataFolder>(tree: &mut T, place: Option<&str>) -> Result<(), Halt<StageFault>>
    ensures opens { IfSome place.entry (λ p. Opens result p.now (T.state tree.old).opened (T.state tree.new).opened) }
    ensures unopened { place.entry ≡ None → tree.new ≡ tree.old }
    ensures nodes { (T.state tree.new).nodes ≡ (T.state tree.old).nodes }
    ensures proper { (T.state tree.new).faulty_calls ≡ (T.state tree.old).faulty_calls }
    ensures later { (T.state tree.old).faults ≤ (T.state tree.new).faults }
    ensures cause { IfErr result (FolderCause (λ _. Never) (T.state tree.old) (T.state tree.new)) }
{
    let Some(place) = place else {
        return Ok(());
    };
    match tree.open(place) {
        Ok(()) => Ok(()),
        Err(error) => Err(halted(Object::TheDataFolder, error)),
    }
}
