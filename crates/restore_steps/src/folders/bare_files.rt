// The files of a backup that have no bytes.
ghost use Rattle.std.specs.Prelude.{◌≡◌, [], true, map, OnOk, IfSome, string_bytes};
ghost use Rattle.base_devices.specs.Cause.{HasCause};
ghost use Rattle.base_devices.specs.Content.{SameBut};
ghost use Rattle.base_devices.specs.Order.{are_in_order};
ghost use Rattle.base_model.specs.Values.{file_entry_of};
ghost use Rattle.restore_steps.specs.Clearing.{is_bare, ArePlaced, HasTimed};
ghost use Rattle.restore_steps.specs.Preparing.{HasBare, ChangesBareFile, BeginsBare, ChangesBareFiles};
ghost use Rattle.restore_steps.specs.Trees.{ProperAt, ProperWhere};

use crate::folders::folder_setup::is_control;
use base_devices::{DataFolder, DeviceError};
use base_model::FileEntry;

// Whether it has no bytes, and isn't the control file.
fn is_bare(file: &FileEntry) -> bool
    ensures { result ≡ is_bare (file_entry_of file.now) }
{
    file.size == 0 && !is_control(&file.path)
}

/// Makes the path a file of no bytes that has this time.
pub fn begin_timed<T: DataFolder>(tree: &mut T, path: &str, time: u64) -> Result<(), DeviceError>
    ensures there { OnOk result (IfSome (T.state tree.new).nodes (HasTimed path.now [] time)) }
    ensures others { SameBut path.now (T.state tree.old).nodes (T.state tree.new).nodes }
    // Where its folder is there, no call is faulty.
    ensures proper { ProperAt path.now (T.state tree.old) (T.state tree.new) }
    ensures opened { (T.state tree.new).opened ≡ (T.state tree.old).opened }
    ensures cause { HasCause (T.state tree.old).faults (T.state tree.new).faults result }
{
    tree.begin(path)?;
    tree.set_time(path, time)
}

// Begins a file that has no bytes, with its time.
fn begin_one<T: DataFolder>(tree: &mut T, file: &FileEntry) -> Result<(), DeviceError>
    ensures bare { OnOk result (HasBare (file_entry_of file.now) (T.state tree.new)) }
    ensures others { ChangesBareFile (file_entry_of file.now) (T.state tree.old) (T.state tree.new) }
    ensures proper { ProperAt (string_bytes file.now.path) (T.state tree.old) (T.state tree.new) }
    ensures opened { (T.state tree.new).opened ≡ (T.state tree.old).opened }
    ensures cause { HasCause (T.state tree.old).faults (T.state tree.new).faults result }
{
    if !is_bare(file) {
        return Ok(());
    }
    begin_timed(tree, &file.path, file.time)
}

// Begins all files that have no bytes, each with its time.
pub fn begin_bare<T: DataFolder>(tree: &mut T, files: &[FileEntry]) -> Result<(), DeviceError>
    requires order { are_in_order (map (λ e. e.path) (map file_entry_of files.now)) ≡ true }
    ensures bares { OnOk result (BeginsBare (map file_entry_of files.now) (T.state tree.old) (T.state tree.new)) }
    ensures others { ChangesBareFiles (map file_entry_of files.now) (T.state tree.old) (T.state tree.new) }
    // Where their folders are there, no call is faulty.
    ensures proper { ProperWhere (ArePlaced (map file_entry_of files.now)) (T.state tree.old) (T.state tree.new) }
    ensures opened { (T.state tree.new).opened ≡ (T.state tree.old).opened }
    ensures cause { HasCause (T.state tree.old).faults (T.state tree.new).faults result }
{
    for file in files {
        begin_one(tree, file)?;
    }
    Ok(())
}
