// Makes the data folder ready for a backup's files.
ghost use Rattle.std.specs.Prelude.{◌≡◌, bytes_eq, map, OnOk, string_bytes};
ghost use Rattle.base_devices.specs.Cause.{HasCause};
ghost use Rattle.base_model.specs.Values.{manifest_of};
ghost use Rattle.restore_steps.specs.Clearing.{control_path, stays, IsOrdered, StaysNone};
ghost use Rattle.restore_steps.specs.Preparing.{ClearsNode, SparesBesideNode, ClearsNodeProperly, ClearsTree, SparesOthers, ClearsProperly, MakesFolders, MakesProperly};
ghost use Rattle.restore_steps.specs.Trees.{ChangesAmong};

use crate::folders::backup_paths::{has_file, has_folder};
use base_devices::{DataFolder, DeviceError, FolderEntry, Node};
use base_model::Manifest;

// The file without which no server starts.
const CONTROL: &str = "global/pg_control";

pub fn is_control(path: &str) -> bool
    ensures { result ≡ bytes_eq path.now control_path }
{
    path == CONTROL
}

// Whether a node may stay.
fn stays(manifest: &Manifest, node: &FolderEntry) -> bool
    requires { IsOrdered (manifest_of manifest.now) }
    ensures { result ≡ stays (manifest_of manifest.now) (string_bytes node.now.path) node.now.node }
{
    match node.node {
        Node::File { .. } => has_file(&manifest.files, &node.path) && !is_control(&node.path),
        Node::Folder => has_folder(&manifest.folders, &node.path),
        Node::Link | Node::Other => false,
    }
}

// Removes a node that may not stay.
fn clear_one<T: DataFolder>(
    tree: &mut T,
    manifest: &Manifest,
    node: &FolderEntry,
) -> Result<(), DeviceError>
    requires { IsOrdered (manifest_of manifest.now) }
    ensures cleared { OnOk result (ClearsNode manifest.now node.now (T.state tree.old) (T.state tree.new)) }
    ensures others { SparesBesideNode manifest.now node.now (T.state tree.old) (T.state tree.new) }
    ensures control { StaysNone control_path (T.state tree.old).nodes (T.state tree.new).nodes }
    ensures proper { ClearsNodeProperly manifest.now node.now (T.state tree.old) (T.state tree.new) }
    ensures opened { (T.state tree.new).opened ≡ (T.state tree.old).opened }
    ensures cause { HasCause (T.state tree.old).faults (T.state tree.new).faults result }
{
    if stays(manifest, node) {
        return Ok(());
    }
    tree.remove(&node.path)
}

// Removes what may not stay, what lies in a folder before the folder.
pub fn clear<T: DataFolder>(
    tree: &mut T,
    manifest: &Manifest,
    seen: &[FolderEntry],
) -> Result<(), DeviceError>
    requires order { IsOrdered (manifest_of manifest.now) }
    ensures cleared { OnOk result (ClearsTree manifest.now seen.now (T.state tree.old) (T.state tree.new)) }
    // Whatever the result, only what is listed and may not stay has changed.
    ensures others { SparesOthers manifest.now seen.now (T.state tree.old) (T.state tree.new) }
    ensures control { StaysNone control_path (T.state tree.old).nodes (T.state tree.new).nodes }
    // Where all that is there is listed, no folder is removed that holds something.
    ensures proper { ClearsProperly manifest.now seen.now (T.state tree.old) (T.state tree.new) }
    ensures opened { (T.state tree.new).opened ≡ (T.state tree.old).opened }
    ensures cause { HasCause (T.state tree.old).faults (T.state tree.new).faults result }
{
    let mut left = seen.len();
    while left > 0 {
        left -= 1;
        clear_one(tree, manifest, &seen[left])?;
    }
    Ok(())
}

// Makes the folders of a backup, each before what lies in it.
pub fn make_folders<T: DataFolder>(tree: &mut T, folders: &[String]) -> Result<(), DeviceError>
    ensures made { OnOk result (MakesFolders (map string_bytes folders.now) (T.state tree.old) (T.state tree.new)) }
    // Whatever the result, only these paths have changed.
    ensures others { ChangesAmong (map string_bytes folders.now) (T.state tree.old) (T.state tree.new) }
    ensures control { StaysNone control_path (T.state tree.old).nodes (T.state tree.new).nodes }
    // In byte order each is made where the folder that holds it is there.
    ensures proper { MakesProperly (map string_bytes folders.now) (T.state tree.old) (T.state tree.new) }
    ensures opened { (T.state tree.new).opened ≡ (T.state tree.old).opened }
    ensures cause { HasCause (T.state tree.old).faults (T.state tree.new).faults result }
{
    for folder in folders {
        tree.make(folder)?;
    }
    Ok(())
}
