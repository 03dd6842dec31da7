// Writes the files of a sample cluster.
ghost use Rattle.std.specs.Prelude.{◌≡◌, ◌<◌, ◌≤◌, ◌^◌, None, IfSome, OnOk};
ghost use Rattle.base_devices.specs.Cause.{HasCause};
ghost use Rattle.base_devices.specs.Content.{SameBut};
ghost use Rattle.base_devices.specs.DataFolder.{IsPlaced};
ghost use Rattle.base_sample.specs.Bytes.{relation_path, relation_bytes};
ghost use Rattle.base_sample.specs.Folder.{relations};
ghost use Rattle.base_sample.specs.Having.{Has, HasFile, nothing};
ghost use Rattle.base_sample.specs.Calls.{SameWhere, ProperWhere};

use crate::values::{relation_bytes, relation_path};
use base_devices::{DataFolder, DeviceError};
use std::alloc::Global;

/// Makes the path a file of these bytes.
pub(crate) fn write_file<T: DataFolder>(
    tree: &mut T,
    path: &str,
    bytes: &[u8],
) -> Result<(), DeviceError>
    ensures has { OnOk result (IfSome (T.state tree.new).nodes (HasFile path.now bytes.now)) }
    ensures others { SameBut path.now (T.state tree.old).nodes (T.state tree.new).nodes }
    ensures proper { ProperWhere (λ f. IsPlaced f path.now) (T.state tree.old) (T.state tree.new) }
    ensures opened { (T.state tree.new).opened ≡ (T.state tree.old).opened }
    ensures cause { HasCause (T.state tree.old).faults (T.state tree.new).faults result }
{
    tree.begin(path)?;
    tree.append(path, bytes)
}

// Writes the relation file of this place.
fn write_relation<T: DataFolder>(alloc: Global, tree: &mut T, place: u32) -> Result<(), DeviceError>
    requires { place < 2 ^ 31 }
    ensures has { OnOk result
        (IfSome (T.state tree.new).nodes (HasFile (relation_path place) (relation_bytes place))) }
    ensures others { SameBut (relation_path place) (T.state tree.old).nodes (T.state tree.new).nodes }
    ensures proper { ProperWhere (λ f. IsPlaced f (relation_path place)) (T.state tree.old) (T.state tree.new) }
    ensures opened { (T.state tree.new).opened ≡ (T.state tree.old).opened }
    ensures cause { HasCause (T.state tree.old).faults (T.state tree.new).faults result }
{
    let path = relation_path(alloc, place)?;
    let bytes = relation_bytes(alloc, place)?;
    write_file(tree, &path, &bytes)
}

/// Writes the first n relation files, one after another.
pub(crate) fn write_relations<T: DataFolder>(
    alloc: Global,
    tree: &mut T,
    count: u32,
) -> Result<(), DeviceError>
    requires { count < 2 ^ 31 }
    ensures has { OnOk result (Has nothing (T.state tree.old).nodes
        → Has (relations count) (T.state tree.new).nodes) }
    ensures others { SameWhere (λ q. relations count q ≡ None) (T.state tree.old) (T.state tree.new) }
    ensures proper { ProperWhere (Has nothing) (T.state tree.old) (T.state tree.new) }
    ensures opened { (T.state tree.new).opened ≡ (T.state tree.old).opened }
    ensures cause { HasCause (T.state tree.old).faults (T.state tree.new).faults result }
{
    for place in 0..count {
        write_relation(alloc, tree, place)?;
    }
    Ok(())
}
