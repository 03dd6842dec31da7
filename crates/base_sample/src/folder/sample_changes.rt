// Changes a sample cluster.
ghost use Rattle.std.specs.Prelude.{◌≡◌, ◌+◌, ◌*◌, ◌<◌, ◌≤◌, ◌^◌, IfSome, IsSome, OnOk};
ghost use Rattle.base_devices.specs.Cause.{HasCause};
ghost use Rattle.base_devices.specs.Content.{Name, Content, SameBut};
ghost use Rattle.base_devices.specs.DataFolder.{IsFileAt};
ghost use Rattle.base_sample.specs.Bytes.{relation_path, zeros};
ghost use Rattle.base_sample.specs.Folder.{made, grown, spoiled, grown_by};
ghost use Rattle.base_sample.specs.Having.{Has, KeepsOthers};
ghost use Rattle.base_sample.specs.Calls.{ChangesFilesBy, without_first, with_blank_second, SameButTwo, ProperWhere, ProperWhereGrown, with_zero_in, with_two_spoiled};

use crate::folder::sample_files::write_file;
use crate::values::{relation_path, zeros};
use base_devices::{DataFolder, DeviceError};
use std::alloc::Global;

// Adds one zero to a relation file.
fn grow_one<T: DataFolder>(alloc: Global, tree: &mut T, place: u32) -> Result<(), DeviceError>
    requires { place < 2 ^ 31 }
    ensures grown { OnOk result (ChangesFilesBy (with_zero_in place) (T.state tree.old) (T.state tree.new)) }
    ensures others { SameBut (relation_path place) (T.state tree.old).nodes (T.state tree.new).nodes }
    ensures proper { ProperWhere (λ f. IsFileAt f (relation_path place)) (T.state tree.old) (T.state tree.new) }
    ensures opened { (T.state tree.new).opened ≡ (T.state tree.old).opened }
    ensures cause { HasCause (T.state tree.old).faults (T.state tree.new).faults result }
{
    let path = relation_path(alloc, place)?;
    tree.append(&path, &[0])
}

/// Adds one zero to each relation file at a multiple of ten.
pub fn grow_cluster<T: DataFolder>(
    alloc: Global,
    tree: &mut T,
    number: u32,
) -> Result<(), DeviceError>
    requires { number ≤ 64 }
    ensures grown { OnOk result (ChangesFilesBy (grown_by (10 * number)) (T.state tree.old) (T.state tree.new)) }
    // Whatever the result, only paths of the cluster have changed.
    ensures others { KeepsOthers number (T.state tree.old).nodes (T.state tree.new).nodes }
    ensures proper { ProperWhere (Has (made number)) (T.state tree.old) (T.state tree.new) }
    ensures opened { (T.state tree.new).opened ≡ (T.state tree.old).opened }
    ensures cause { HasCause (T.state tree.old).faults (T.state tree.new).faults result }
{
    for count in 0..10 * number {
        grow_one(alloc, tree, 10 * count)?;
    }
    Ok(())
}

// Removes the first relation file.
fn remove_first<T: DataFolder>(alloc: Global, tree: &mut T) -> Result<(), DeviceError>
    ensures removed { OnOk result (ChangesFilesBy without_first (T.state tree.old) (T.state tree.new)) }
    ensures others { SameBut (relation_path 0) (T.state tree.old).nodes (T.state tree.new).nodes }
    ensures proper { ProperWhereGrown (T.state tree.old) (T.state tree.new) }
    ensures opened { (T.state tree.new).opened ≡ (T.state tree.old).opened }
    ensures cause { HasCause (T.state tree.old).faults (T.state tree.new).faults result }
{
    let path = relation_path(alloc, 0)?;
    tree.remove(&path)
}

// Puts zeros into the second relation file.
fn blank_second<T: DataFolder>(alloc: Global, tree: &mut T) -> Result<(), DeviceError>
    ensures blanked { OnOk result (ChangesFilesBy with_blank_second (T.state tree.old) (T.state tree.new)) }
    ensures others { SameBut (relation_path 1) (T.state tree.old).nodes (T.state tree.new).nodes }
    ensures proper { (c : Content) → ProperWhere (Has c) (T.state tree.old) (T.state tree.new) }
    ensures opened { (T.state tree.new).opened ≡ (T.state tree.old).opened }
    ensures cause { HasCause (T.state tree.old).faults (T.state tree.new).faults result }
{
    let path = relation_path(alloc, 1)?;
    let bytes = zeros(alloc, 512)?;
    write_file(tree, &path, &bytes)
}

/// Removes the first relation file, and puts zeros into the second.
pub fn spoil_cluster<T: DataFolder>(alloc: Global, tree: &mut T) -> Result<(), DeviceError>
    ensures spoiled { OnOk result (ChangesFilesBy with_two_spoiled (T.state tree.old) (T.state tree.new)) }
    ensures others { SameButTwo (relation_path 0) (relation_path 1) (T.state tree.old) (T.state tree.new) }
    ensures proper { ProperWhereGrown (T.state tree.old) (T.state tree.new) }
    ensures opened { (T.state tree.new).opened ≡ (T.state tree.old).opened }
    ensures cause { HasCause (T.state tree.old).faults (T.state tree.new).faults result }
{
    remove_first(alloc, tree)?;
    blank_second(alloc, tree)
}
