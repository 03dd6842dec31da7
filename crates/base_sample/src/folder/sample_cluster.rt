// Makes a sample cluster.
ghost use Rattle.std.specs.Prelude.{◌≡◌, ◌≤◌, ◌⊎◌, IfSome, IfErr, OnOk};
ghost use Rattle.base_devices.specs.Cause.{HasCause};
ghost use Rattle.base_devices.specs.States.{OnlyReadsFolder};
ghost use Rattle.base_model.specs.Text.{In};
ghost use Rattle.base_sample.specs.Folder.{sample_folders, made};
ghost use Rattle.base_sample.specs.Having.{IsEmpty, Has, nothing, KeepsOthers, IfFull};
ghost use Rattle.base_sample.specs.Calls.{SameWhere, ProperWhere, SampleCause};

use crate::folder::fault::FolderFault;
use crate::folder::sample_files::{write_file, write_relations};
use crate::values::{CONTROL_PATH, VERSION_BYTES, VERSION_PATH, control_bytes};
use base_devices::{DataFolder, DeviceError};
use std::alloc::Global;

// Refuses a folder that isn't empty.
fn check_empty<T: DataFolder>(alloc: Global, tree: &mut T) -> Result<(), FolderFault>
    ensures empty { OnOk result (IfSome (T.state tree.old).nodes IsEmpty) }
    ensures looks { OnlyReadsFolder (T.state tree.old) (T.state tree.new) }
    ensures cause { IfErr result (SampleCause (T.state tree.old) (T.state tree.new)) }
{
    let seen = tree.list(alloc)?;
    let Some(first) = seen.first() else {
        return Ok(());
    };
    let path = String::from_str(alloc, first.path.as_str())?;
    Err(FolderFault::NotEmpty { path })
}

// Makes the folders, each before what lies in it.
fn make_folders<T: DataFolder>(tree: &mut T) -> Result<(), DeviceError>
    ensures made { OnOk result (IfSome (T.state tree.old).nodes IsEmpty → Has nothing (T.state tree.new).nodes) }
    ensures others { SameWhere (λ q. ¬ In q sample_folders) (T.state tree.old) (T.state tree.new) }
    ensures proper { ProperWhere (λ f. IfSome f IsEmpty) (T.state tree.old) (T.state tree.new) }
    ensures opened { (T.state tree.new).opened ≡ (T.state tree.old).opened }
    ensures cause { HasCause (T.state tree.old).faults (T.state tree.new).faults result }
{
    tree.make("base")?;
    tree.make("base/5")?;
    tree.make("global")
}

// Writes all files of the cluster.
fn write_cluster<T: DataFolder>(alloc: Global, tree: &mut T, number: u32) -> Result<(), DeviceError>
    requires { number ≤ 64 }
    ensures made { OnOk result
        (Has nothing (T.state tree.old).nodes → Has (made number) (T.state tree.new).nodes) }
    ensures others { KeepsOthers number (T.state tree.old).nodes (T.state tree.new).nodes }
    ensures proper { ProperWhere (Has nothing) (T.state tree.old) (T.state tree.new) }
    ensures opened { (T.state tree.new).opened ≡ (T.state tree.old).opened }
    ensures cause { HasCause (T.state tree.old).faults (T.state tree.new).faults result }
{
    write_relations(alloc, tree, 100 * number)?;
    write_file(tree, VERSION_PATH, VERSION_BYTES)?;
    let control = control_bytes(alloc)?;
    write_file(tree, CONTROL_PATH, &control)
}

/// Makes the cluster of this number in an empty data folder, the control file as its last.
pub fn make_cluster<T: DataFolder>(
    alloc: Global,
    tree: &mut T,
    number: u32,
) -> Result<(), FolderFault>
    requires { number ≤ 64 }
    ensures empty { OnOk result (IfSome (T.state tree.old).nodes IsEmpty) }
    ensures made { OnOk result (Has (made number) (T.state tree.new).nodes) }
    ensures refused { IfErr result (λ fault. IfFull fault (OnlyReadsFolder (T.state tree.old) (T.state tree.new))) }
    // Whatever the result, a folder that isn't empty is unchanged.
    ensures left { ((T.state tree.new).nodes ≡ (T.state tree.old).nodes) ⊎ IfSome (T.state tree.old).nodes IsEmpty }
    // Whatever the result, only paths of the cluster have changed.
    ensures others { KeepsOthers number (T.state tree.old).nodes (T.state tree.new).nodes }
    ensures proper { (T.state tree.new).faulty_calls ≡ (T.state tree.old).faulty_calls }
    ensures opened { (T.state tree.new).opened ≡ (T.state tree.old).opened }
    ensures later { (T.state tree.old).faults ≤ (T.state tree.new).faults }
    ensures cause { IfErr result (SampleCause (T.state tree.old) (T.state tree.new)) }
{
    check_empty(alloc, tree)?;
    make_folders(tree)?;
    write_cluster(alloc, tree, number)?;
    Ok(())
}
