// The cluster of a data folder.
ghost use Rattle.std.specs.Prelude.{◌≡◌, IfOk, IfErr, IfSome, IsSome, false};
ghost use Rattle.base_devices.specs.States.{OnlyReadsFolder};
ghost use Rattle.cmd_types.specs.Cluster.{control_bytes, ClusterCause};
ghost use Rattle.cmd_setup.specs.Folder.{IsControlPrefix, IsVersionPrefix, IsKnown, NoCluster, FolderCause};
ghost use Rattle.cmd_setup.specs.Readies.{IfAsked};

use base_devices::{DataFolder, ReadableFile};
use cmd_types::{ControlFile, Halt, Object, StageFault, halted, read_prefix};
use repo_stanza::{Control, ControlFault, read_control};
use std::alloc::Global;

// The identity needs no more of the control file.
const CONTROL_PREFIX: usize = 16;

// A version's text is shorter, so one byte more shows a text that is none.
const VERSION_PREFIX: usize = 33;

fn read_control_file<T: DataFolder>(
    alloc: Global,
    tree: &mut T,
) -> Result<Vec<u8>, Halt<StageFault>>
    ensures bytes { IfOk result (λ v. IsControlPrefix (T.state tree.old).nodes v.items) }
    ensures cause { IfErr result (FolderCause ClusterCause (T.state tree.old) (T.state tree.new)) }
    ensures looks { OnlyReadsFolder (T.state tree.old) (T.state tree.new) }
{
    match read_prefix(alloc, tree, &ReadableFile::Control, CONTROL_PREFIX) {
        Ok(Some(bytes)) => Ok(bytes),
        Ok(None) => Err(Halt::Refused(StageFault::ControlMissing {
            file: ControlFile::Control,
        })),
        Err(error) => Err(halted(Object::TheDataFolder, error)),
    }
}

fn read_version_file<T: DataFolder>(
    alloc: Global,
    tree: &mut T,
) -> Result<Vec<u8>, Halt<StageFault>>
    requires { IfSome (T.state tree.old).nodes (λ f. IsSome (control_bytes f)) }
    ensures bytes { IfOk result (λ v. IsVersionPrefix (T.state tree.old).nodes v.items) }
    ensures cause { IfErr result (FolderCause ClusterCause (T.state tree.old) (T.state tree.new)) }
    ensures looks { OnlyReadsFolder (T.state tree.old) (T.state tree.new) }
{
    match read_prefix(alloc, tree, &ReadableFile::Version, VERSION_PREFIX) {
        Ok(Some(bytes)) => Ok(bytes),
        Ok(None) => Err(Halt::Refused(StageFault::ControlMissing {
            file: ControlFile::Version,
        })),
        Err(error) => Err(halted(Object::TheDataFolder, error)),
    }
}

// What the data folder says about its cluster.
fn read_cluster<T: DataFolder>(alloc: Global, tree: &mut T) -> Result<Control, Halt<StageFault>>
    ensures known { IfOk result (IsKnown (T.state tree.old).nodes) }
    ensures cause { IfErr result (FolderCause ClusterCause (T.state tree.old) (T.state tree.new)) }
    ensures looks { OnlyReadsFolder (T.state tree.old) (T.state tree.new) }
{
    let control = read_control_file(alloc, tree)?;
    let version = read_version_file(alloc, tree)?;
    match read_control(&control, &version) {
        Ok(known) => Ok(known),
        Err(ControlFault::ControlShort { length }) => {
            Err(Halt::Refused(StageFault::ControlShort { length }))
        }
        Err(ControlFault::VersionText) => Err(Halt::Refused(StageFault::VersionText)),
        Err(ControlFault::VersionUnsupported { version }) => {
            Err(Halt::Refused(StageFault::VersionUnsupported { version }))
        }
    }
}

/// What the data folder says about its cluster, where it is asked for.
pub(crate) fn cluster_by<T: DataFolder>(
    alloc: Global,
    tree: &mut T,
    asked: bool,
) -> Result<Option<Control>, Halt<StageFault>>
    ensures known { IfOk result (IfAsked asked (IsKnown (T.state tree.old).nodes)) }
    ensures unread { asked ≡ false → tree.new ≡ tree.old }
    ensures cause { IfErr result (FolderCause (NoCluster asked) (T.state tree.old) (T.state tree.new)) }
    ensures looks { OnlyReadsFolder (T.state tree.old) (T.state tree.new) }
{
    if asked {
        Ok(Some(read_cluster(alloc, tree)?))
    } else {
        Ok(None)
    }
}
