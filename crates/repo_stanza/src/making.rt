// Makes a new stanza.
ghost use Rattle.std.specs.Prelude.{◌≡◌, OnOk, IfSome, IsSome, IsErrOf};
ghost use Rattle.base_devices.specs.States.{CallsProperly, DiskFailed};
ghost use Rattle.base_disk.specs.Store.{ChangesOnly};
ghost use Rattle.base_model.specs.InfoFiles.{IsCluster};
ghost use Rattle.repo_stanza.specs.Owned.{IsOfPairs};
ghost use Rattle.repo_stanza.specs.ControlFile.{first_cluster};
ghost use Rattle.repo_stanza.specs.Pairs.{LacksStanza};
ghost use Rattle.repo_stanza.specs.Making.{HadNoStanza, MayMake, HasMade, MakesPairs, ImagesMayMake, HasMadeSteady};

use crate::control::Control;
use crate::stanza_save::save_pairs;
use base_devices::Disk;
use base_model::Cluster;
use repo_pair::SaveFault;
use std::alloc::Global;

fn first_cluster(control: Control) -> Cluster
    ensures value { result ≡ first_cluster control }
    ensures is_cluster { IsCluster result }
{
    Cluster {
        id: 1,
        system: control.system,
        version: control.version,
        control: control.control,
        catalog: control.catalog,
    }
}

/// Makes the stanza of a cluster, where there is none.
pub(crate) fn make_stanza<D: Disk>(
    alloc: Global,
    d: &mut D,
    stanza: &str,
    control: &Control,
) -> Result<(), SaveFault>
    requires { IfSome (D.state d.old).view.now (LacksStanza stanza.now) }
    ensures new { HadNoStanza stanza.now (D.state d.old) }
    ensures part { MayMake stanza.now control.now (D.state d.old) (D.state d.new) }
    ensures done { OnOk result (HasMade stanza.now control.now (D.state d.old) (D.state d.new)) }
    ensures members { OnOk result (MakesPairs stanza.now control.now (D.state d.old) (D.state d.new)) }
    ensures moves { ImagesMayMake stanza.now control.now (D.state d.old) (D.state d.new) }
    ensures made { OnOk result (HasMadeSteady stanza.now control.now (D.state d.old) (D.state d.new)) }
    ensures known { IsSome (D.state d.old).view.now → IsSome (D.state d.new).view.now }
    ensures only { ChangesOnly (IsOfPairs stanza.now) (D.state d.old).view (D.state d.new).view }
    ensures frame { CallsProperly (D.state d.old) (D.state d.new) }
    ensures cause { IsErrOf result SaveFault.Disk → DiskFailed (D.state d.old) (D.state d.new) }
{
    let cluster = first_cluster(*control);
    save_pairs(alloc, d, stanza, &cluster)?;
    Ok(())
}
