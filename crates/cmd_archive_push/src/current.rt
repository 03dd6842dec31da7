// The stanza's current cluster.
ghost use Rattle.std.specs.Prelude.{◌<◌, ◌^◌, IfOk, IfErr};
ghost use Rattle.base_model.specs.InfoFiles.{IsArchiveInfo};
ghost use Rattle.base_model.specs.Values.{archive_info_of};
ghost use Rattle.cmd_archive_push.specs.Causes.{IsIdOfCurrent, HasOtherCurrent};

use crate::fault::PushFault;
use base_model::{ArchiveId, ArchiveInfo};
use cmd_types::Halt;
use repo_stanza::{Control, Identity};

/// The archive id of the stanza's current cluster, where that is the data folder's.
pub fn id_of(info: &ArchiveInfo, known: &Control) -> Result<ArchiveId, Halt<PushFault>>
    requires { IsArchiveInfo (archive_info_of info.now) }
    ensures fits { IfOk result (λ id. (id.version < 2 ^ 32) × (id.number < 2 ^ 32)) }
    ensures id { IfOk result (IsIdOfCurrent info.now known.now) }
    ensures mismatch { IfErr result (HasOtherCurrent info.now known.now) }
{
    let current = &info.history[info.current as usize - 1];
    let kept = Identity {
        system: current.system,
        version: current.version,
    };
    let found = Identity {
        system: known.system,
        version: known.version,
    };
    if kept != found {
        return Err(Halt::Refused(PushFault::StanzaMismatch { kept, found }));
    }
    Ok(ArchiveId {
        version: current.version,
        number: current.id,
    })
}
