// The stanza and its segments.
ghost use Rattle.std.specs.Prelude.{◌≡◌, ◌≤◌, ◌<◌, ◌^◌, Some, IfOk, IfErr, IfSome, OnOk};
ghost use Rattle.base_devices.specs.States.{CallsProperly, OnlyReads};
ghost use Rattle.base_model.specs.declared.clusters.ClusterId.{ClusterId};
ghost use Rattle.base_model.specs.Fields.{at_number};
ghost use Rattle.base_model.specs.InfoFiles.{IsArchiveInfo};
ghost use Rattle.base_model.specs.Names.{archive_info};
ghost use Rattle.base_model.specs.Pair.{PairAbsent};
ghost use Rattle.base_model.specs.Values.{archive_info_of};
ghost use Rattle.base_crash_lists.specs.Beside.{StaysBeside};
ghost use Rattle.cmd_types.specs.Current.{id_kept};
ghost use Rattle.cmd_setup.specs.Readies.{IsArchiveOf};
ghost use Rattle.cmd_rehearse.specs.Advancing.{Advances};
ghost use Rattle.cmd_rehearse.specs.Causes.{LostCause, StepCause, PrefixCause, ExistsCause, IsExisting};
ghost use Rattle.cmd_rehearse.specs.Commands.{created, prepared};
ghost use Rattle.cmd_rehearse.specs.Calls.{HoldsBoth, RepoHalt};

use crate::fault::{RehearseFault, StepFault, of_create, of_info};
use crate::segment_pushes::push_segments;
use base_devices::{Disk, Locks, NotThere};
use base_model::{ArchiveId, ArchiveInfo};
use base_sample::SYSTEM;
use cmd_stanza_create::create_stanza;
use cmd_types::{Halt, Object};
use repo_pair::{InfoFault, load_pair};
use repo_stanza::{Control, archive_info_name};
use std::alloc::{AllocError, Global};

/// What the control file and the version file of the cluster state.
pub(crate) const SAMPLE: Control = Control {
    system: SYSTEM,
    control: 1300,
    catalog: 202307071,
    version: 16,
};

// The refusal of a stanza that is there.
fn exists(alloc: Global, stanza: &str) -> Result<RehearseFault, AllocError>
    ensures { IfOk result (λ fault. IsExisting stanza.now fault) }
{
    Ok(RehearseFault::StanzaExists {
        stanza: String::from_str(alloc, stanza)?,
    })
}

/// Refuses a stanza of which a member of the archive pair is there.
pub(crate) fn check_new<D: Disk>(
    alloc: Global,
    repo: &mut D,
    stanza: &str,
) -> Result<(), Halt<RehearseFault>>
    ensures new { OnOk result (IfSome (D.state repo.old).view.now (λ f. PairAbsent f (archive_info stanza.now))) }
    ensures looks { OnlyReads (D.state repo.old) (D.state repo.new) }
    ensures cause { IfErr result (RepoHalt (ExistsCause stanza.now) (D.state repo.old) (D.state repo.new)) }
{
    let name = archive_info_name(alloc, stanza)?;
    let read: Result<ArchiveInfo, InfoFault> = load_pair(alloc, repo, name.as_str());
    match read {
        Ok(_) => Err(Halt::Refused(exists(alloc, stanza)?)),
        Err(InfoFault::Damaged { .. }) => Err(Halt::Refused(exists(alloc, stanza)?)),
        Err(InfoFault::Missing) => Ok(()),
        Err(InfoFault::Disk) => Err(Halt::Failed(Object::Repo)),
        Err(InfoFault::NoMemory) => Err(Halt::NoMemory),
    }
}

/// The value of the archive pair.
pub(crate) fn read_archive<D: Disk>(
    alloc: Global,
    repo: &mut D,
    stanza: &str,
) -> Result<ArchiveInfo, Halt<StepFault>>
    ensures found { IfOk result (IsArchiveOf stanza.now (D.state repo.old).view.now) }
    ensures looks { OnlyReads (D.state repo.old) (D.state repo.new) }
    ensures cause { IfErr result (RepoHalt (LostCause stanza.now) (D.state repo.old) (D.state repo.new)) }
{
    let name = archive_info_name(alloc, stanza)?;
    match load_pair(alloc, repo, name.as_str()) {
        Ok(info) => Ok(info),
        Err(fault) => Err(of_info(fault)),
    }
}

// The archive id of the current cluster.
fn current_id(info: &ArchiveInfo) -> ArchiveId
    requires { IsArchiveInfo (archive_info_of info.now) }
    ensures fits { (result.version < 2 ^ 32) × (result.number < 2 ^ 32) }
    ensures id { (c : ClusterId) × (at_number info.now.current info.now.history.items ≡ Some c)
        × (result ≡ id_kept c) }
{
    let current = &info.history[info.current as usize - 1];
    ArchiveId {
        version: current.version,
        number: current.id,
    }
}

// Makes the stanza. No server is asked.
fn create_sample<D: Disk, K: Locks>(
    alloc: Global,
    repo: &mut D,
    locks: &K,
    stanza: &str,
) -> Result<(), Halt<StepFault>>
    requires locked { HoldsBoth stanza.now (K.state locks.now) }
    ensures advances { Advances stanza.now created result (D.state repo.old).view (D.state repo.new).view }
    ensures beside { StaysBeside stanza.now (D.state repo.old).view (D.state repo.new).view }
    ensures frame { CallsProperly (D.state repo.old) (D.state repo.new) }
    ensures cause { IfErr result (RepoHalt (StepCause stanza.now) (D.state repo.old) (D.state repo.new)) }
{
    let mut server = NotThere::new();
    match create_stanza(alloc, repo, &mut server, locks, stanza, &SAMPLE, None) {
        Ok(_) => Ok(()),
        Err(halt) => Err(of_create(halt)),
    }
}

/// Makes the stanza, and pushes two segments for each unit of the number.
pub(crate) fn prepare_stanza<D: Disk, K: Locks>(
    alloc: Global,
    repo: &mut D,
    locks: &K,
    stanza: &str,
    number: u32,
) -> Result<(), Halt<StepFault>>
    requires number { number ≤ 64 }
    requires locked { HoldsBoth stanza.now (K.state locks.now) }
    ensures advances { Advances stanza.now (prepared number) result (D.state repo.old).view (D.state repo.new).view }
    ensures beside { StaysBeside stanza.now (D.state repo.old).view (D.state repo.new).view }
    ensures frame { CallsProperly (D.state repo.old) (D.state repo.new) }
    ensures cause { IfErr result (RepoHalt (PrefixCause stanza.now number) (D.state repo.old) (D.state repo.new)) }
{
    create_sample(alloc, repo, locks, stanza)?;
    let info = read_archive(alloc, repo, stanza)?;
    let id = current_id(&info);
    push_segments(alloc, repo, stanza, &id, 2 * number)
}
