// Pushes the segments.
ghost use Rattle.std.specs.Prelude.{◌≡◌, ◌≤◌, ◌<◌, ◌^◌, ◌%◌, IfErr, IsSome, OnOk, Some};
ghost use Rattle.base_devices.specs.States.{CallsProperly};
ghost use Rattle.base_sample.specs.Bytes.{segment_bytes};
ghost use Rattle.base_crash_lists.specs.Beside.{StaysBeside};
ghost use Rattle.cmd_rehearse.specs.Causes.{StepCause};
ghost use Rattle.cmd_rehearse.specs.Commands.{segment_named};
ghost use Rattle.cmd_rehearse.specs.Calls.{RepoHalt, PushesPart, PushesWhole, KeepsCurrent, PushesAll, PushesHalt};

use crate::fault::{StepFault, of_push};
use archive_store::{PushFault as StoreFault, push};
use base_devices::Disk;
use base_model::{ArchiveId, ArchiveName, Segment};
use base_sample::{SYSTEM, segment_bytes};
use cmd_archive_push::of_store;
use cmd_types::Halt;
use std::alloc::Global;

// The name of the segment of this number.
fn segment_name(number: u32) -> ArchiveName
    ensures { result ≡ (segment_named number).name }
{
    ArchiveName::Segment(Segment {
        timeline: 1,
        log: 0,
        seg: number,
    })
}

// Pushes the segment of this number.
fn push_one<D: Disk>(
    alloc: Global,
    repo: &mut D,
    stanza: &str,
    id: &ArchiveId,
    number: u32,
) -> Result<(), Halt<StepFault>>
    requires fits { (id.now.version < 2 ^ 32) × (id.now.number < 2 ^ 32) }
    ensures part { PushesPart stanza.now id.now number (D.state repo.old) (D.state repo.new) }
    ensures whole { OnOk result (PushesWhole stanza.now id.now number (D.state repo.old) (D.state repo.new)) }
    ensures known { IsSome (D.state repo.old).view.now → IsSome (D.state repo.new).view.now }
    // The current cluster stays.
    ensures current { KeepsCurrent stanza.now (D.state repo.old) (D.state repo.new) }
    ensures beside { StaysBeside stanza.now (D.state repo.old).view (D.state repo.new).view }
    ensures frame { CallsProperly (D.state repo.old) (D.state repo.new) }
    ensures cause { IfErr result (RepoHalt (StepCause stanza.now) (D.state repo.old) (D.state repo.new)) }
{
    let bytes = segment_bytes(alloc, (number % 256) as u8)?;
    let name = segment_name(number);
    match push(alloc, repo, stanza, id, &name, SYSTEM, &bytes) {
        Ok(_) => Ok(()),
        Err(fault) => Err(of_push(of_store(StoreFault::Archive(fault)))),
    }
}

/// Pushes this many segments, one after another.
pub(crate) fn push_segments<D: Disk>(
    alloc: Global,
    repo: &mut D,
    stanza: &str,
    id: &ArchiveId,
    count: u32,
) -> Result<(), Halt<StepFault>>
    requires few { count ≤ 128 }
    requires fits { (id.now.version < 2 ^ 32) × (id.now.number < 2 ^ 32) }
    ensures advances { PushesAll stanza.now id.now count result (D.state repo.old) (D.state repo.new) }
    ensures beside { StaysBeside stanza.now (D.state repo.old).view (D.state repo.new).view }
    ensures frame { CallsProperly (D.state repo.old) (D.state repo.new) }
    ensures cause { PushesHalt stanza.now id.now count result (D.state repo.old) (D.state repo.new) }
{
    for before in 0..count {
        push_one(alloc, repo, stanza, id, before + 1)?;
    }
    Ok(())
}
