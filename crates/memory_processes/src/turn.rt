// One step of other processes: a segment that is pushed, or nothing.
ghost use Rattle.std.specs.Prelude.{◌≡◌, IsSome, IfErr, IsErrOf, OnOk, is_ok};
ghost use Rattle.base_devices.specs.States.{CallsProperly, DiskFailed};
ghost use Rattle.archive_lookup.specs.Stored.{ChangesArchive};
ghost use Rattle.memory_processes.specs.Others.{after_push, turned_by, TurnGoes, TurnGives, TurnMarks};

use crate::pushing::{end_turn, push_after};
use archive_lookup::TurnError;
use base_devices::Disk;
use base_model::{ArchiveId, Segment};
use std::alloc::Global;

/// A segment of this system that is pushed under this id, where the segment before it is stored there.
#[derive(Drop)]
pub struct OtherPush {
    pub id: ArchiveId,
    pub before: Segment,
    pub segment: Segment,
    pub system: u64,
    pub bytes: Vec<u8>,
}

/// The result of a step: whether its segment was pushed, or may have been, and how the step ended.
#[derive(Clone, Copy)]
pub(crate) struct Came {
    pub tried: bool,
    pub done: Result<(), TurnError>,
}

/// A step of other processes, in which they push this, or nothing.
#[derive(Drop)]
pub struct OtherTurn {
    push: Option<OtherPush>,
    // once it was taken, the result of it
    tried: bool,
    ended: bool,
}

impl OtherTurn {
    pub fn new(push: Option<OtherPush>) -> Self
        ensures push { result.push ≡ push }
    {
        OtherTurn {
            push,
            tried: false,
            ended: false,
        }
    }

    /// Keeps the result of it.
    pub(crate) fn note(&mut self, came: Came)
        ensures { self.new ≡ after_push self.old came }
    {
        self.tried = came.tried;
        self.ended = came.done.is_ok();
    }

    /// Takes the step: what it has to push is pushed, and marked in the spool once it is stored.
    pub(crate) fn take<D: Disk, S: Disk>(
        &self,
        alloc: Global,
        repo: &mut D,
        spool: &mut S,
        stanza: &str,
    ) -> Came
        ensures repository { TurnGoes stanza.now self.now result (D.state repo.old) (D.state repo.new) }
        ensures receipts { TurnGives D.state S.state stanza.now self.now result repo.old repo.new spool.old spool.new }
        ensures marks { OnOk result.done
            (TurnMarks S.state stanza.now self.now result spool.old spool.new) }
        ensures ended { (turned_by stanza.now (after_push self.now result)).turn.ended ≡ is_ok result.done }
        ensures repo_only { ChangesArchive stanza.now (D.state repo.old).view (D.state repo.new).view }
        ensures spool_only { ChangesArchive stanza.now (S.state spool.old).view (S.state spool.new).view }
        ensures spool_known { IsSome (S.state spool.old).view.now → IsSome (S.state spool.new).view.now }
        ensures repo_frame { CallsProperly (D.state repo.old) (D.state repo.new) }
        ensures spool_frame { CallsProperly (S.state spool.old) (S.state spool.new) }
        ensures repo { IsErrOf result.done TurnError.Repo → DiskFailed (D.state repo.old) (D.state repo.new) }
        ensures spool { IsErrOf result.done TurnError.Spool → DiskFailed (S.state spool.old) (S.state spool.new) }
    {
        match &self.push {
            None => Came {
                tried: false,
                done: Ok(()),
            },
            Some(push) => {
                let went = push_after(
                    alloc,
                    repo,
                    stanza,
                    push.id,
                    push.before,
                    push.segment,
                    push.system,
                    &push.bytes,
                );
                let done = end_turn(alloc, spool, stanza, push.segment, &push.bytes, went);
                Came {
                    tried: went.was_tried(),
                    done,
                }
            }
        }
    }
}
