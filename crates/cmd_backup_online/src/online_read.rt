// Reads the data folder while the server is in its backup.
ghost use Rattle.std.specs.Prelude.{◌≤◌, ◌<◌, ◌^◌, vec_len, IfOk, IfErr, OnErr};
ghost use Rattle.base_devices.specs.States.{CallsProperly, OnlyReadsFolder};
ghost use Rattle.base_model.specs.InfoFiles.{IsBackupInfo};
ghost use Rattle.base_model.specs.Values.{backup_info_of};
ghost use Rattle.worker_pool.specs.Pools.{links_in};
ghost use Rattle.worker_pool.specs.Run.{AreReady};
ghost use Rattle.base_crash_lists.specs.Beside.{StaysBeside};
ghost use Rattle.cmd_backup_common.specs.Seconds.{IsNext};
ghost use Rattle.cmd_backup_offline.specs.Basis.{MayBeBasis};
ghost use Rattle.cmd_backup_online.specs.Halting.{GatherHalts};
ghost use Rattle.cmd_backup_online.specs.Running.{BeginsAt, GathersOn, GivesUpOn};
ghost use Rattle.cmd_backup_online.specs.Touching.{TouchesNext};

use crate::listing::list_folder;
use crate::order::ServerTask;
use crate::running_draft::{draft_running, fetch_running, named};
use backup_make::Fetched;
use base_devices::{Clock, DataFolder, Disk, Link, Scheduler};
use base_model::{ArchiveId, Label};
use cmd_backup_common::{BackupFault, count_of, of_make};
use cmd_types::Halt;
use server_talk::Begun;
use std::alloc::Global;
use worker_pool::Pool;

/// What was read of the data folder while the server was in its backup.
#[derive(Drop)]
pub(crate) struct Gathered<'a> {
    pub(crate) fetched: Fetched<'a>,
    pub(crate) label: Label,
    /// Under this id the cluster's log is archived.
    pub(crate) id: ArchiveId,
    /// The lines that state its kind and its label.
    pub(crate) lines: String,
}

/// Lists the data folder, and has what the next backup takes of it stored in the folder of its label. As long as it has
/// the backup that the server has started, nobody can stop that.
pub(crate) fn gather<'a, D: Disk, T: DataFolder, C: Clock, L: Link, U: Scheduler>(
    alloc: Global,
    repo: &mut D,
    tree: &mut T,
    clock: &mut C,
    pool: &mut Pool<L, U>,
    server: &Begun,
    task: ServerTask<'a>,
) -> Result<Gathered<'a>, Halt<BackupFault>>
    requires list { IsBackupInfo (backup_info_of task.next.list) }
    requires next { IsNext task.next.second (backup_info_of task.next.list) }
    requires old { MayBeBasis task.basis task.next.list }
    requires few { vec_len pool.old.links < 2 ^ 32 }
    requires ready { AreReady (links_in L.link_state pool.old) }
    ensures gathered { IfOk result (GathersOn task.entry L.link_state pool.old T.state tree.old
        D.state repo.old repo.new) }
    ensures begins { IfOk result (BeginsAt task.entry.next.second) }
    ensures unlisted { OnErr result (GivesUpOn task.entry T.state tree.old D.state repo.old repo.new) }
    ensures only { TouchesNext task.entry D.state repo.old repo.new }
    ensures beside { StaysBeside task.entry.basis.stanza.now (D.state repo.old).view (D.state repo.new).view }
    ensures frame { CallsProperly (D.state repo.old) (D.state repo.new) }
    ensures looks { OnlyReadsFolder (T.state tree.old) (T.state tree.new) }
    ensures least { (C.state clock.old).least ≤ (C.state clock.new).least }
    ensures later { (C.state clock.old).faults ≤ (C.state clock.new).faults }
    ensures cause { IfErr result (GatherHalts task.entry L.link_state pool.old D.state repo.old repo.new
        T.state tree.old tree.new C.state clock.old clock.new) }
{
    let basis = task.basis;
    let seen = list_folder(alloc, tree, clock, server)?;
    let (draft, lines) = draft_running(alloc, pool, server, &basis, &seen, task.next)?;
    let (label, id) = named(&draft);
    match fetch_running(alloc, repo, pool, server, draft) {
        Ok(fetched) => Ok(Gathered {
            fetched,
            label,
            id,
            lines,
        }),
        Err(fault) => Err(of_make(alloc, basis.stanza, &label, count_of(&pool.lost), fault)),
    }
}
