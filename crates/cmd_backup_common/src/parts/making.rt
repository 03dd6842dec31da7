// Makes the backup.
ghost use Rattle.std.specs.Prelude.{◌≡◌, ◌≤◌, ◌<◌, ◌^◌, vec_len, string_bytes, length, IfOk, IfErr, OnOk};
ghost use Rattle.base_devices.specs.States.{CallsProperly};
ghost use Rattle.base_model.specs.InfoFiles.{IsLabel};
ghost use Rattle.worker_pool.specs.Pools.{links_in};
ghost use Rattle.worker_pool.specs.Run.{AreReady};
ghost use Rattle.backup_make.specs.Draft.{IsDraft, main_of};
ghost use Rattle.backup_make.specs.Made.{LeavesAlike};
ghost use Rattle.backup_make.specs.Touched.{TouchesBackup};
ghost use Rattle.base_crash_lists.specs.Beside.{StaysBeside};
ghost use Rattle.cmd_backup_common.specs.Halting.{FinishHalts};
ghost use Rattle.cmd_backup_common.specs.Texts.{label_line};
ghost use Rattle.cmd_backup_common.specs.Used.{FinishesBy};

use crate::parts::fault::{BackupFault, of_make};
use backup_make::{Draft, make};
use base_devices::{Clock, Disk, Link, Scheduler};
use base_model::Label;
use base_text::NoMemory;
use cmd_types::{Halt, Outcome};
use repo_names::label_text;
use std::alloc::Global;
use worker_pool::{Lost, Pool};

/// The line that states the label of a backup that was made.
pub fn label_line(alloc: Global, label: &Label) -> Result<String, NoMemory>
    requires { IsLabel label.now }
    ensures { IfOk result (λ line. string_bytes line ≡ label_line label.now) }
{
    let label = label_text(alloc, label)?;
    Ok(format!(in alloc; "INFO: new backup label = {label}\n")?)
}

/// How many were lost.
pub fn count_of(lost: &[Lost]) -> u32
    ensures { length lost.now < 2 ^ 32 → result ≡ length lost.now }
{
    u32::try_from(lost.len()).unwrap_or(u32::MAX)
}

/// Makes the draft's backup, and returns with this line.
pub fn finish<D: Disk, L: Link, U: Scheduler, C: Clock>(
    alloc: Global,
    repo: &mut D,
    pool: &mut Pool<L, U>,
    clock: &mut C,
    draft: Draft<'_>,
    line: String,
) -> Result<Outcome, Halt<BackupFault>>
    requires draft { IsDraft draft }
    requires label { IsLabel draft.label }
    requires few { vec_len pool.old.links < 2 ^ 32 }
    requires ready { AreReady (links_in L.link_state pool.old) }
    ensures made { FinishesBy draft.entry line L.link_state pool.old D.state repo.old repo.new
        C.state clock.old clock.new result }
    ensures alike { OnOk result (LeavesAlike (main_of draft.entry) (D.state repo.old) (D.state repo.new)) }
    ensures only { TouchesBackup draft.entry (D.state repo.old) (D.state repo.new) }
    ensures beside { StaysBeside draft.entry.stanza.now (D.state repo.old).view (D.state repo.new).view }
    ensures frame { CallsProperly (D.state repo.old) (D.state repo.new) }
    ensures later { (C.state clock.old).faults ≤ (C.state clock.new).faults }
    ensures least { (C.state clock.old).least ≤ (C.state clock.new).least }
    ensures cause { IfErr result (FinishHalts draft.entry L.link_state pool.old D.state repo.old repo.new
        C.state clock.old clock.new) }
{
    let stanza = draft.stanza;
    let label = draft.label;
    match make(alloc, repo, pool, clock, draft) {
        Ok(()) => Ok(Outcome::Finished { lines: line }),
        Err(fault) => Err(of_make(alloc, stanza, &label, count_of(&pool.lost), fault)),
    }
}
