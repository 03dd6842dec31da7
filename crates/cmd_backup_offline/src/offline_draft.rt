// What the backup is to be made of.
ghost use Rattle.std.specs.Prelude.{◌≡◌, ◌≤◌, ◌<◌, ◌^◌, map, length, vec_len, string_bytes, IfOk, IfErr, OnOk};
ghost use Rattle.base_devices.specs.States.{OnlyReads};
ghost use Rattle.base_model.specs.InfoFiles.{IsBackupInfo, IsLabel};
ghost use Rattle.base_model.specs.Values.{backup_info_of};
ghost use Rattle.worker_pool.specs.Pools.{LeavesLinks, links_in};
ghost use Rattle.worker_pool.specs.Run.{AreReady};
ghost use Rattle.backup_plan.specs.Filter.{IsListing, HasFile, most_files};
ghost use Rattle.backup_plan.specs.Listed.{control_path};
ghost use Rattle.backup_plan.specs.Views.{taken_of};
ghost use Rattle.backup_make.specs.Draft.{IsDraft};
ghost use Rattle.cmd_backup_common.specs.Seconds.{IsNext};
ghost use Rattle.cmd_backup_offline.specs.Basis.{AreLinesOf, DraftHalts, IsDraftBy, IsDraftOfTaken, IsDraftOver, MayBeBasis};

use crate::backup_messages::{lines_of, warning_of};
use crate::equal::find_equal;
use crate::order::BackupBasis;
use backup_make::Draft;
use backup_plan::{Listing, filter};
use base_devices::{Clock, Disk, FolderEntry, Link, Scheduler};
use base_model::BackupInfo;
use base_text::NoMemory;
use cmd_backup_common::{
    BackupFault, DraftOrder, current_cluster, draft_ordered, next_second, of_plan, of_second,
};
use cmd_types::Halt;
use std::alloc::Global;
use worker_pool::Pool;

/// The draft of these files and folders, named by this second, besides the backups that the list has, and the lines
/// that state its kind and its label. `equal` marks the files whose digest is that of the basis's file.
pub fn draft_listed<'a>(
    alloc: Global,
    basis: &BackupBasis<'a>,
    second: u64,
    equal: &[bool],
    listing: Listing,
    list: BackupInfo,
) -> Result<(Draft<'a>, String), NoMemory>
    requires listing { IsListing (map taken_of listing.files.items) (map string_bytes listing.folders.items) }
    requires control { HasFile control_path (map taken_of listing.files.items) }
    requires few { length (map taken_of listing.files.items) ≤ most_files }
    requires list { IsBackupInfo (backup_info_of list) }
    requires next { IsNext second (backup_info_of list) }
    requires old { MayBeBasis basis.now list }
    requires same { length equal.now ≡ length listing.files.items }
    ensures draft { IfOk result (λ d. IsDraft d.0) }
    ensures by { IfOk result (λ d. IsDraftBy basis.now list second equal.now listing d.0) }
    ensures later { IfOk result (λ d. IsDraftOfTaken basis.now list second listing d.0) }
    ensures label { IfOk result (λ d. IsLabel d.0.label) }
    ensures lines { IfOk result (λ d. AreLinesOf basis.now list d.0 d.1) }
{
    let warning = warning_of(basis.order.kind, &list);
    let cluster = current_cluster(&list);
    let order = DraftOrder {
        stanza: basis.stanza,
        kind: basis.order.kind,
        settings: basis.order.settings,
        old: basis.old,
    };
    let draft = draft_ordered(alloc, second, cluster, &order, equal, listing, list)?;
    let lines = lines_of(alloc, warning, &draft.label)?;
    Ok((draft, lines))
}

/// The draft of what the listing of a stopped server's folder shows, and its lines. With delta workers report first
/// which files have the digests of those of the basis.
pub fn draft_offline<'a, D: Disk, L: Link, U: Scheduler, C: Clock>(
    alloc: Global,
    repo: &mut D,
    pool: &mut Pool<L, U>,
    clock: &mut C,
    basis: &BackupBasis<'a>,
    seen: &[FolderEntry],
    list: BackupInfo,
) -> Result<(Draft<'a>, String), Halt<BackupFault>>
    requires few { vec_len pool.old.links < 2 ^ 32 }
    requires ready { AreReady (links_in L.link_state pool.old) }
    requires list { IsBackupInfo (backup_info_of list) }
    requires old { MayBeBasis basis.now list }
    ensures draft { IfOk result (λ d. IsDraft d.0) }
    ensures later { IfOk result (λ d. IsDraftOver basis.now list seen.now L.link_state pool.old
        C.state clock.old clock.new d.0) }
    ensures label { IfOk result (λ d. IsLabel d.0.label) }
    ensures lines { IfOk result (λ d. AreLinesOf basis.now list d.0 d.1) }
    ensures left { OnOk result (LeavesLinks L.link_state pool.old pool.new) }
    ensures few { OnOk result (vec_len pool.new.links < 2 ^ 32) }
    ensures ready { OnOk result (AreReady (links_in L.link_state pool.new)) }
    ensures looks { OnlyReads (D.state repo.old) (D.state repo.new) }
    ensures clock { (C.state clock.old).faults ≤ (C.state clock.new).faults }
    ensures least { (C.state clock.old).least ≤ (C.state clock.new).least }
    ensures cause { IfErr result (DraftHalts basis.now list seen.now L.link_state pool.old D.state repo.old repo.new
        C.state clock.old clock.new) }
{
    let second = match next_second(alloc, repo, clock, basis.stanza, &list) {
        Ok(second) => second,
        Err(fault) => return Err(of_second(fault)),
    };
    let listing = match filter(alloc, seen, false) {
        Ok(listing) => listing,
        Err(fault) => return Err(of_plan(fault)),
    };
    let delta = basis.order.settings.delta;
    let equal = find_equal(alloc, pool, delta, &listing, basis.old)?;
    match draft_listed(alloc, basis, second, &equal, listing, list) {
        Ok(drafted) => Ok(drafted),
        Err(_) => Err(Halt::NoMemory),
    }
}
