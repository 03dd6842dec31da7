// Which files of the data folder are those of the prior backup, by their digests.
ghost use Rattle.std.specs.Prelude.{◌≡◌, ◌<◌, ◌≤◌, ◌^◌, true, map, length, vec_len, string_bytes, option_map, IfOk, IfErr, OnOk};
ghost use Rattle.base_devices.specs.Order.{are_in_order};
ghost use Rattle.base_model.specs.Values.{file_entry_of};
ghost use Rattle.worker_protocol.specs.Views.{job_of};
ghost use Rattle.worker_pool.specs.Pools.{LeavesLinks, links_in};
ghost use Rattle.worker_pool.specs.Run.{AreReady};
ghost use Rattle.backup_plan.specs.Filter.{IsListing, paths_of, most_files};
ghost use Rattle.backup_plan.specs.Planned.{digests_for};
ghost use Rattle.backup_plan.specs.Views.{taken_of};
ghost use Rattle.backup_make.specs.Storing.{IsPathAt};
ghost use Rattle.cmd_backup_offline.specs.Basis.{EqualHalts, MarksFiles, marks_for};
ghost use Rattle.cmd_backup_offline.specs.Equal.{begins_with, first_equal, next_mark};

use backup_plan::{Listing, Taken, digests, find_entry};
use base_devices::{Link, Scheduler};
use base_model::FileEntry;
use cmd_backup_common::{BackupFault, count_of, none_equal};
use cmd_types::Halt;
use std::alloc::{AllocError, Global};
use worker_pool::{DispatchFault, Pool, is_equal, run_digests};
use worker_protocol::{ItemEnd, Job};

// The job's first item is the file.
fn is_job_of(job: &Job, file: &Taken) -> bool
    ensures { result ≡ begins_with (job_of job.now).items (taken_of file.now) }
{
    match job.items.as_slice() {
        [item, ..] => item.path == file.path,
        [] => false,
    }
}

// The first of these ends is that of the prior backup's file.
fn first_equal(entry: Option<&FileEntry>, ends: &[Option<ItemEnd>]) -> bool
    ensures { result ≡ first_equal (option_map (λ e. file_entry_of e.now) entry.entry) ends.now }
{
    match (entry, ends) {
        (Some(entry), [end, ..]) => is_equal(entry, end),
        _ => false,
    }
}

// The mark of the file, where the first of these jobs is its job.
fn next_mark(
    old: &[FileEntry],
    jobs: &[Job],
    ends: &[Option<ItemEnd>],
    file: &Taken,
) -> Option<bool>
    requires { are_in_order (map (λ e. e.path) (map file_entry_of old.now)) ≡ true }
    ensures { result ≡ next_mark (map file_entry_of old.now) (map job_of jobs.now) ends.now (taken_of file.now) }
{
    match jobs {
        [job, ..] if is_job_of(job, file) => {
            Some(first_equal(find_entry(old, &file.path), ends))
        }
        _ => None,
    }
}

// The marks of all files, by how their digest jobs ended.
fn marks_of(
    alloc: Global,
    files: &[Taken],
    old: &[FileEntry],
    jobs: &[Job],
    ends: &[Option<ItemEnd>],
) -> Result<Vec<bool>, AllocError>
    requires order { are_in_order (map (λ e. e.path) (map file_entry_of old.now)) ≡ true }
    requires files { are_in_order (paths_of (map taken_of files.now)) ≡ true }
    requires jobs { map job_of jobs.now ≡ digests_for old.now files.now }
    requires ends { length ends.now ≡ length jobs.now }
    ensures { IfOk result (λ marks. marks.items ≡ marks_for old.now files.now ends.now) }
{
    let mut marks = Vec::new(alloc);
    let mut jobs_left = jobs;
    let mut ends_left = ends;
    for file in files {
        match next_mark(old, jobs_left, ends_left, file) {
            Some(equal) => {
                marks.push(equal)?;
                jobs_left = &jobs_left[1..];
                ends_left = &ends_left[1..];
            }
            None => marks.push(false)?,
        }
    }
    Ok(marks)
}

// The path of an item of a job.
fn path_at(alloc: Global, job: &Job, item: u32) -> Result<String, AllocError>
    requires { item < vec_len job.now.items }
    ensures { IfOk result (λ path. IsPathAt (job_of job.now) item (string_bytes path)) }
{
    String::from_str(alloc, &job.items[item as usize].path)
}

// Marks the files that are those of the prior backup, as workers report by these digest jobs.
fn digest_files<L: Link, U: Scheduler>(
    alloc: Global,
    pool: &mut Pool<L, U>,
    listing: &Listing,
    old: &[FileEntry],
    jobs: &[Job],
) -> Result<Vec<bool>, Halt<BackupFault>>
    requires few { vec_len pool.old.links < 2 ^ 32 }
    requires ready { AreReady (links_in L.link_state pool.old) }
    requires listing { IsListing (map taken_of listing.now.files.items) (map string_bytes listing.now.folders.items) }
    requires few_files { length (map taken_of listing.now.files.items) ≤ most_files }
    requires order { are_in_order (map (λ e. e.path) (map file_entry_of old.now)) ≡ true }
    requires jobs { map job_of jobs.now ≡ digests_for old.now listing.now.files.items }
    ensures marked { IfOk result (MarksFiles L.link_state pool.old old.now listing.now) }
    ensures left { OnOk result (LeavesLinks L.link_state pool.old pool.new) }
    ensures cause { IfErr result (EqualHalts L.link_state pool.old old.now listing.now) }
{
    match run_digests(alloc, jobs, pool) {
        Ok(ends) => Ok(marks_of(alloc, &listing.files, old, jobs, &ends)?),
        Err(DispatchFault::WorkersLost) => {
            let lost = count_of(&pool.lost);
            Err(Halt::Refused(BackupFault::WorkersLost { lost }))
        }
        Err(DispatchFault::Unread { job, item }) => {
            let path = path_at(alloc, &jobs[job as usize], item)?;
            Err(Halt::Refused(BackupFault::Unread { path }))
        }
        Err(DispatchFault::PartSink) => Err(Halt::NoMemory),
        Err(DispatchFault::NoMemory) => Err(Halt::NoMemory),
    }
}

/// Marks the files of the listing that are those of the prior backup, which has these entries: with delta those of
/// which workers report the entry's digest. Without delta none is digested.
pub fn find_equal<L: Link, U: Scheduler>(
    alloc: Global,
    pool: &mut Pool<L, U>,
    delta: bool,
    listing: &Listing,
    old: &[FileEntry],
) -> Result<Vec<bool>, Halt<BackupFault>>
    requires few { vec_len pool.old.links < 2 ^ 32 }
    requires ready { AreReady (links_in L.link_state pool.old) }
    requires listing { IsListing (map taken_of listing.now.files.items) (map string_bytes listing.now.folders.items) }
    requires few_files { length (map taken_of listing.now.files.items) ≤ most_files }
    requires order { are_in_order (map (λ e. e.path) (map file_entry_of old.now)) ≡ true }
    ensures same { IfOk result (λ equal. length equal.items ≡ length listing.now.files.items) }
    // A mark says that a link reported the digest of the file's entry. Without one the file's digest wasn't asked for,
    // or another was reported.
    ensures marked { delta ≡ true → IfOk result (MarksFiles L.link_state pool.old old.now listing.now) }
    ensures left { OnOk result (LeavesLinks L.link_state pool.old pool.new) }
    ensures few { OnOk result (vec_len pool.new.links < 2 ^ 32) }
    ensures ready { OnOk result (AreReady (links_in L.link_state pool.new)) }
    ensures cause { IfErr result (EqualHalts L.link_state pool.old old.now listing.now) }
{
    if delta {
        let jobs = digests(alloc, &listing.files, old)?;
        return digest_files(alloc, pool, listing, old, &jobs);
    }
    Ok(none_equal(alloc, &listing.files)?)
}
