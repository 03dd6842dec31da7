// Which files of the data folder are kept.
ghost use Rattle.std.specs.Prelude.{◌≡◌, ◌<◌, ◌≤◌, ◌^◌, ℕ, Some, true, map, length, vec_len, slice_get, IfOk, OnOk};
ghost use Rattle.base_devices.specs.Order.{are_in_order};
ghost use Rattle.base_model.specs.Text.{In};
ghost use Rattle.base_model.specs.Values.{FileEntry as Entry, file_entry_of};
ghost use Rattle.worker_pool.specs.Pools.{links_in, LeavesLinks};
ghost use Rattle.worker_pool.specs.Run.{AreReady};
ghost use Rattle.restore_steps.specs.Sources.{IsEntry};
ghost use Rattle.restore_make.specs.Candidates.{DigestsFail, OnlyAlike, EachAlike};
ghost use Rattle.restore_make.specs.Digested.{file_of, marked_one, NoneMarked, AreMarked, IsMarkedBy, MarksEqual};

use crate::candidates::{Candidate, candidates};
use crate::digesting::digest;
use crate::fault::FillFault;
use crate::options::RestoreOptions;
use base_devices::{FolderEntry, Link, Scheduler};
use base_model::FileEntry;
use std::alloc::{AllocError, Global};
use worker_pool::{Pool, is_equal};
use worker_protocol::ItemEnd;

// This many places without a mark.
fn unmarked(alloc: Global, count: usize) -> Result<Vec<bool>, AllocError>
    ensures count { IfOk result (λ marks. length marks.items ≡ count) }
    ensures none { IfOk result (λ marks. NoneMarked marks.items) }
{
    let mut marks = Vec::new(alloc);
    for _ in 0..count {
        marks.push(false)?;
    }
    Ok(marks)
}

// Marks a candidate's place, where its file is equal.
fn mark_one(marks: &mut Vec<bool>, candidate: &Candidate<'_>, end: &Option<ItemEnd>)
    requires { candidate.now.place < length marks.old.items }
    ensures { marks.new.items ≡ marked_one candidate.now end.now marks.old.items }
{
    if is_equal(candidate.file, end) {
        marks[candidate.place] = true;
    }
}

// Marks the place of each candidate whose file is equal, among this many.
fn mark(
    alloc: Global,
    count: usize,
    candidates: &[Candidate<'_>],
    ends: &[Option<ItemEnd>],
) -> Result<Vec<bool>, AllocError>
    requires places { (k : ℕ) (c : Candidate) → slice_get candidates.now k ≡ Some c → c.place < count }
    requires ends { length candidates.now ≤ length ends.now }
    ensures by { IfOk result (λ marks. IsMarkedBy candidates.now ends.now marks.items) }
    ensures all { IfOk result (λ marks. MarksEqual candidates.now ends.now marks.items) }
{
    let mut marks = unmarked(alloc, count)?;
    for i in 0..candidates.len() {
        mark_one(&mut marks, &candidates[i], &ends[i]);
    }
    Ok(marks)
}

// Marks the places of the candidates of which workers report that they are equal, among this many.
fn mark_alike<L: Link, U: Scheduler>(
    alloc: Global,
    count: usize,
    candidates: &[Candidate<'_>],
    pool: &mut Pool<L, U>,
) -> Result<Vec<bool>, FillFault>
    requires few { vec_len pool.old.links < 2 ^ 32 }
    requires ready { AreReady (links_in L.link_state pool.old) }
    requires entries { (e : Entry) → In e (map file_of candidates.now) → IsEntry e }
    requires places { (k : ℕ) (c : Candidate) → slice_get candidates.now k ≡ Some c → c.place < count }
    ensures marked { IfOk result (λ marks. AreMarked (links_in L.link_state pool.old) candidates.now marks.items) }
    ensures left { OnOk result (LeavesLinks L.link_state pool.old pool.new) }
    ensures fault { DigestsFail result (map file_of candidates.now) L.link_state pool.old pool.new }
{
    let ends = digest(alloc, candidates, pool)?;
    Ok(mark(alloc, count, candidates, &ends)?)
}

/// Marks the files that are kept, by their places in the manifest: with delta those of which workers report that the
/// data folder has them already.
pub(crate) fn find_kept<L: Link, U: Scheduler>(
    alloc: Global,
    options: &RestoreOptions<'_>,
    files: &[FileEntry],
    seen: &[FolderEntry],
    pool: &mut Pool<L, U>,
) -> Result<Vec<bool>, FillFault>
    requires few { vec_len pool.old.links < 2 ^ 32 }
    requires ready { AreReady (links_in L.link_state pool.old) }
    requires entries { (e : Entry) → In e (map file_entry_of files.now) → IsEntry e }
    requires order { are_in_order (map (λ e. e.path) (map file_entry_of files.now)) ≡ true }
    ensures alike { IfOk result
        (λ marks. OnlyAlike options.now files.now seen.now L.link_state pool.old marks.items) }
    ensures all { IfOk result
        (λ marks. EachAlike options.now files.now seen.now L.link_state pool.old marks.items) }
    ensures left { OnOk result (LeavesLinks L.link_state pool.old pool.new) }
    ensures fault { DigestsFail result (map file_entry_of files.now) L.link_state pool.old pool.new }
{
    if !options.delta {
        return Ok(Vec::new(alloc));
    }
    let candidates = candidates(alloc, &options.recovery, files, seen)?;
    mark_alike(alloc, files.len(), &candidates, pool)
}
