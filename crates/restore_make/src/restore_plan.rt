// Which jobs a restore has.
ghost use Rattle.std.specs.Prelude.{◌≡◌, ◌<◌, ◌^◌, true, map, length, IfOk, OnOk};
ghost use Rattle.base_model.specs.InfoFiles.{IsLabel};
ghost use Rattle.base_model.specs.Text.{In};
ghost use Rattle.base_model.specs.Values.{FileEntry as Entry, file_entry_of};
ghost use Rattle.base_model.specs.StanzaName.{is_stanza};
ghost use Rattle.worker_protocol.specs.Views.{job_of};
ghost use Rattle.restore_steps.specs.Sources.{IsEntry};
ghost use Rattle.restore_make.specs.Options.{recovery_of};
ghost use Rattle.restore_make.specs.Kept.{mark_at};
ghost use Rattle.restore_make.specs.Entries.{is_read, want_of, want_in};
ghost use Rattle.restore_make.specs.Selected.{selected_jobs, selected_wants, one_job, one_want, AddsJobs, AddsWants};

use crate::options::{Recovery, is_ordinary};
use base_model::{FileEntry, Label};
use base_text::NoMemory;
use restore_steps::{Wanted, source_job};
use std::alloc::Global;
use worker_protocol::Job;

/// Which files of a backup are read: of these, the ordinary ones that have no mark.
#[derive(Clone, Copy)]
pub(crate) struct Selection<'a> {
    pub(crate) stanza: &'a str,
    pub(crate) own: &'a Label,
    pub(crate) recovery: Recovery<'a>,
    pub(crate) files: &'a [FileEntry],
    pub(crate) marks: &'a [bool],
}

// The read jobs of a restore, and the files that they are for.
#[derive(Drop)]
pub(crate) struct Planned<'a> {
    pub(crate) jobs: Vec<Job>,
    pub(crate) wanted: Vec<Wanted<'a>>,
}

/// The mark of a place; there may be fewer marks than places.
pub(crate) fn mark_at(marks: &[bool], place: usize) -> bool
    ensures { result ≡ mark_at marks.now place }
{
    match marks.get(place) {
        Some(mark) => *mark,
        None => false,
    }
}

// Whether a file is to be read: it is an ordinary one, and isn't kept.
fn is_read(recovery: &Recovery<'_>, file: &FileEntry, kept: bool) -> bool
    ensures { result ≡ is_read (recovery_of recovery.now) (file_entry_of file.now, kept) }
{
    is_ordinary(recovery, file) && !kept
}

fn want<'a>(file: &'a FileEntry) -> Wanted<'a>
    ensures { want_in result ≡ want_of (file_entry_of file.now) }
{
    Wanted {
        path: &file.path,
        size: file.size,
        sum: file.sum,
        time: file.time,
    }
}

// Adds the job of a file that is to be read.
fn add_file<'a>(
    alloc: Global,
    planned: &mut Planned<'a>,
    chosen: &Selection<'_>,
    file: &'a FileEntry,
    kept: bool,
) -> Result<(), NoMemory>
    requires stanza { is_stanza chosen.now.stanza.now ≡ true }
    requires own { IsLabel chosen.now.own.now }
    requires entry { IsEntry (file_entry_of file.now) }
    ensures jobs { OnOk result (AddsJobs (one_job chosen.now file.now kept) planned.old planned.new) }
    ensures wanted { OnOk result (AddsWants (one_want chosen.now file.now kept) planned.old planned.new) }
{
    if !is_read(&chosen.recovery, file, kept) {
        return Ok(());
    }
    let job = source_job(alloc, chosen.stanza, chosen.own, file)?;
    planned.jobs.push(job)?;
    planned.wanted.push(want(file))?;
    Ok(())
}

// Adds the jobs of all files that are to be read.
fn add_files<'a>(
    alloc: Global,
    planned: &mut Planned<'a>,
    chosen: &Selection<'a>,
) -> Result<(), NoMemory>
    requires stanza { is_stanza chosen.now.stanza.now ≡ true }
    requires own { IsLabel chosen.now.own.now }
    requires entries { (e : Entry) → In e (map file_entry_of chosen.now.files.now) → IsEntry e }
    ensures jobs { OnOk result (AddsJobs (selected_jobs chosen.now) planned.old planned.new) }
    ensures wanted { OnOk result (AddsWants (selected_wants chosen.now) planned.old planned.new) }
{
    let files = chosen.files;
    for place in 0..files.len() {
        let kept = mark_at(chosen.marks, place);
        add_file(alloc, planned, chosen, &files[place], kept)?;
    }
    Ok(())
}

/// A job for each ordinary file that isn't kept. A plan of 2^32 jobs or more counts as out of memory.
pub(crate) fn plan_files<'a>(alloc: Global, chosen: &Selection<'a>) -> Result<Planned<'a>, NoMemory>
    requires stanza { is_stanza chosen.now.stanza.now ≡ true }
    requires own { IsLabel chosen.now.own.now }
    requires entries { (e : Entry) → In e (map file_entry_of chosen.now.files.now) → IsEntry e }
    ensures few { IfOk result (λ p. length p.jobs.items < 2 ^ 32) }
    ensures jobs { IfOk result (λ p. map job_of p.jobs.items ≡ selected_jobs chosen.now) }
    ensures wanted { IfOk result (λ p. map want_in p.wanted.items ≡ selected_wants chosen.now) }
{
    let mut planned = Planned {
        jobs: Vec::new(alloc),
        wanted: Vec::new(alloc),
    };
    add_files(alloc, &mut planned, chosen)?;
    if planned.jobs.len() > u32::MAX as usize {
        return Err(NoMemory);
    }
    Ok(planned)
}
