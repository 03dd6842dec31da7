// The files of a backup's manifest.
ghost use Rattle.std.specs.Prelude.{◌≡◌, length, map, option_map, IfOk};
ghost use Rattle.base_model.specs.Values.{file_entry_of};
ghost use Rattle.backup_plan.specs.Views.{taken_of};
ghost use Rattle.backup_plan.specs.declared.values.Choice.TheVariants.{Bundle};
ghost use Rattle.backup_record.specs.Entries.{copied, empty_entry, left_entry};
ghost use Rattle.backup_record.specs.Views.{IsEntryFor, entries_in};

use crate::places::{end_of, sum_at};
use crate::ran::Ran;
use backup_plan::{Choice, Taken, find_entry};
use backup_sink::EndedItem;
use base_model::{Bundled, FileEntry, Label};
use base_text::Sum;
use std::alloc::{AllocError, Global};
use worker_protocol::ItemEnd;

// A file that was read, unless it had vanished.
fn copied_entry(
    file: &Taken,
    at: Option<Bundled>,
    end: Option<EndedItem>,
) -> Result<Option<FileEntry>, AllocError>
    ensures { IfOk result (λ o. option_map file_entry_of o ≡ copied (taken_of file.now) at end) }
{
    let Some(end) = end else {
        return Ok(None);
    };
    match end.how {
        ItemEnd::Vanished => Ok(None),
        ItemEnd::Whole { length, sum } => Ok(Some(FileEntry {
            path: file.path.clone()?,
            size: length,
            time: file.time,
            sum,
            reference: None,
            bundle: if length == 0 { None } else { at },
        })),
    }
}

// A file of the prior backup, which refers to the one that has its bytes.
fn left(prior: Label, file: &Taken, e: &FileEntry) -> Result<FileEntry, AllocError>
    ensures { IfOk result (λ r. file_entry_of r ≡ left_entry prior (taken_of file.now) (file_entry_of e.now)) }
{
    let reference = match e.reference {
        Some(label) => label,
        None => prior,
    };
    Ok(FileEntry {
        path: e.path.clone()?,
        size: e.size,
        time: file.time,
        sum: e.sum,
        reference: Some(reference),
        bundle: e.bundle,
    })
}

// A file without bytes.
fn empty(file: &Taken) -> Result<FileEntry, AllocError>
    ensures { IfOk result (λ r. file_entry_of r ≡ empty_entry (taken_of file.now)) }
{
    Ok(FileEntry {
        path: file.path.clone()?,
        size: 0,
        time: file.time,
        sum: Sum::of(&[]),
        reference: None,
        bundle: None,
    })
}

// A file of a bundle.
fn bundled(
    ran: &Ran<'_>,
    file: &Taken,
    number: u32,
    item: u32,
) -> Result<Option<FileEntry>, AllocError>
    ensures { IfOk result (IsEntryFor ran.now file.now (Bundle number item)) }
{
    let job = ran.singles as usize + (number as usize).saturating_sub(1);
    let Some(at) = sum_at(ran.places, job, item as usize) else {
        return Ok(None);
    };
    copied_entry(
        file,
        Some(Bundled { number, at }),
        end_of(ran.ends, job, item as usize),
    )
}

// The manifest's entry of a file.
fn entry(ran: &Ran<'_>, file: &Taken, choice: Choice) -> Result<Option<FileEntry>, AllocError>
    ensures { IfOk result (IsEntryFor ran.now file.now choice) }
{
    match choice {
        Choice::Skip => match find_entry(ran.old, &file.path) {
            None => Ok(None),
            Some(e) => Ok(Some(left(ran.prior, file, e)?)),
        },
        Choice::Empty => Ok(Some(empty(file)?)),
        Choice::Alone { job } => copied_entry(file, None, end_of(ran.ends, job as usize, 0)),
        Choice::Bundle { number, item } => bundled(ran, file, number, item),
        Choice::Last => copied_entry(
            file,
            None,
            end_of(ran.ends, ran.ends.len().saturating_sub(1), 0),
        ),
    }
}

/// The files of the manifest, in the order of the listing.
pub fn entries_of(
    alloc: Global,
    ran: &Ran<'_>,
    files: &[Taken],
    choices: &[Choice],
) -> Result<Vec<FileEntry>, AllocError>
    requires { length choices.now ≡ length files.now }
    ensures { IfOk result (λ v. map file_entry_of v.items ≡ entries_in ran.now files.now choices.now) }
{
    let mut list = Vec::new(alloc);
    for i in 0..files.len() {
        if let Some(e) = entry(ran, &files[i], choices[i])? {
            list.push(e)?;
        }
    }
    Ok(list)
}
