// The digests that say whether files are those of the prior backup.
ghost use Rattle.std.specs.Prelude.{◌≡◌, true, [], ◌∷◌, map, option_map, IfOk};
ghost use Rattle.base_devices.specs.Order.{are_in_order};
ghost use Rattle.base_model.specs.Values.{file_entry_of};
ghost use Rattle.worker_protocol.specs.Views.{job_of};
ghost use Rattle.backup_plan.specs.Digests.{is_asked, digest_job};
ghost use Rattle.backup_plan.specs.Planned.{digests_for};
ghost use Rattle.backup_plan.specs.Views.{taken_of};

use crate::listing_walk::item_of_file;
use crate::prior_entry::find_entry;
use crate::values::Taken;
use base_model::FileEntry;
use std::alloc::{AllocError, Global};
use worker_protocol::{Job, JobKind};

// The file has bytes, is not the control file, and has the size of the prior backup's.
fn is_wanted(old: Option<&FileEntry>, file: &Taken) -> bool
    ensures { result ≡ is_asked (option_map (λ e. file_entry_of e.now) old.entry) (taken_of file.now) }
{
    let same = match old {
        None => false,
        Some(e) => e.size == file.size,
    };
    file.path.as_str() != "global/pg_control" && file.size != 0 && same
}

// A job for the digest of the whole file.
fn job_for(alloc: Global, file: &Taken) -> Result<Job, AllocError>
    ensures { IfOk result (λ j. job_of j ≡ digest_job (taken_of file.now)) }
{
    let mut items = Vec::new(alloc);
    items.push(item_of_file(file)?)?;
    Ok(Job {
        kind: JobKind::Digest,
        items,
    })
}

/// A job for each file of the listing that may be the one of the prior backup.
pub fn digests(alloc: Global, files: &[Taken], old: &[FileEntry]) -> Result<Vec<Job>, AllocError>
    requires { are_in_order (map (λ e. e.path) (map file_entry_of old.now)) ≡ true }
    ensures { IfOk result (λ js. map job_of js.items ≡ digests_for old.now files.now) }
{
    let mut jobs = Vec::new(alloc);
    for file in files {
        if is_wanted(find_entry(old, &file.path), file) {
            jobs.push(job_for(alloc, file)?)?;
        }
    }
    Ok(jobs)
}
