// The names at which the bytes of a backup's jobs are kept.
ghost use Rattle.std.specs.Prelude.{◌≡◌, map, string_bytes, IfOk, OnOk};
ghost use Rattle.worker_protocol.specs.Views.{job_of};
ghost use Rattle.backup_record.specs.Naming.{AddsNames, AreNamesFor, AreNamesOf, bundles_in, single_in};

use backup_plan::BackupPlan;
use std::alloc::{AllocError, Global};
use worker_protocol::Job;

// The name of a job of one file.
fn single_name(alloc: Global, folder: &str, job: &Job) -> Result<String, AllocError>
    ensures { IfOk result (λ name. string_bytes name ≡ single_in folder.now (job_of job.now)) }
{
    match job.items.as_slice() {
        [] => Ok(String::new(alloc)),
        [item, ..] => {
            let path = item.path.as_str();
            format!(in alloc; "{folder}/pg_data/{path}")
        }
    }
}

// Adds the names of jobs of one file.
fn add_singles(
    alloc: Global,
    names: &mut Vec<String>,
    folder: &str,
    jobs: &[Job],
) -> Result<(), AllocError>
    ensures { OnOk result (AddsNames (map (single_in folder.now) (map job_of jobs.now)) names.old names.new) }
{
    for job in jobs {
        names.push(single_name(alloc, folder, job)?)?;
    }
    Ok(())
}

// Adds the names of the bundles.
fn add_bundles(
    alloc: Global,
    names: &mut Vec<String>,
    folder: &str,
    jobs: &[Job],
) -> Result<(), AllocError>
    ensures { OnOk result (AddsNames (bundles_in folder.now 1 (map job_of jobs.now)) names.old names.new) }
{
    for i in 0..jobs.len() {
        let number = i + 1;
        names.push(format!(in alloc; "{folder}/bundle/{number}")?)?;
    }
    Ok(())
}

// The names of jobs of one file, of bundles, and of the last one.
fn joined(
    alloc: Global,
    folder: &str,
    singles: &[Job],
    bundles: &[Job],
    last: &[Job],
) -> Result<Vec<String>, AllocError>
    ensures { IfOk result (λ names. AreNamesOf folder.now singles.now bundles.now last.now names.items) }
{
    let mut names = Vec::new(alloc);
    add_singles(alloc, &mut names, folder, singles)?;
    add_bundles(alloc, &mut names, folder, bundles)?;
    add_singles(alloc, &mut names, folder, last)?;
    Ok(names)
}

/// The name of each job of a plan, below the folder of the backup's label.
pub fn names_of(alloc: Global, folder: &str, plan: &BackupPlan) -> Result<Vec<String>, AllocError>
    ensures { IfOk result (λ names. AreNamesFor folder.now plan.now (map string_bytes names.items)) }
{
    let jobs = plan.jobs.as_slice();
    let singles = jobs.len().min(plan.singles as usize);
    let rest = &jobs[singles..];
    let bundles = rest.len().saturating_sub(1);
    joined(
        alloc,
        folder,
        &jobs[..singles],
        &rest[..bundles],
        &rest[bundles..],
    )
}
