// The result of files, by their names.
ghost use Rattle.std.specs.Prelude.{length, IfOk, OnOk, IfErr, IfSome, IfNone};
ghost use Rattle.restore_make.specs.Written.{AllRight};
ghost use Rattle.restore_make.specs.Faults.{IsWrongAmong, ShowsDamage, ShowsWrong, HasItsFile, Names};

use crate::fault::FillFault;
use restore_steps::{Filed, Wanted};
use std::alloc::{AllocError, Global};
use worker_pool::DispatchFault;
use worker_protocol::ItemEnd;

// The first file whose item didn't end as requested.
fn first_wrong<'f, 'a>(files: &'f [Filed<'a>]) -> Option<&'f Filed<'a>>
    ensures some { IfSome result (λ f. IsWrongAmong files.now f.now) }
    ensures none { IfNone result (AllRight files.now) }
{
    for file in files {
        if !file.is_wanted() {
            return Some(file);
        }
    }
    None
}

// What is reported about a file whose item didn't end as requested.
fn damage(alloc: Global, file: &Filed<'_>) -> Result<FillFault, AllocError>
    ensures { IfOk result (λ e. ShowsDamage file.now e) }
{
    let found = match &file.end {
        Some(ItemEnd::Whole { sum, .. }) => *sum,
        _ => file.wanted.sum,
    };
    Ok(FillFault::FileDamaged {
        path: String::from_str(alloc, file.wanted.path)?,
        known: file.wanted.sum,
        found,
    })
}

/// Refuses files of which one isn't as requested, and reports the first.
pub(crate) fn check_files(alloc: Global, files: &[Filed<'_>]) -> Result<(), FillFault>
    ensures right { OnOk result (AllRight files.now) }
    ensures wrong { IfErr result (λ e. ShowsWrong files.now e) }
{
    match first_wrong(files) {
        Some(file) => Err(damage(alloc, file)?),
        None => Ok(()),
    }
}

/// The fault of a run of jobs, by the name of the job's file.
pub(crate) fn named(
    alloc: Global,
    wanted: &[Wanted<'_>],
    fault: DispatchFault,
) -> Result<FillFault, AllocError>
    requires { HasItsFile fault (length wanted.now) }
    ensures { IfOk result (λ e. Names wanted.now fault e) }
{
    match fault {
        DispatchFault::WorkersLost => Ok(FillFault::WorkersLost),
        DispatchFault::Unread { job, .. } => Ok(FillFault::Unread {
            path: String::from_str(alloc, wanted[job as usize].path)?,
        }),
        DispatchFault::PartSink => Ok(FillFault::DataFolder),
        DispatchFault::NoMemory => Ok(FillFault::NoMemory),
    }
}
