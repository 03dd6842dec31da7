// What a backup copies.
ghost use Rattle.std.specs.Prelude.{◌≡◌, true, ◌<◌, ◌^◌, ◌-◌, map, length, IfOk};
ghost use Rattle.base_devices.specs.Order.{are_in_order};
ghost use Rattle.base_model.specs.Values.{file_entry_of};
ghost use Rattle.backup_plan.specs.Layout.{IsWithin};
ghost use Rattle.backup_plan.specs.Planned.{layout_for, AreJobsOf, HasChoicesOf, HasJobsOf, HasSinglesOf};
ghost use Rattle.backup_plan.specs.Views.{layout_of};

use crate::file_kind::what_is;
use crate::listing_walk::{Walk, close};
use crate::prior_entry::find_entry;
use crate::values::{BackupPlan, PlanSettings, Taken};
use base_model::FileEntry;
use std::alloc::{AllocError, Global};
use worker_protocol::Job;

// The layout of a listing.
fn walk(
    alloc: Global,
    files: &[Taken],
    old: &[FileEntry],
    equal: &[bool],
    settings: &PlanSettings,
) -> Result<Walk, AllocError>
    requires same { length equal.now ≡ length files.now }
    requires few { length files.now < 2 ^ 32 - 1 }
    requires order { are_in_order (map (λ e. e.path) (map file_entry_of old.now)) ≡ true }
    ensures layout { IfOk result (λ w. layout_of w ≡ layout_for settings.now old.now files.now equal.now) }
    ensures within { IfOk result (λ w. IsWithin (layout_of w)) }
    ensures count { IfOk result (λ w. length w.choices.items ≡ length files.now) }
{
    let mut walk = Walk::begin(alloc);
    for i in 0..files.len() {
        let file = &files[i];
        let what = what_is(settings, find_entry(old, &file.path), file, equal[i]);
        walk.add(alloc, settings, file, what)?;
    }
    Ok(walk)
}

// The jobs of a walk.
fn jobs_in(mut singles: Vec<Job>, full: Vec<Job>, last: Vec<Job>) -> Result<Vec<Job>, AllocError>
    ensures { IfOk result (λ js. AreJobsOf singles.items full.items last.items js.items) }
{
    let mut full = full;
    let mut last = last;
    singles.append(&mut full)?;
    singles.append(&mut last)?;
    Ok(singles)
}

/// The choice of each file of a listing, and the jobs that are to be done. `old` are the files of the prior backup.
pub fn plan(
    alloc: Global,
    files: &[Taken],
    old: &[FileEntry],
    equal: &[bool],
    settings: &PlanSettings,
) -> Result<BackupPlan, AllocError>
    requires same { length equal.now ≡ length files.now }
    requires few { length files.now < 2 ^ 32 - 1 }
    requires order { are_in_order (map (λ e. e.path) (map file_entry_of old.now)) ≡ true }
    ensures choices { IfOk result (HasChoicesOf (layout_for settings.now old.now files.now equal.now)) }
    ensures singles { IfOk result (HasSinglesOf (layout_for settings.now old.now files.now equal.now)) }
    ensures jobs { IfOk result (HasJobsOf (layout_for settings.now old.now files.now equal.now)) }
{
    let walk = walk(alloc, files, old, equal, settings)?;
    let Walk {
        choices,
        singles,
        mut full,
        current,
        bytes: _,
        last,
    } = walk;
    close(alloc, &mut full, current)?;
    let count = singles.len() as u32;
    let jobs = jobs_in(singles, full, last)?;
    Ok(BackupPlan {
        choices,
        singles: count,
        jobs,
    })
}
