// What kind of file a listed file is.
ghost use Rattle.std.specs.Prelude.{◌≡◌, option_map};
ghost use Rattle.base_model.specs.Values.{file_entry_of};
ghost use Rattle.backup_plan.specs.Listed.{what, is_unchanged};
ghost use Rattle.backup_plan.specs.Views.{taken_of};

use crate::values::{PlanSettings, Taken, What};
use base_model::FileEntry;

// The prior backup has the file as it is listed.
fn has_same(delta: bool, old: Option<&FileEntry>, file: &Taken, equal: bool) -> bool
    ensures { result ≡ is_unchanged delta (option_map
        (λ e. file_entry_of e.now) old.entry) (taken_of file.now) equal }
{
    match old {
        None => false,
        Some(e) => e.size == file.size && (if delta { equal } else { e.time == file.time }),
    }
}

/// What kind of file it is, besides the prior backup's entry of its path.
pub(crate) fn what_is(
    settings: &PlanSettings,
    old: Option<&FileEntry>,
    file: &Taken,
    equal: bool,
) -> What
    ensures { result ≡ what settings.now (option_map (λ e. file_entry_of e.now) old.entry) (taken_of file.now)
        equal }
{
    if file.path.as_str() == "global/pg_control" {
        return What::Control;
    }
    if file.size == 0 {
        return What::Nothing;
    }
    if has_same(settings.delta, old, file, equal) {
        return What::Leave;
    }
    if settings.bundle && file.size <= settings.bundle_limit {
        return What::Small;
    }
    What::Single
}
