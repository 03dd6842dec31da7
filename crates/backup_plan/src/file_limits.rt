// What a backup needs of its files, and how many it may have.
ghost use Rattle.std.specs.Prelude.{◌≡◌, ◌↔◌, map, IsTrue, IfSome, IfNone};
ghost use Rattle.backup_plan.specs.Filter.{HasFile, HasControl, IsMissing, IsPast, IsWithinLimits};
ghost use Rattle.backup_plan.specs.Views.{taken_of};

use crate::values::Taken;

const MOST_FILES: usize = 1_000_000;

const MOST_BYTES: u64 = 0x4000_0000_0000_0000;

fn has_file(files: &[Taken], path: &str) -> bool
    ensures { IsTrue result ↔ HasFile path.now (map taken_of files.now) }
{
    for file in files {
        if file.path.as_str() == path {
            return true;
        }
    }
    false
}

/// A file that a backup can't do without, and that isn't one of these.
pub(crate) fn missing_file(files: &[Taken]) -> Option<&'static str>
    ensures missing { IfSome result (λ path. IsMissing path.now (map taken_of files.now)) }
    ensures there { IfNone result (HasControl (map taken_of files.now)) }
{
    if !has_file(files, "PG_VERSION") {
        return Some("PG_VERSION");
    }
    if !has_file(files, "global/pg_control") {
        return Some("global/pg_control");
    }
    None
}

/// A limit of a backup that these files pass: that of their number, or of their bytes.
pub(crate) fn passed_limit(files: &[Taken]) -> Option<u64>
    ensures passed { IfSome result (λ limit. IsPast limit (map taken_of files.now)) }
    ensures within { IfNone result (IsWithinLimits (map taken_of files.now)) }
{
    if files.len() > MOST_FILES {
        return Some(MOST_FILES as u64);
    }
    let mut left = MOST_BYTES;
    for file in files {
        if file.size > left {
            return Some(MOST_BYTES);
        }
        left -= file.size;
    }
    None
}
