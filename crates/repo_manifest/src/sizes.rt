// The sum of the sizes.
ghost use Rattle.std.specs.Prelude.{◌≡◌, ◌≤◌, ◌^◌, map, sum_by, IfSome, IfNone};
ghost use Rattle.base_model.specs.Values.{file_entry_of, FileEntry as SpecFile};
ghost use Rattle.repo_manifest.specs.Sections.{IsPast};

use base_model::FileEntry;

// The sizes of all files sum to at most this.
const BOUND: u64 = 9_223_372_036_854_775_808;

/// The file with which the sizes pass their bound.
pub(crate) fn past(files: &[FileEntry]) -> Option<&FileEntry>
    ensures some { IfSome result (λ e. IsPast (map file_entry_of files.now) (file_entry_of e.now)) }
    ensures none { IfNone result (sum_by (λ (e : SpecFile). e.size) (map file_entry_of files.now) ≤ 2 ^ 63) }
{
    let mut total: u64 = 0;
    for file in files {
        if file.size > BOUND - total {
            return Some(file);
        }
        total += file.size;
    }
    None
}
