// Which paths a backup has.
ghost use Rattle.std.specs.Prelude.{◌≡◌, true, map, string_bytes};
ghost use Rattle.std.specs.Ordering.{nat_cmp};
ghost use Rattle.std.specs.Cmp.Lexicographic.{slice_cmp};
ghost use Rattle.base_devices.specs.Order.{are_in_order};
ghost use Rattle.base_model.specs.Values.{file_entry_of};
ghost use Rattle.restore_steps.specs.Clearing.{has_path};

use backup_plan::find_entry;
use base_model::FileEntry;
use std::cmp::Ordering;

/// Whether one of these files has the path.
pub(crate) fn has_file(files: &[FileEntry], path: &str) -> bool
    requires { are_in_order (map (λ e. e.path) (map file_entry_of files.now)) ≡ true }
    ensures { result ≡ has_path (map (λ e. e.path) (map file_entry_of files.now)) path.now }
{
    find_entry(files, path).is_some()
}

// How a path compares to another in byte order.
fn order_of(a: &[u8], b: &[u8]) -> Ordering
    ensures { result ≡ slice_cmp nat_cmp a.now b.now }
{
    a.cmp(&b)
}

/// Whether the path is one of these folders.
pub(crate) fn has_folder(folders: &[String], path: &str) -> bool
    requires { are_in_order (map string_bytes folders.now) ≡ true }
    ensures { result ≡ has_path (map string_bytes folders.now) path.now }
{
    folders
        .binary_search_by(|folder| order_of(folder.as_bytes(), path.as_bytes()))
        .is_ok()
}
