// The prior backup's entry of a file.
ghost use Rattle.std.specs.Prelude.{◌≡◌, true, map, option_map};
ghost use Rattle.std.specs.Ordering.{nat_cmp};
ghost use Rattle.std.specs.Cmp.Lexicographic.{slice_cmp};
ghost use Rattle.base_devices.specs.Order.{are_in_order};
ghost use Rattle.base_model.specs.Values.{file_entry_of};
ghost use Rattle.backup_plan.specs.Listed.{entry_at};

use base_model::FileEntry;
use std::cmp::Ordering;

/// How a path compares to another in byte order.
pub(crate) fn order_of(a: &[u8], b: &[u8]) -> Ordering
    ensures { result ≡ slice_cmp nat_cmp a.now b.now }
{
    a.cmp(&b)
}

/// The entry of this path, among files in byte order of their paths.
pub fn find_entry<'a>(old: &'a [FileEntry], path: &str) -> Option<&'a FileEntry>
    requires { are_in_order (map (λ e. e.path) (map file_entry_of old.now)) ≡ true }
    ensures { option_map (λ e. file_entry_of e.now) result ≡ entry_at path.now (map file_entry_of old.now) }
{
    match old.binary_search_by(|e| order_of(e.path.as_bytes(), path.as_bytes())) {
        Ok(i) => Some(&old[i]),
        Err(_) => None,
    }
}
