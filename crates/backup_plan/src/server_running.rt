// Whether a server runs in a data folder.
ghost use Rattle.std.specs.Prelude.{◌≡◌, bytes_eq, codes, string_bytes};
ghost use Rattle.std.specs.List.{list_any};

use base_devices::FolderEntry;

/// Whether the listing shows a server's `postmaster.pid`.
pub fn is_running(seen: &[FolderEntry]) -> bool
    ensures { result ≡ list_any (λ s. bytes_eq (string_bytes s.path) (codes "postmaster.pid")) seen.now }
{
    seen.iter().any(|s| s.path.as_str() == "postmaster.pid")
}
