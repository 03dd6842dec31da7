// The paths that keys of a manifest state.
ghost use Rattle.std.specs.Prelude.{◌≡◌, ◌≢◌, ◌↔◌, ◌++◌, List, ℕ, IfOk, IfSome, IfNone, IsTrue, codes, string_bytes};
ghost use Rattle.base_devices.specs.Crash.{IsTemporary};
ghost use Rattle.base_model.specs.Text.{Text};
ghost use Rattle.base_model.specs.Paths.{IsPath};
ghost use Rattle.base_model.specs.ManifestText.{data_path};
ghost use Rattle.repo_manifest.specs.Alone.{IsStored, IsSignal};

use base_text::NoMemory;
use repo_names::check_name;
use std::alloc::{AllocError, Global};

/// The path after `pg_data/`.
pub(crate) fn below(key: &str) -> Option<&str>
    ensures some { IfSome result (λ p. key.now ≡ data_path p.now) }
    ensures none { IfNone result ((p : Text) → key.now ≢ data_path p) }
{
    key.strip_prefix("pg_data/")
}

fn is_temporary(path: &str) -> bool
    ensures { IsTrue result ↔ IsTemporary path.now }
{
    path.ends_with(".pgbackrest.tmp")
}

/// The path of a stored file or folder that this key states.
pub(crate) fn path_in(key: &str) -> Option<&str>
    ensures some { IfSome result (λ p. IsStored p.now × (key.now ≡ data_path p.now)) }
    ensures none { IfNone result ((p : Text) → IsStored p → key.now ≢ data_path p) }
{
    let path = below(key)?;
    if check_name(path).is_err() {
        return None;
    }
    if is_temporary(path) {
        return None;
    }
    Some(path)
}

/// Whether the path is one that a server's recovery looks for.
pub(crate) fn is_signal(path: &str) -> bool
    ensures { IsTrue result ↔ IsSignal path.now }
{
    path == "recovery.signal" || path == "standby.signal"
}
