// Which files of the archive the backups that are left don't need.
ghost use Rattle.std.specs.Prelude.{◌≡◌, true, false};
ghost use Rattle.expire_make.specs.Unneeded.{Forgets, NeverForgets};

use archive_lookup::read_path;
use base_model::ArchiveId;
use expire_rules::{KeptFiles, keeps};

// Whether the two are one id.
fn is_id(a: &ArchiveId, b: &ArchiveId) -> bool
    ensures same { result ≡ true → a.now ≡ b.now }
    ensures other { result ≡ false → a.now ≡ b.now → ⊥ }
{
    *a == *b
}

/// Whether the name is that of a file which isn't kept under its id. The prefix is the stanza's folder of the archive
/// with a slash.
pub(crate) fn is_unneeded(name: &str, prefix: &str, kept: &KeptFiles) -> bool
    ensures yes { result ≡ true → Forgets prefix.now kept.now name.now }
    ensures no { result ≡ false → NeverForgets prefix.now kept.now name.now }
{
    match read_path(name.as_bytes(), prefix.as_bytes()) {
        Some(known) => is_id(&known.id, &kept.id) && !keeps(&known.name, kept),
        None => false,
    }
}
