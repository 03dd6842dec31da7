// A file's name that is between two texts.
ghost use Rattle.std.specs.Prelude.{◌≡◌, ◌++◌, IfSome, IfNone};
ghost use Rattle.base_model.specs.Names.{wal_text};
ghost use Rattle.base_model.specs.Represents.{IsWalName};
ghost use Rattle.archive_spool.specs.Clearing.{IsNotBetween};

use base_model::ArchiveName;
use repo_names::read_archive_name;

/// The file whose name is in the text between the two others.
pub fn name_between(text: &[u8], prefix: &[u8], end: &[u8]) -> Option<ArchiveName>
    ensures value { IfSome result (λ name. text.now ≡ prefix.now ++ (wal_text name ++ end.now)) }
    ensures fits { IfSome result IsWalName }
    ensures none { IfNone result (IsNotBetween prefix.now end.now text.now) }
{
    let following = text.strip_prefix(prefix)?;
    let middle = following.strip_suffix(end)?;
    read_archive_name(middle)
}
