// The names of a stanza's two info files.
ghost use Rattle.std.specs.Prelude.{◌≡◌, IfOk, string_bytes};
ghost use Rattle.base_model.specs.Names.{archive_info, backup_info};

use std::alloc::{AllocError, Global};

/// The name of the main member of the archive pair.
pub fn archive_info_name(alloc: Global, stanza: &str) -> Result<String, AllocError>
    ensures { IfOk result (λ name. string_bytes name ≡ archive_info stanza.now) }
{
    format!(in alloc; "archive/{stanza}/archive.info")
}

pub fn backup_info_name(alloc: Global, stanza: &str) -> Result<String, AllocError>
    ensures { IfOk result (λ name. string_bytes name ≡ backup_info stanza.now) }
{
    format!(in alloc; "backup/{stanza}/backup.info")
}
