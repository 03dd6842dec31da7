// The names and texts of marks.
ghost use Rattle.std.specs.Prelude.{◌≡◌, IfOk, string_bytes};
ghost use Rattle.base_model.specs.Names.{receipt_name};
ghost use Rattle.archive_lookup.specs.Turns.{refusal_name};
ghost use Rattle.archive_spool.specs.Marks.{receipt_text, refusal_text, mark_temporary};

use base_model::ArchiveName;
use base_text::{NoMemory, Sum};
use repo_names::archive_name_text;
use std::alloc::Global;

/// The name for a mark's text until that is whole.
pub(crate) fn temporary_name(alloc: Global, stanza: &str) -> Result<String, NoMemory>
    ensures { IfOk result (λ name. string_bytes name ≡ mark_temporary stanza.now) }
{
    Ok(format!(in alloc; "archive/{stanza}/out/.pgbackrest.tmp")?)
}

/// The name of the receipt of a file.
pub(crate) fn receipt_name(
    alloc: Global,
    stanza: &str,
    name: &ArchiveName,
) -> Result<String, NoMemory>
    ensures { IfOk result (λ text. string_bytes text ≡ receipt_name stanza.now name.now) }
{
    let text = archive_name_text(alloc, name)?;
    Ok(format!(in alloc; "archive/{stanza}/out/{text}.ok")?)
}

/// The name of the refusal of a file.
pub(crate) fn refusal_name(
    alloc: Global,
    stanza: &str,
    name: &ArchiveName,
) -> Result<String, NoMemory>
    ensures { IfOk result (λ text. string_bytes text ≡ refusal_name stanza.now name.now) }
{
    let text = archive_name_text(alloc, name)?;
    Ok(format!(in alloc; "archive/{stanza}/out/{text}.error")?)
}

/// The text of a receipt.
pub(crate) fn receipt_text(alloc: Global, sum: &Sum) -> Result<String, NoMemory>
    ensures { IfOk result (λ text. string_bytes text ≡ receipt_text sum.now.0) }
{
    let digits = sum.hex(alloc)?;
    Ok(format!(in alloc; "{digits}\n")?)
}

/// The text of a refusal.
pub(crate) fn refusal_text(alloc: Global, code: u32, line: &str) -> Result<String, NoMemory>
    ensures { IfOk result (λ text. string_bytes text ≡ refusal_text code line.now) }
{
    Ok(format!(in alloc; "{code}\n{line}")?)
}
