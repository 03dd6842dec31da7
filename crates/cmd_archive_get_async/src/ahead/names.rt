// The names of segments that were fetched ahead.
ghost use Rattle.std.specs.Prelude.{◌≡◌, IfOk, string_bytes};
ghost use Rattle.cmd_archive_get_async.specs.Names.{ahead_folder, ahead_prefix, ahead_name};

use base_model::Segment;
use base_text::{NoMemory, Sum};
use repo_names::segment_text;
use std::alloc::Global;

/// The folder of fetched segments.
pub(crate) fn ahead_folder(alloc: Global, stanza: &str) -> Result<String, NoMemory>
    ensures { IfOk result (λ folder. string_bytes folder ≡ ahead_folder stanza.now) }
{
    Ok(format!(in alloc; "archive/{stanza}/in")?)
}

/// What the names of a fetched segment begin with.
pub(crate) fn ahead_prefix(
    alloc: Global,
    stanza: &str,
    segment: &Segment,
) -> Result<String, NoMemory>
    ensures { IfOk result (λ prefix. string_bytes prefix ≡ ahead_prefix stanza.now segment.now) }
{
    let text = segment_text(alloc, segment)?;
    Ok(format!(in alloc; "archive/{stanza}/in/{text}-")?)
}

/// The name of a fetched segment with this sum.
pub(crate) fn ahead_name(
    alloc: Global,
    stanza: &str,
    segment: &Segment,
    sum: &Sum,
) -> Result<String, NoMemory>
    ensures { IfOk result (λ name. string_bytes name ≡ ahead_name stanza.now segment.now sum.now.0) }
{
    let prefix = ahead_prefix(alloc, stanza, segment)?;
    let digits = sum.hex(alloc)?;
    Ok(format!(in alloc; "{prefix}{digits}")?)
}
