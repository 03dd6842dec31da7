// With which arguments archive-push:async is started.
ghost use Rattle.std.specs.Prelude.{IfOk};
ghost use Rattle.cmd_trait.specs.Code.{place_of};
ghost use Rattle.run_archive_push.specs.Arguments.{drain_arguments, ArePassed};

use cmd_trait::Places;
use std::alloc::{AllocError, Global};

/// The arguments with which archive-push:async is started for the files that are ready. They name all its places, so
/// that it needs no configuration.
pub(crate) fn drain_arguments(
    alloc: Global,
    places: &Places<'_>,
    spool: &str,
) -> Result<Vec<String>, AllocError>
    ensures { IfOk result (ArePassed (drain_arguments (place_of places.now) spool.now)) }
{
    let stanza = places.stanza;
    let folder = places.data_folder;
    let repository = places.repository;
    let locks = places.lock_folder;
    let mut arguments = Vec::new(alloc);
    arguments.push(String::from_str(alloc, "--no-config")?)?;
    arguments.push(format!(in alloc; "--stanza={stanza}")?)?;
    arguments.push(format!(in alloc; "--pg1-path={folder}")?)?;
    arguments.push(format!(in alloc; "--repo1-path={repository}")?)?;
    arguments.push(format!(in alloc; "--lock-path={locks}")?)?;
    arguments.push(format!(in alloc; "--spool-path={spool}")?)?;
    arguments.push(String::from_str(alloc, "archive-push:async")?)?;
    Ok(arguments)
}
