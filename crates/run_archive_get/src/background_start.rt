// With which arguments a fetch is started.
ghost use Rattle.std.specs.Prelude.{IfOk};
ghost use Rattle.cmd_trait.specs.Code.{place_of};
ghost use Rattle.run_archive_get.specs.Started.{fetch_argument_list, ArePassed};

use cmd_trait::Places;
use std::alloc::{AllocError, Global};

/// The arguments with which a fetch is started of what follows the segment of this name: they name all its places, so
/// that it needs no configuration.
pub(crate) fn fetch_argument_list(
    alloc: Global,
    places: &Places<'_>,
    name: &str,
    spool: &str,
    queue: u64,
) -> Result<Vec<String>, AllocError>
    ensures { IfOk result (ArePassed (fetch_argument_list (place_of places.now) name.now spool.now queue)) }
{
    let stanza = places.stanza;
    let folder = places.data_folder;
    let repository = places.repository;
    let mut arguments = Vec::new(alloc);
    arguments.push(String::from_str(alloc, "--no-config")?)?;
    arguments.push(format!(in alloc; "--stanza={stanza}")?)?;
    arguments.push(format!(in alloc; "--pg1-path={folder}")?)?;
    arguments.push(format!(in alloc; "--repo1-path={repository}")?)?;
    arguments.push(format!(in alloc; "--spool-path={spool}")?)?;
    arguments.push(format!(in alloc; "--archive-get-queue-max={queue}")?)?;
    arguments.push(String::from_str(alloc, "archive-get:async")?)?;
    arguments.push(String::from_str(alloc, name)?)?;
    Ok(arguments)
}
