// What archive-get is given.
ghost use Rattle.std.specs.Prelude.{◌≡◌, ◌++◌, codes, string_bytes, IfOk, IfErr};
ghost use Rattle.base_model.specs.Paths.{IsPath};
ghost use Rattle.cmd_types.specs.Halts.{HaltCause};
ghost use Rattle.cmd_archive_get.specs.Getting.{AreArguments, served_path, ArgumentsCause};
ghost use Rattle.cmd_archive_get.specs.Words.{AreArguments-prop};

use crate::fault::GetFault;
use base_model::ArchiveName;
use cmd_types::Halt;
use repo_names::{check_name, read_archive_name};
use std::alloc::{AllocError, Global};

/// What archive-get is given: a file of the archive, and the path of the data folder at which it is requested.
#[derive(Drop)]
pub struct GetOrder<'a> {
    pub folder: &'a str,
    /// The name of the file, and where it is requested, as they were given.
    pub word: &'a str,
    pub path: &'a str,
    pub name: ArchiveName,
    /// The path below the data folder.
    pub inside: &'a str,
    // The arguments name a file of the archive and a path in the data folder.
    ghost wanted: { AreArguments folder.now word.now path.now name } by { AreArguments-prop folder.now word.now path.now
        name },
    ghost below: { inside.now ≡ served_path folder.now path.now },
}

fn prefix_of(alloc: Global, folder: &str) -> Result<String, AllocError>
    ensures { IfOk result (λ prefix. string_bytes prefix ≡ folder.now ++ codes "/") }
{
    format!(in alloc; "{folder}/")
}

// The path below the data folder.
fn served_path<'a>(alloc: Global, folder: &str, path: &'a str) -> Result<&'a str, AllocError>
    ensures { IfOk result (λ inside. inside.now ≡ served_path folder.now path.now) }
{
    let prefix = prefix_of(alloc, folder)?;
    match path.strip_prefix(prefix.as_str()) {
        Some(inside) => Ok(inside),
        None => Ok(path),
    }
}

/// The order that the arguments give.
pub fn get_order<'a>(
    alloc: Global,
    folder: &'a str,
    word: &'a str,
    path: &'a str,
) -> Result<GetOrder<'a>, Halt<GetFault>>
    ensures order { IfOk result (λ o. (o.folder.now ≡ folder.now) × (o.word.now ≡ word.now)
        × (o.path.now ≡ path.now)) }
    ensures cause { IfErr result (HaltCause
        (ArgumentsCause folder.now word.now path.now) (λ _. ⊥)) }
{
    let Some(name) = read_archive_name(word.as_bytes()) else {
        return Err(Halt::Refused(GetFault::SegmentName {
            name: String::from_str(alloc, word)?,
        }));
    };
    let inside = served_path(alloc, folder, path)?;
    if check_name(inside).is_err() {
        return Err(Halt::Refused(GetFault::PathOutside {
            path: String::from_str(alloc, path)?,
        }));
    }
    Ok(GetOrder {
        folder,
        word,
        path,
        name,
        inside,
    })
}
