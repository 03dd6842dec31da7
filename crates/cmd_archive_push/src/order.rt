// The file of the data folder's log that archive-push is given.
ghost use Rattle.std.specs.Prelude.{◌≡◌, IfOk, IfErr, Decides, string_bytes};
ghost use Rattle.base_model.specs.Names.{wal_text};
ghost use Rattle.cmd_types.specs.Halts.{HaltCause};
ghost use Rattle.cmd_archive_push.specs.WalPath.{IsLastElement, IsPathOf, IsWalPath};
ghost use Rattle.cmd_archive_push.specs.WalProps.{IsWalPath-prop};
ghost use Rattle.cmd_archive_push.specs.WalCause.{WordCause};

use crate::fault::PushFault;
use base_model::ArchiveName;
use cmd_types::Halt;
use repo_names::{archive_name_text, read_archive_name};
use std::alloc::{AllocError, Global};

/// What archive-push is given: a file of the data folder's log.
#[derive(Drop)]
pub struct PushOrder<'a> {
    /// The data folder.
    pub folder: &'a str,
    /// The file's path, as the server gives it.
    pub path: &'a str,
    pub name: ArchiveName,
    /// The name as a text.
    pub text: String,
    // The path names this file, and the text is its name.
    ghost named: { IsWalPath folder.now path.now name } by { IsWalPath-prop folder.now path.now name },
    ghost spelled: { string_bytes text ≡ wal_text name },
}

fn last_element(path: &str) -> &str
    ensures { IsLastElement path.now result.now }
{
    match path.rsplit_once('/') {
        Some((_, last)) => last,
        None => path,
    }
}

// Whether the path is that of the file of this name.
fn is_path_of(alloc: Global, folder: &str, path: &str, name: &str) -> Result<bool, AllocError>
    ensures { IfOk result (λ b. Decides b (IsPathOf folder.now path.now name.now)) }
{
    let relative = format!(in alloc; "pg_wal/{name}")?;
    let absolute = format!(in alloc; "{folder}/pg_wal/{name}")?;
    Ok(path == relative.as_str() || path == absolute.as_str())
}

// The name of the file that the path names.
fn name_at(alloc: Global, folder: &str, path: &str) -> Result<ArchiveName, Halt<PushFault>>
    ensures named { IfOk result (λ name. IsWalPath folder.now path.now name) }
    ensures cause { IfErr result (HaltCause (WordCause folder.now path.now) (λ _. ⊥)) }
{
    let last = last_element(path);
    let Some(name) = read_archive_name(last.as_bytes()) else {
        return Err(Halt::Refused(PushFault::SegmentName {
            name: String::from_str(alloc, last)?,
        }));
    };
    if !is_path_of(alloc, folder, path, last)? {
        return Err(Halt::Refused(PushFault::PathOutside {
            path: String::from_str(alloc, path)?,
        }));
    }
    Ok(name)
}

/// The file that the path names.
pub fn push_order<'a>(
    alloc: Global,
    folder: &'a str,
    path: &'a str,
) -> Result<PushOrder<'a>, Halt<PushFault>>
    ensures order { IfOk result (λ o. (o.folder.now ≡ folder.now) × (o.path.now ≡ path.now)) }
    ensures cause { IfErr result (HaltCause (WordCause folder.now path.now) (λ _. ⊥)) }
{
    let name = name_at(alloc, folder, path)?;
    match archive_name_text(alloc, &name) {
        Ok(text) => Ok(PushOrder {
            folder,
            path,
            name,
            text,
        }),
        Err(_) => Err(Halt::NoMemory),
    }
}
