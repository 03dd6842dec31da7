// The names at which a file of the archive lies.
ghost use Rattle.std.specs.Prelude.{◌≡◌, ◌++◌, IfOk, codes, string_bytes};
ghost use Rattle.base_text.specs.Sum.{IsSum};
ghost use Rattle.base_model.specs.Names.{wal_text};
ghost use Rattle.base_model.specs.Represents.{IsArchivePlace};
ghost use Rattle.base_model.specs.Text.{Text, ◌⫽◌};
ghost use Rattle.archive_lookup.specs.OnlyReads.{file_place, dash, AreNamesOf, path_with};
ghost use Rattle.archive_lookup.specs.Paths.{has_sum};

use crate::stored::paths::has_sum;
use base_model::{ArchiveId, ArchiveName};
use base_text::{NoMemory, Sum};
use repo_names::{archive_name_text, segment_folder};
use std::alloc::Global;

/// The folder of a file, what each of its paths begins with, and a name there for bytes that are still to be stored.
#[derive(Drop)]
pub struct FileNames {
    pub folder: String,
    /// The path itself, where it has no sum.
    pub prefix: String,
    pub temporary: String,
    pub has_sum: bool,
}

impl FileNames {
    /// The path of the file with this sum.
    pub fn with_sum(&self, alloc: Global, sum: &Sum) -> Result<String, NoMemory>
        ensures { IfOk result (λ path. string_bytes path ≡ path_with self.now sum.now.0) }
    {
        let prefix = self.prefix.as_str();
        if self.has_sum {
            let digits = sum.hex(alloc)?;
            Ok(format!(in alloc; "{prefix}{digits}")?)
        } else {
            Ok(String::from_str(alloc, prefix)?)
        }
    }
}

fn folder_of(
    alloc: Global,
    stanza: &str,
    id: ArchiveId,
    name: &ArchiveName,
) -> Result<String, NoMemory>
    ensures { IfOk result (λ folder. string_bytes folder ≡ file_place stanza.now id name.now) }
{
    let ArchiveId { version, number } = id;
    match name {
        ArchiveName::History(_) => Ok(format!(in alloc; "archive/{stanza}/{version}-{number}")?),
        ArchiveName::Segment(segment)
        | ArchiveName::Partial(segment)
        | ArchiveName::Backup(segment, _) => {
            let digits = segment_folder(alloc, segment)?;
            Ok(format!(in alloc; "archive/{stanza}/{version}-{number}/{digits}")?)
        }
    }
}

fn prefix_in(alloc: Global, folder: &str, name: &ArchiveName) -> Result<String, NoMemory>
    ensures { IfOk result (λ path. string_bytes path ≡ folder.now ⫽ (wal_text name.now ++ dash (has_sum name.now))) }
{
    let text = archive_name_text(alloc, name)?;
    if has_sum(name) {
        Ok(format!(in alloc; "{folder}/{text}-")?)
    } else {
        Ok(format!(in alloc; "{folder}/{text}")?)
    }
}

fn temporary_in(alloc: Global, folder: &str) -> Result<String, NoMemory>
    ensures { IfOk result (λ name. string_bytes name ≡ folder.now ⫽ codes ".pgbackrest.tmp") }
{
    Ok(format!(in alloc; "{folder}/.pgbackrest.tmp")?)
}

/// The names of a file under this id.
pub fn file_names(
    alloc: Global,
    stanza: &str,
    id: ArchiveId,
    name: ArchiveName,
) -> Result<FileNames, NoMemory>
    ensures names { IfOk result (AreNamesOf stanza.now id name) }
    ensures place { (sum : Text) → IsSum sum → IsArchivePlace id name sum }
{
    let folder = folder_of(alloc, stanza, id, &name)?;
    let prefix = prefix_in(alloc, folder.as_str(), &name)?;
    let temporary = temporary_in(alloc, folder.as_str())?;
    let has_sum = has_sum(&name);
    Ok(FileNames {
        folder,
        prefix,
        temporary,
        has_sum,
    })
}
