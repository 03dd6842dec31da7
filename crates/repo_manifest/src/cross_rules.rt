// The rules between files and folders.
ghost use Rattle.std.specs.Prelude.{◌≡◌, ◌++◌, [], map, true, IfOk, IfErr, OnOk, string_bytes};
ghost use Rattle.base_devices.specs.Order.{are_after};
ghost use Rattle.base_model.specs.ManifestText.{data_path};
ghost use Rattle.repo_keys.specs.Fault.{IfForm};
ghost use Rattle.repo_manifest.specs.Sections.{entries_of, folder_paths, FilesArePlaced, FoldersAreListed, IsUnplacedFile, IsUnplacedFolder};

use crate::path_folders::{is_listed, lacks_folder};
use base_model::FileEntry;
use repo_keys::{PartsFault, form};
use std::alloc::{AllocError, Global};

/// The key of a path.
pub(crate) fn key_of(alloc: Global, path: &str) -> Result<String, AllocError>
    ensures { IfOk result (λ key. string_bytes key ≡ data_path path.now) }
{
    format!(in alloc; "pg_data/{path}")
}

/// The fault of a path.
pub(crate) fn fault_at(alloc: Global, section: &str, path: &str) -> PartsFault
    ensures { IfForm result (λ s k. (s ≡ section.now) × (k ≡ data_path path.now)) }
{
    match key_of(alloc, path) {
        Ok(key) => form(alloc, section, key.as_str()),
        Err(_) => PartsFault::NoMemory,
    }
}

/// Whether each folder on each file's path is listed, and no file is a folder.
pub(crate) fn check_files(
    alloc: Global,
    files: &[FileEntry],
    folders: &[String],
) -> Result<(), PartsFault>
    requires { are_after [] (map string_bytes folders.now) ≡ true }
    ensures placed { OnOk result (FilesArePlaced (entries_of files.now) (folder_paths folders.now)) }
    ensures fault { IfErr result (λ e. IfForm e (IsUnplacedFile (entries_of files.now) (folder_paths folders.now))) }
{
    for file in files {
        if lacks_folder(folders, file.path.as_str()) {
            return Err(fault_at(alloc, "target:file", file.path.as_str()));
        }
        if is_listed(folders, file.path.as_bytes()) {
            return Err(fault_at(alloc, "target:path", file.path.as_str()));
        }
    }
    Ok(())
}

/// Whether each folder on each folder's path is listed.
pub(crate) fn check_folders(alloc: Global, folders: &[String]) -> Result<(), PartsFault>
    requires { are_after [] (map string_bytes folders.now) ≡ true }
    ensures placed { OnOk result (FoldersAreListed (folder_paths folders.now)) }
    ensures fault { IfErr result (λ e. IfForm e (IsUnplacedFolder (folder_paths folders.now))) }
{
    for folder in folders {
        if lacks_folder(folders, folder.as_str()) {
            return Err(fault_at(alloc, "target:path", folder.as_str()));
        }
    }
    Ok(())
}
