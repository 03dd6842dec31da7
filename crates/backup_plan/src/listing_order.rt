// Whether files and folders are in order.
ghost use Rattle.std.specs.Prelude.{◌≡◌, ◌↔◌, true, map, string_bytes, IsTrue};
ghost use Rattle.base_devices.specs.Order.{are_in_order};
ghost use Rattle.base_model.specs.Text.{In};
ghost use Rattle.base_model.specs.ManifestText.{HasItsFolders};
ghost use Rattle.backup_plan.specs.Filter.{ArePlaced, HaveTheirFolders, IsPlaced, IsOrdered, paths_of};
ghost use Rattle.backup_plan.specs.Views.{taken_of};

use crate::prior_entry::order_of;
use crate::values::Taken;
use repo_ini::is_before;

fn are_files_ordered(files: &[Taken]) -> bool
    ensures { result ≡ are_in_order (paths_of (map taken_of files.now)) }
{
    let [first, rest @ ..] = files else {
        return true;
    };
    let mut last = first.path.as_bytes();
    for file in rest {
        if !is_before(last, file.path.as_bytes()) {
            return false;
        }
        last = file.path.as_bytes();
    }
    true
}

fn are_folders_ordered(folders: &[String]) -> bool
    ensures { result ≡ are_in_order (map string_bytes folders.now) }
{
    let [first, rest @ ..] = folders else {
        return true;
    };
    let mut last = first.as_bytes();
    for folder in rest {
        if !is_before(last, folder.as_bytes()) {
            return false;
        }
        last = folder.as_bytes();
    }
    true
}

// Whether the path is one of these.
fn is_among(folders: &[String], path: &[u8]) -> bool
    requires { are_in_order (map string_bytes folders.now) ≡ true }
    ensures { IsTrue result ↔ In path.now (map string_bytes folders.now) }
{
    folders
        .binary_search_by(|folder| order_of(folder.as_bytes(), path))
        .is_ok()
}

// Whether each folder on the path is one of these.
fn has_folders(folders: &[String], path: &str) -> bool
    requires { are_in_order (map string_bytes folders.now) ≡ true }
    ensures { IsTrue result ↔ HasItsFolders (map string_bytes folders.now) path.now }
{
    let bytes = path.as_bytes();
    for i in 0..bytes.len() {
        if bytes[i] == b'/' && !is_among(folders, &bytes[..i]) {
            return false;
        }
    }
    true
}

fn is_placed(folders: &[String], file: &Taken) -> bool
    requires { are_in_order (map string_bytes folders.now) ≡ true }
    ensures { IsTrue result ↔ IsPlaced (map string_bytes folders.now) (taken_of file.now) }
{
    has_folders(folders, &file.path) && !is_among(folders, file.path.as_bytes())
}

fn are_files_placed(files: &[Taken], folders: &[String]) -> bool
    requires { are_in_order (map string_bytes folders.now) ≡ true }
    ensures { IsTrue result ↔ ArePlaced (map string_bytes folders.now) (map taken_of files.now) }
{
    for file in files {
        if !is_placed(folders, file) {
            return false;
        }
    }
    true
}

fn are_folders_placed(folders: &[String]) -> bool
    requires { are_in_order (map string_bytes folders.now) ≡ true }
    ensures { IsTrue result ↔ HaveTheirFolders (map string_bytes folders.now) }
{
    for folder in folders {
        if !has_folders(folders, folder) {
            return false;
        }
    }
    true
}

/// Whether they are in byte order of their paths, each below folders that are among them.
pub(crate) fn is_ordered(files: &[Taken], folders: &[String]) -> bool
    ensures { IsTrue result ↔ IsOrdered (map taken_of files.now) (map string_bytes folders.now) }
{
    are_files_ordered(files)
        && are_folders_ordered(folders)
        && are_files_placed(files, folders)
        && are_folders_placed(folders)
}
