// A file that is besides those of the listing.
ghost use Rattle.std.specs.Prelude.{◌≡◌, OnOk, string_bytes};
ghost use Rattle.std.specs.List.{position_or_len};
ghost use Rattle.base_devices.specs.Order.{is_before};
ghost use Rattle.backup_record.specs.Views.{AddsFurther, PutsIn};

use base_model::FileEntry;
use repo_ini::is_before;
use std::alloc::AllocError;

// The place of the first file whose path comes after this one, or the end.
fn place_of(files: &[FileEntry], path: &str) -> usize
    ensures { result ≡ position_or_len (λ e. is_before path.now (string_bytes e.path)) files.now }
{
    for (i, file) in files.iter().enumerate() {
        if is_before(path.as_bytes(), file.path.as_bytes()) {
            return i;
        }
    }
    files.len()
}

// Adds the file at its place in byte order of the paths.
fn put_in(files: &mut Vec<FileEntry>, file: FileEntry) -> Result<(), AllocError>
    ensures { OnOk result (PutsIn file files.old.items files.new.items) }
{
    let at = place_of(files, file.path.as_str());
    files.insert(at, file)?;
    Ok(())
}

/// Adds the file, where there is one, at its place in byte order of the paths.
pub(crate) fn add_further(
    files: &mut Vec<FileEntry>,
    further: Option<FileEntry>,
) -> Result<(), AllocError>
    ensures { OnOk result (AddsFurther further files.old.items files.new.items) }
{
    match further {
        Some(file) => put_in(files, file),
        None => Ok(()),
    }
}
