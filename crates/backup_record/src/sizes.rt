// How many bytes a backup has.
ghost use Rattle.std.specs.Prelude.{◌≡◌, ◌<◌, ◌^◌, map};
ghost use Rattle.base_model.specs.Values.{file_entry_of};
ghost use Rattle.backup_record.specs.Making as making;

use base_model::FileEntry;

/// The bytes of all files.
pub(crate) fn size_of(files: &[FileEntry]) -> u64
    requires { making.size_of (map file_entry_of files.now) < 2 ^ 64 }
    ensures { result ≡ making.size_of (map file_entry_of files.now) }
{
    let mut size = 0;
    for file in files {
        size += file.size;
    }
    size
}

/// The bytes of the files that refer to no other backup.
pub(crate) fn own_size_of(files: &[FileEntry]) -> u64
    requires { making.size_of (map file_entry_of files.now) < 2 ^ 64 }
    ensures { result ≡ making.stored_of (map file_entry_of files.now) }
{
    let mut size = 0;
    for file in files {
        if file.reference.is_none() {
            size += file.size;
        }
    }
    size
}
