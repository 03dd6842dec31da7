// The files and the bytes of a backup.
ghost use Rattle.std.specs.Prelude.{◌≡◌, ◌<◌, ◌≤◌, ◌^◌, map, IfOk, IfErr};
ghost use Rattle.base_devices.specs.States.{OnlyReads};
ghost use Rattle.base_model.specs.Values.{file_entry_of};
ghost use Rattle.backup_record.specs.Making.{size_of};
ghost use Rattle.cmd_rehearse.specs.Causes.{StepCause};
ghost use Rattle.cmd_rehearse.specs.Counting.{is_counted, amount_of, ShowsLast};
ghost use Rattle.cmd_rehearse.specs.Calls.{RepoHalt};

use crate::backup_step::read_backup;
use crate::fault::{StepFault, of_base};
use base_devices::Disk;
use base_model::{BackupKind, FileEntry};
use cmd_backup_offline::load_base;
use cmd_types::Halt;
use std::alloc::Global;

/// This many files, of this many bytes.
#[derive(Clone, Copy, Debug)]
pub struct Amount {
    pub files: usize,
    pub bytes: u64,
}

/// Which files of a backup are counted.
#[derive(Clone, Copy, Debug, PartialEq, Eq)]
pub enum Counted {
    All,
    /// Those that refer to no other backup.
    Own,
    /// Those of them that have bytes.
    Filled,
}

fn is_counted(counted: Counted, file: &FileEntry) -> bool
    ensures { result ≡ is_counted counted (file_entry_of file.now) }
{
    match counted {
        Counted::All => true,
        Counted::Own => file.reference.is_none(),
        Counted::Filled => file.reference.is_none() && file.size > 0,
    }
}

// The files that are counted, and their bytes.
fn amount_of(counted: Counted, files: &[FileEntry]) -> Amount
    requires { size_of (map file_entry_of files.now) < 2 ^ 64 }
    ensures { result ≡ amount_of counted (map file_entry_of files.now) }
{
    let mut count = 0;
    let mut bytes = 0;
    for file in files {
        if is_counted(counted, file) {
            count += 1;
            bytes += file.size;
        }
    }
    Amount {
        files: count,
        bytes,
    }
}

/// The files of the last backup that are counted, by its manifest: it is the one on which a further one would be based.
pub(crate) fn count_last<D: Disk>(
    alloc: Global,
    repo: &mut D,
    stanza: &str,
    counted: Counted,
) -> Result<Amount, Halt<StepFault>>
    ensures known { IfOk result (ShowsLast stanza.now counted (D.state repo.old).view.now) }
    ensures looks { OnlyReads (D.state repo.old) (D.state repo.new) }
    ensures cause { IfErr result (RepoHalt (StepCause stanza.now) (D.state repo.old) (D.state repo.new)) }
{
    let list = read_backup(alloc, repo, stanza)?;
    match load_base(alloc, repo, stanza, BackupKind::Incr, &list) {
        Ok(Some(manifest)) => Ok(amount_of(counted, &manifest.files)),
        Ok(None) => Err(Halt::Refused(StepFault::Lost)),
        Err(halt) => Err(of_base(halt)),
    }
}
