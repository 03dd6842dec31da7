// Why a backup, or the expiry that follows it, ends without its result.
ghost use Rattle.std.specs.Prelude.{◌≡◌};
ghost use Rattle.run_backup.specs.Faults.{backup_lines, of_backup};

use cmd_expire::FollowUpFault;
use cmd_types::Halt;

/// Why a backup is refused, or the expiry that follows it isn't done, or not whole.
#[derive(Debug, Drop)]
pub enum BackupCommandFault<E> {
    /// The backup is refused.
    Backup(E),
    /// A backup was made, which these lines report, and the expiry that follows it wasn't done, or not whole.
    FollowUp { lines: String, fault: FollowUpFault },
}

/// Which halt of the command one of its backup is.
pub(crate) fn of_backup<E>(halt: Halt<E>) -> Halt<BackupCommandFault<E>>
    ensures { result ≡ of_backup halt }
{
    match halt {
        Halt::Refused(fault) => Halt::Refused(BackupCommandFault::Backup(fault)),
        Halt::Failed(object) => Halt::Failed(object),
        Halt::NoMemory => Halt::NoMemory,
    }
}

/// The lines that report the backup that was made before the refusal.
pub(crate) fn backup_lines<E>(fault: &BackupCommandFault<E>) -> &str
    ensures { result.now ≡ backup_lines fault.now }
{
    match fault {
        BackupCommandFault::Backup(_) => "",
        BackupCommandFault::FollowUp { lines, .. } => lines,
    }
}
