// The status and the message of each refusal, and the line of a restore that succeeded.
ghost use Rattle.std.specs.Prelude.{◌≡◌, string_bytes, IfOk};
ghost use Rattle.base_model.specs.InfoFiles.{IsLabel};
ghost use Rattle.cmd_restore.specs.Texts.{restore_status, restore_message, restored_line, sums_end};

use crate::fault::RestoreCommandFault;
use base_model::Label;
use base_text::{NoMemory, Sum};
use cmd_types::{bytes_of, quoted};
use repo_names::label_text;
use restore_choice::{choice_message, choice_status, damaged_message};
use std::alloc::Global;

/// The status of a refusal.
pub fn restore_status(fault: &RestoreCommandFault) -> u8
    ensures { result ≡ restore_status fault.now }
{
    match fault {
        RestoreCommandFault::SetForm | RestoreCommandFault::TargetForm => 6,
        RestoreCommandFault::Unchosen(fault) => choice_status(fault),
        RestoreCommandFault::Running => 41,
        RestoreCommandFault::NotEmpty { .. } => 62,
        RestoreCommandFault::ManifestDamaged(_) => 64,
        RestoreCommandFault::WorkersLost { .. } => 55,
        RestoreCommandFault::Unread { .. } => 56,
        RestoreCommandFault::FileDamaged { .. } => 63,
    }
}

// What follows the path of a file whose bytes don't have their sum.
fn sums_end(alloc: Global, known: &Sum, found: &Sum) -> Result<String, NoMemory>
    ensures { IfOk result (λ text. string_bytes text ≡ sums_end known.now found.now) }
{
    let known = known.hex(alloc)?;
    let found = found.hex(alloc)?;
    Ok(format!(in alloc; "': checksum {known}, found {found}")?)
}

/// The message of a refusal.
pub fn restore_message(alloc: Global, fault: &RestoreCommandFault) -> Result<Vec<u8>, NoMemory>
    ensures { IfOk result (λ line. line.items ≡ restore_message fault.now) }
{
    match fault {
        RestoreCommandFault::SetForm => {
            bytes_of(String::from_str(alloc, "option 'set' has no valid value"))
        }
        RestoreCommandFault::TargetForm => {
            bytes_of(String::from_str(alloc, "option 'target' has no valid value"))
        }
        RestoreCommandFault::Unchosen(fault) => choice_message(alloc, fault),
        RestoreCommandFault::Running => bytes_of(String::from_str(
            alloc,
            "postmaster.pid is there",
        )),
        RestoreCommandFault::NotEmpty { path } => quoted(
            alloc,
            "folder is not empty: '",
            path,
            "'",
        ),
        RestoreCommandFault::ManifestDamaged(fault) => damaged_message(alloc, fault),
        RestoreCommandFault::WorkersLost { lost } => bytes_of(format!(in alloc;
            "{lost} workers lost"
        )),
        RestoreCommandFault::Unread { path } => quoted(alloc, "'", path, "' could not be read"),
        RestoreCommandFault::FileDamaged { path, known, found } => {
            let end = sums_end(alloc, known, found)?;
            quoted(alloc, "'", path, &end)
        }
    }
}

/// The line that states the label of the backup that was restored.
pub(crate) fn restored_line(alloc: Global, label: &Label) -> Result<String, NoMemory>
    requires { IsLabel label.now }
    ensures { IfOk result (λ line. string_bytes line ≡ restored_line label.now) }
{
    let label = label_text(alloc, label)?;
    Ok(format!(in alloc; "INFO: restored backup {label}\n")?)
}
