// What is reported about a backup that was made.
ghost use Rattle.std.specs.Prelude.{◌≡◌, ◌++◌, string_bytes, IfOk};
ghost use Rattle.base_model.specs.InfoFiles.{IsBackupInfo, IsLabel};
ghost use Rattle.base_model.specs.Values.{backup_info_of};
ghost use Rattle.cmd_backup_common.specs.Priors.{kind_line};
ghost use Rattle.cmd_backup_common.specs.Texts.{label_line};
ghost use Rattle.cmd_backup_offline.specs.Basing.{base_in};

use base_model::{BackupInfo, BackupKind, Label};
use base_text::NoMemory;
use cmd_backup_common::{current_cluster, kind_line, label_line, prior_of};
use std::alloc::Global;

/// The line that states that a backup of this kind becomes a full one, where it does.
pub(crate) fn warning_of(kind: BackupKind, list: &BackupInfo) -> &'static str
    requires { IsBackupInfo (backup_info_of list.now) }
    ensures { result.now ≡ kind_line kind (base_in kind (backup_info_of list.now)) }
{
    let cluster = current_cluster(list);
    kind_line(kind, prior_of(kind, cluster.id, &list.backups))
}

/// The lines of a backup that was made: a warning, where there is one, and its label.
pub(crate) fn lines_of(alloc: Global, warning: &str, label: &Label) -> Result<String, NoMemory>
    requires { IsLabel label.now }
    ensures { IfOk result (λ lines. string_bytes lines ≡ warning.now ++ label_line label.now) }
{
    let line = label_line(alloc, label)?;
    Ok(format!(in alloc; "{warning}{line}")?)
}
