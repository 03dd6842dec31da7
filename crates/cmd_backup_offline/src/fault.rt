// Why a backup of any kind is refused.
ghost use Rattle.std.specs.Prelude.{◌≡◌};
ghost use Rattle.base_model.specs.InfoFiles.{IsLabel};
ghost use Rattle.cmd_types.specs.Halts.{HaltCause};
ghost use Rattle.cmd_backup_offline.specs.Faults.{of_backup, ShowsDamage, ShowsPair, FailsPair};

use base_model::Label;
use cmd_backup_common::BackupFault;
use cmd_types::{Halt, Object};
use repo_info::MemberFault;
use repo_names::label_text;
use repo_pair::InfoFault;
use std::alloc::Global;

/// Why a backup of any kind is refused.
#[derive(Debug, Drop)]
pub enum OfflineFault {
    /// It is refused as a full one is.
    Take(BackupFault),
    /// Neither member of the manifest of the prior backup can be read; it has this label.
    PriorDamaged {
        label: String,
        main: MemberFault,
        copy: MemberFault,
    },
}

/// Which refusal a halt is that a full backup may have too.
pub fn of_backup(halt: Halt<BackupFault>) -> Halt<OfflineFault>
    ensures { result ≡ of_backup halt }
{
    match halt {
        Halt::Refused(fault) => Halt::Refused(OfflineFault::Take(fault)),
        Halt::Failed(object) => Halt::Failed(object),
        Halt::NoMemory => Halt::NoMemory,
    }
}

// The refusal of a manifest whose members have these faults.
fn damaged(alloc: Global, label: &Label, main: MemberFault, copy: MemberFault) -> Halt<OfflineFault>
    requires { IsLabel label.now }
    ensures { HaltCause (ShowsDamage label.now main copy) (λ _. ⊥) result }
{
    match label_text(alloc, label) {
        Ok(label) => Halt::Refused(OfflineFault::PriorDamaged { label, main, copy }),
        Err(_) => Halt::NoMemory,
    }
}

/// Why the manifest of the prior backup, which has this label, isn't read.
pub(crate) fn of_pair(alloc: Global, label: &Label, fault: InfoFault) -> Halt<OfflineFault>
    requires { IsLabel label.now }
    ensures { HaltCause (ShowsPair label.now fault) (FailsPair fault) result }
{
    match fault {
        InfoFault::Missing => damaged(alloc, label, MemberFault::Absent, MemberFault::Absent),
        InfoFault::Damaged { main, copy } => damaged(alloc, label, main, copy),
        InfoFault::Disk => Halt::Failed(Object::Repo),
        InfoFault::NoMemory => Halt::NoMemory,
    }
}
