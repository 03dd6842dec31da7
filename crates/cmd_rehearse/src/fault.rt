// Why a rehearsal ends without its result.
ghost use Rattle.std.specs.Prelude.{◌≡◌};
ghost use Rattle.cmd_rehearse.specs.Faults.{of_create, of_push, of_info, of_folder, of_base, of_offline, of_expire, of_restore, of_all, of_examine, of_step};

use archive_lookup::ArchiveFault;
use base_sample::FolderFault;
use cmd_archive_push::PushFault;
use cmd_backup_offline::OfflineFault;
use cmd_restore::RestoreCommandFault;
use cmd_stanza_create::CreateFault;
use cmd_types::{Halt, Object};
use cmd_verify::VerifyCommandFault;
use expire_make::ExpireFault;
use repo_pair::InfoFault;

/// Why a step of a rehearsal is refused; a refusal of a command that it makes under that command's name.
#[derive(Debug, Drop)]
pub enum StepFault {
    Create(CreateFault),
    Push(PushFault),
    Take(OfflineFault),
    /// A pair that an earlier step wrote can't be read.
    Lost,
    /// The histories of the two info pairs differ; `at` is the first number at which they do.
    HistoryDiffers { at: u32 },
    Recover(RestoreCommandFault),
    Examine(VerifyCommandFault),
}

/// Why a rehearsal is refused. The first two come before its first step.
#[derive(Debug, Drop)]
pub enum RehearseFault {
    /// A member of the stanza's archive pair is there.
    StanzaExists { stanza: String },
    /// Something is in the data folder, this path as the first.
    NotEmpty { path: String },
    Step(StepFault),
}

/// Which refusal a refusal of a stanza-create is that asks no server.
pub(crate) fn of_create(halt: Halt<CreateFault>) -> Halt<StepFault>
    ensures { result ≡ of_create halt }
{
    match halt {
        Halt::Refused(fault) => Halt::Refused(StepFault::Create(fault)),
        // One that isn't asked doesn't fail.
        Halt::Failed(Object::Server) => Halt::NoMemory,
        Halt::Failed(object) => Halt::Failed(object),
        Halt::NoMemory => Halt::NoMemory,
    }
}

/// The refusal that a refusal of archive-push becomes.
pub(crate) fn of_push(halt: Halt<PushFault>) -> Halt<StepFault>
    ensures { result ≡ of_push halt }
{
    match halt {
        Halt::Refused(fault) => Halt::Refused(StepFault::Push(fault)),
        Halt::Failed(object) => Halt::Failed(object),
        Halt::NoMemory => Halt::NoMemory,
    }
}

/// The refusal where a pair has no value.
pub(crate) fn of_info(fault: InfoFault) -> Halt<StepFault>
    ensures { result ≡ of_info fault }
{
    match fault {
        InfoFault::Missing | InfoFault::Damaged { .. } => Halt::Refused(StepFault::Lost),
        InfoFault::Disk => Halt::Failed(Object::Repo),
        InfoFault::NoMemory => Halt::NoMemory,
    }
}

/// The refusal where no cluster is made.
pub(crate) fn of_folder(fault: FolderFault) -> Halt<RehearseFault>
    ensures { result ≡ of_folder fault }
{
    match fault {
        FolderFault::NotEmpty { path } => Halt::Refused(RehearseFault::NotEmpty { path }),
        FolderFault::DataFolder => Halt::Failed(Object::TheDataFolder),
        FolderFault::NoMemory => Halt::NoMemory,
    }
}

/// The refusal that a refusal of a backup becomes.
pub(crate) fn of_offline(halt: Halt<OfflineFault>) -> Halt<StepFault>
    ensures { result ≡ of_offline halt }
{
    match halt {
        Halt::Refused(fault) => Halt::Refused(StepFault::Take(fault)),
        Halt::Failed(object) => Halt::Failed(object),
        Halt::NoMemory => Halt::NoMemory,
    }
}

/// The refusal where the manifest of the last backup isn't read.
pub(crate) fn of_base(halt: Halt<OfflineFault>) -> Halt<StepFault>
    ensures { result ≡ of_base halt }
{
    match halt {
        Halt::Refused(_) => Halt::Refused(StepFault::Lost),
        Halt::Failed(object) => Halt::Failed(object),
        Halt::NoMemory => Halt::NoMemory,
    }
}

/// The refusal where nothing was expired, or not all.
pub(crate) fn of_expire(fault: ExpireFault) -> Halt<StepFault>
    ensures { result ≡ of_expire fault }
{
    match fault {
        ExpireFault::Info(_) => Halt::Refused(StepFault::Lost),
        ExpireFault::HistoryDiffers { at } => Halt::Refused(StepFault::HistoryDiffers { at }),
        ExpireFault::Disk => Halt::Failed(Object::Repo),
        ExpireFault::NoMemory => Halt::NoMemory,
    }
}

/// The refusal that a refusal of a restore becomes.
pub(crate) fn of_restore(halt: Halt<RestoreCommandFault>) -> Halt<StepFault>
    ensures { result ≡ of_restore halt }
{
    match halt {
        Halt::Refused(fault) => Halt::Refused(StepFault::Recover(fault)),
        Halt::Failed(object) => Halt::Failed(object),
        Halt::NoMemory => Halt::NoMemory,
    }
}

/// The refusal where the stored files can't be listed: there are too many of them, as for a verification.
pub(crate) fn of_all(fault: ArchiveFault) -> Halt<StepFault>
    ensures { result ≡ of_all fault }
{
    match fault {
        ArchiveFault::TooMany { limit } => {
            Halt::Refused(StepFault::Examine(VerifyCommandFault::TooMany { limit }))
        }
        ArchiveFault::Disk => Halt::Failed(Object::Repo),
        // No listing ends with one of the others: its cause is empty.
        _ => Halt::NoMemory,
    }
}

/// The refusal that a refusal of a verification becomes.
pub(crate) fn of_examine(halt: Halt<VerifyCommandFault>) -> Halt<StepFault>
    ensures { result ≡ of_examine halt }
{
    match halt {
        Halt::Refused(fault) => Halt::Refused(StepFault::Examine(fault)),
        Halt::Failed(object) => Halt::Failed(object),
        Halt::NoMemory => Halt::NoMemory,
    }
}

/// The refusal that a refusal of a step becomes.
pub(crate) fn of_step(halt: Halt<StepFault>) -> Halt<RehearseFault>
    ensures { result ≡ of_step halt }
{
    match halt {
        Halt::Refused(fault) => Halt::Refused(RehearseFault::Step(fault)),
        Halt::Failed(object) => Halt::Failed(object),
        Halt::NoMemory => Halt::NoMemory,
    }
}
