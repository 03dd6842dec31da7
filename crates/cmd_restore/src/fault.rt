// Why a restore is refused.
ghost use Rattle.std.specs.Prelude.{◌≡◌};
ghost use Rattle.cmd_restore.specs.Choosing.{of_choice, of_load};
ghost use Rattle.cmd_restore.specs.Filling.{of_fill};

use base_text::Sum;
use cmd_types::{Halt, Object};
use restore_choice::{ChoiceFault, DamagedManifest};
use restore_make::FillFault;

/// Why a restore is refused, in the order in which refusals come.
#[derive(Debug, Drop)]
pub enum RestoreCommandFault {
    /// The value of the option `set` is no backup's label.
    SetForm,
    /// The value of the option `target` has no form of its type.
    TargetForm,
    /// No backup is chosen.
    Unchosen(ChoiceFault),
    /// The data folder has a server's `postmaster.pid`.
    Running,
    /// The data folder holds something; `path` is the first of it.
    NotEmpty {
        path: String,
    },
    /// Neither member of the chosen backup's manifest can be read.
    ManifestDamaged(DamagedManifest),
    /// All of these workers were lost.
    WorkersLost {
        lost: u32,
    },
    /// A worker couldn't read the bytes of this file.
    Unread {
        path: String,
    },
    /// A worker read other bytes of this file than the manifest states.
    FileDamaged {
        path: String,
        known: Sum,
        found: Sum,
    },
}

/// Which refusal of a restore it is that no backup is chosen.
pub(crate) fn of_choice(halt: Halt<ChoiceFault>) -> Halt<RestoreCommandFault>
    ensures { result ≡ of_choice halt }
{
    match halt {
        Halt::Refused(fault) => Halt::Refused(RestoreCommandFault::Unchosen(fault)),
        Halt::Failed(object) => Halt::Failed(object),
        Halt::NoMemory => Halt::NoMemory,
    }
}

/// Which refusal of a restore it is that the chosen backup's manifest isn't read.
pub(crate) fn of_load(halt: Halt<DamagedManifest>) -> Halt<RestoreCommandFault>
    ensures { result ≡ of_load halt }
{
    match halt {
        Halt::Refused(fault) => Halt::Refused(RestoreCommandFault::ManifestDamaged(fault)),
        Halt::Failed(object) => Halt::Failed(object),
        Halt::NoMemory => Halt::NoMemory,
    }
}

/// Why the files aren't all in their places; this many workers were lost by then.
pub(crate) fn of_fill(lost: u32, fault: FillFault) -> Halt<RestoreCommandFault>
    ensures { result ≡ of_fill lost fault }
{
    match fault {
        FillFault::FileDamaged { path, known, found } => {
            Halt::Refused(RestoreCommandFault::FileDamaged { path, known, found })
        }
        FillFault::WorkersLost => Halt::Refused(RestoreCommandFault::WorkersLost { lost }),
        FillFault::Unread { path } => Halt::Refused(RestoreCommandFault::Unread { path }),
        FillFault::DataFolder => Halt::Failed(Object::TheDataFolder),
        FillFault::NoMemory => Halt::NoMemory,
    }
}
