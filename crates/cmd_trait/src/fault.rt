// Why a command ends without its result.
ghost use Rattle.std.specs.Prelude.{◌≡◌};
ghost use Rattle.cmd_trait.specs.Faults.{of_own, own_of};

use cmd_types::{Halt, Object, Outcome, StageFault};
use std::alloc::AllocError;

/// Why a command is refused, by its stages or by itself; or which object failed; or that there is no memory.
#[derive(Debug, Drop)]
pub enum Fault<E> {
    Stage(StageFault),
    Own(E),
    Failed(Object),
    NoMemory,
}

impl<E> From<AllocError> for Fault<E> {
    ghost use Rattle.std.specs.Prelude.{◌≡◌};
    ghost use Rattle.cmd_trait.specs.declared.fault.Fault.TheVariants.{NoMemory as WithoutMemory};

    ghost from_gives = { λ _ e. e ≡ WithoutMemory };

    fn from(_: AllocError) -> Self {
        Fault::NoMemory
    }
}

impl<E> From<Halt<StageFault>> for Fault<E> {
    ghost use Rattle.std.specs.Prelude.{◌≡◌};
    ghost use Rattle.cmd_trait.specs.Faults.{of_stage};

    ghost from_gives = { λ h e. e ≡ of_stage h };

    fn from(halt: Halt<StageFault>) -> Self {
        match halt {
            Halt::Refused(fault) => Fault::Stage(fault),
            Halt::Failed(object) => Fault::Failed(object),
            Halt::NoMemory => Fault::NoMemory,
        }
    }
}

/// What a command's halt is.
pub(crate) fn own_halt<E>(halt: Halt<E>) -> Fault<E>
    ensures { result ≡ of_own halt }
{
    match halt {
        Halt::Refused(fault) => Fault::Own(fault),
        Halt::Failed(object) => Fault::Failed(object),
        Halt::NoMemory => Fault::NoMemory,
    }
}

/// How a command's own part ended.
pub(crate) fn own_end<E>(ended: Result<Outcome, Halt<E>>) -> Result<Outcome, Fault<E>>
    ensures { result ≡ own_of ended }
{
    match ended {
        Ok(outcome) => Ok(outcome),
        Err(halt) => Err(own_halt(halt)),
    }
}
