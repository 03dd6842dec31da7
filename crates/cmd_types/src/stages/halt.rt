// Why a call ends without its result.
ghost use Rattle.std.specs.Prelude.{◌≡◌};
ghost use Rattle.cmd_types.specs.Halts.{halt_of};

use crate::stages::object::Object;
use base_devices::DeviceError;
use std::alloc::AllocError;

/// Why a call ends without its result: it is refused for what it found, an object failed, or there is no memory.
#[derive(Debug, Drop)]
pub enum Halt<E> {
    Refused(E),
    Failed(Object),
    NoMemory,
}

impl<E> From<AllocError> for Halt<E> {
    ghost use Rattle.std.specs.Prelude.{◌≡◌};
    ghost use Rattle.cmd_types.specs.declared.stages.halt.Halt.TheVariants.{NoMemory as WithoutMemory};

    ghost from_gives = { λ _ e. e ≡ WithoutMemory };

    fn from(_: AllocError) -> Self {
        Halt::NoMemory
    }
}

/// The halt that a failed call of this object becomes.
pub fn halted<E>(object: Object, stop: DeviceError) -> Halt<E>
    ensures { result ≡ halt_of object stop }
{
    match stop {
        DeviceError::Failed => Halt::Failed(object),
        DeviceError::NoMemory => Halt::NoMemory,
    }
}
