//! Why bytes are not read as an info text.

ghost use Rattle.std.specs.Prelude.{◌≡◌};
ghost use Rattle.repo_ini.specs.declared.fault.IniFault.TheVariants.{NoMemory as WithoutMemory};

use base_text::{NoMemory, Sum};
use std::alloc::{AllocError, AllocFailed};

/// Why bytes are not read as an info text.
#[derive(Clone, Copy, Debug, PartialEq, Eq)]
pub enum IniFault {
    /// No info text continues as this line does; or this is the last line, and the text ends too soon. Lines are the
    /// pieces that newlines separate, counted from 1: after a last newline there is one more, which is empty.
    Syntax { line: u32 },
    /// The text states a checksum that isn't that of its sections.
    Sum { known: Sum, found: Sum },
    NoMemory,
}

impl From<NoMemory> for IniFault {
    ghost from_gives = { λ _ e. e ≡ WithoutMemory };

    fn from(_: NoMemory) -> IniFault {
        IniFault::NoMemory
    }
}

impl From<AllocError> for IniFault {
    ghost from_gives = { λ _ e. e ≡ WithoutMemory };

    fn from(_: AllocError) -> IniFault {
        IniFault::NoMemory
    }
}

impl<T: Drop> From<AllocFailed<T>> for IniFault {
    ghost from_gives = { λ _ e. e ≡ WithoutMemory };

    fn from(_: AllocFailed<T>) -> IniFault {
        IniFault::NoMemory
    }
}
