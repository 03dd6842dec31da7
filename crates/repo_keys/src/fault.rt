// Why sections are those of no value.
ghost use Rattle.std.specs.Prelude.{◌≡◌};
ghost use Rattle.repo_keys.specs.declared.fault.PartsFault.TheVariants.{NoMemory as PartsNoMemory};

use std::alloc::{AllocError, AllocFailed};

/// Why sections are those of no value.
#[derive(Debug, Drop)]
pub enum PartsFault {
    /// the first key, in the order of the text, that is missing, foreign or has another value than any of its kind
    Form { section: String, key: String },
    NoMemory,
}

impl From<base_text::NoMemory> for PartsFault {
    ghost from_gives = { λ _ e. e ≡ PartsNoMemory };

    fn from(_: base_text::NoMemory) -> Self {
        PartsFault::NoMemory
    }
}

impl From<AllocError> for PartsFault {
    ghost from_gives = { λ _ e. e ≡ PartsNoMemory };

    fn from(_: AllocError) -> Self {
        PartsFault::NoMemory
    }
}

impl<T: Drop> From<AllocFailed<T>> for PartsFault {
    ghost from_gives = { λ _ e. e ≡ PartsNoMemory };

    fn from(_: AllocFailed<T>) -> Self {
        PartsFault::NoMemory
    }
}
