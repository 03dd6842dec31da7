//! Why arguments or a configuration are refused.

ghost use Rattle.std.specs.Prelude.{◌≡◌};
ghost use Rattle.options_read.specs.declared.usage.Usage.TheVariants.{NoMemory};

use std::alloc::{AllocError, AllocFailed};

/// Why arguments or a configuration are refused.
#[derive(Debug, Drop)]
pub enum Usage {
    /// No argument is a command.
    CommandMissing,
    CommandUnknown { word: String },
    /// An argument that begins with `-` and is no option, as it was written.
    OptionUnknown { word: String },
    /// In the arguments, or in one section of the configuration.
    OptionRepeated { name: String },
    /// The value is missing or empty in the arguments, or it is in force and is none that the option takes.
    OptionValue { name: String },
    OptionMissing { name: String },
    /// In the arguments; a configuration may have options of other commands.
    OptionNotFor { name: String },
    /// The line of the configuration, counted from 1.
    ConfigSyntax { line: u32 },
    /// How many parameters come after the command, or 2^32 - 1 where there are more.
    ParameterCount { given: u32 },
    /// The configuration isn't UTF-8.
    ParameterUtf8,
    NoMemory,
}

impl From<AllocError> for Usage {
    ghost from_gives = { λ _ e. e ≡ NoMemory };

    fn from(_: AllocError) -> Usage {
        Usage::NoMemory
    }
}

impl<T: Drop> From<AllocFailed<T>> for Usage {
    ghost from_gives = { λ _ e. e ≡ NoMemory };

    fn from(_: AllocFailed<T>) -> Usage {
        Usage::NoMemory
    }
}
