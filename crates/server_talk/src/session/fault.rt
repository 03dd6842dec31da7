// Why a talk fails.
ghost use Rattle.std.specs.Prelude.{◌≡◌};
ghost use Rattle.server_talk.specs.declared.session.fault.ServerFault.TheVariants.{NoMemory};

use std::alloc::{AllocError, AllocFailed};

/// Why a talk ended before its end. Places count the server's bytes, the first being 0.
#[derive(Debug, PartialEq, Eq, Drop)]
pub enum ServerFault {
    NoMemory,
    /// The connection failed.
    ServerConnection,
    /// The server's own error: the fields `C` and `M`, each empty where it isn't there or isn't UTF-8.
    ServerSaid { code: String, text: String },
    /// The server asks for a password of this kind.
    AuthUnsupported { code: u32 },
    /// The first byte of the first field that breaks a rule: of a kind, a length, a count, a column's length or text,
    /// or of bytes after the last.
    ServerForm { at: u64 },
    /// The connection ended here.
    ServerEnded { at: u64 },
    /// The server is of another system than the one that is kept.
    SystemMismatch { kept: u64, found: u64 },
    /// A message has this length.
    TooLong { length: u64 },
    /// The session has more messages than this.
    TooMany { limit: u64 },
}

impl From<AllocError> for ServerFault {
    ghost from_gives = { λ _ e. e ≡ NoMemory };

    fn from(_: AllocError) -> Self {
        ServerFault::NoMemory
    }
}

impl<T: Drop> From<AllocFailed<T>> for ServerFault {
    ghost from_gives = { λ _ e. e ≡ NoMemory };

    fn from(_: AllocFailed<T>) -> Self {
        ServerFault::NoMemory
    }
}
