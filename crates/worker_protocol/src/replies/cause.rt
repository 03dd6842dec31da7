// Why no frame was received.
use base_text::Sum;
use std::alloc::AllocError;

/// Why a link is lost.
#[derive(Clone, Copy, Debug, PartialEq, Eq)]
pub enum LostCause {
    /// A call on it failed.
    Device,
    /// Its bytes end, after this many of a reply.
    Ended { at: u64 },
    /// Its bytes aren't a reply, as this many of them show.
    Form { at: u64 },
    /// It reported another digest than that of its bytes.
    Sum { known: Sum, found: Sum },
}

/// Why no frame was received.
#[derive(Clone, Copy, Debug, PartialEq, Eq)]
pub enum ReceiveFault {
    Lost(LostCause),
    NoMemory,
}

impl From<AllocError> for ReceiveFault {
    ghost use Rattle.std.specs.Prelude.{◌≡◌};
    ghost use Rattle.worker_protocol.specs.declared.replies.cause.ReceiveFault.TheVariants.{NoMemory};

    ghost from_gives = { λ _ e. e ≡ NoMemory };

    fn from(_e: AllocError) -> ReceiveFault {
        ReceiveFault::NoMemory
    }
}
