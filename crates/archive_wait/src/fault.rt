// Why a wait for segments ends without them.
ghost use Rattle.std.specs.Prelude.{◌≡◌};
ghost use Rattle.archive_wait.specs.Causes.{fault_of_turn};

use archive_lookup::TurnError;
use repo_names::Segment;

/// Why not each segment is archived.
#[derive(Debug, PartialEq, Eq, Drop)]
pub enum AwaitFault {
    /// The first segment that is missing after this many steps of others.
    NotArrived { segment: Segment, turns: u64 },
    /// A segment is stored under two names; these are the first two in byte order.
    Ambiguous { first: String, second: String },
    Repo,
    Spool,
    NoMemory,
}

/// The fault that a failed step of others becomes.
pub(crate) fn turn_fault(stop: TurnError) -> AwaitFault
    ensures { result ≡ fault_of_turn stop }
{
    match stop {
        TurnError::Repo => AwaitFault::Repo,
        TurnError::Spool => AwaitFault::Spool,
        TurnError::NoMemory => AwaitFault::NoMemory,
    }
}
