// Why an online backup isn't started or stopped.
ghost use Rattle.server_talk.specs.declared.backups.fault.OnlineFault.TheVariants.{Server};

use crate::session::ServerFault;
use repo_names::Segment;

/// Why a server's backup isn't started, or can't be used. The talk is ended with it.
#[derive(Debug, PartialEq, Eq, Drop)]
pub enum OnlineFault {
    Server(ServerFault),
    /// The cluster has tablespaces, which aren't supported.
    TablespaceMap,
    /// No part of the log goes from this start to this stop.
    SpanWrong { start: Segment, stop: Segment },
}

impl From<ServerFault> for OnlineFault {
    ghost use Rattle.std.specs.Prelude.{◌≡◌};

    ghost from_gives = { λ f e. e ≡ Server f };

    fn from(fault: ServerFault) -> Self {
        OnlineFault::Server(fault)
    }
}
