// Why a listing is refused.
use repo_names::NameFault;
use std::alloc::AllocError;

/// Why no backup can be made of a listing, in the order in which refusals come.
#[derive(Debug, Drop)]
pub enum PlanFault {
    /// A link: none is followed, and tablespaces aren't supported.
    LinkFound { path: String },
    /// A path that can't be in a backup.
    NameRefused { path: String, fault: NameFault },
    /// The paths aren't in byte order, or a folder on a path isn't listed.
    Unordered,
    /// There is no `PG_VERSION`, or no `global/pg_control`.
    ControlMissing { path: String },
    /// More than `limit` files, or more than `limit` bytes.
    TooMany { limit: u64 },
    NoMemory,
}

impl From<AllocError> for PlanFault {
    ghost use Rattle.std.specs.Prelude.{◌≡◌};
    ghost use Rattle.backup_plan.specs.declared.fault.PlanFault.TheVariants.{NoMemory};

    ghost from_gives = { λ _ e. e ≡ NoMemory };

    fn from(_: AllocError) -> Self {
        PlanFault::NoMemory
    }
}
