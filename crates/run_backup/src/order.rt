// Which backup is asked for, at the command's places, and which stages come before it.
ghost use Rattle.std.specs.Prelude.{◌≡◌};
ghost use Rattle.cmd_trait.specs.Code.{place_of};
ghost use Rattle.run_backup.specs.Following.{backup_stages};
ghost use Rattle.run_backup.specs.Orders.{IsOfflineOrder};

use backup_plan::PlanSettings;
use base_model::BackupKind;
use cmd_backup_common::TakeOrder;
use cmd_backup_offline::OfflineOrder;
use cmd_trait::Places;
use cmd_types::{Pairs, Plan, SyncScope};

/// A backup of this kind of the data folder, by these settings, with as many workers at most.
pub(crate) fn offline_order<'a>(
    places: &Places<'a>,
    workers: u32,
    kind: BackupKind,
    settings: PlanSettings,
) -> OfflineOrder<'a>
    ensures { IsOfflineOrder (place_of places.now) (record { workers = workers; kind = kind; settings = settings })
        result }
{
    OfflineOrder {
        take: TakeOrder {
            data_folder: places.data_folder,
            repository: places.repository,
            workers,
        },
        kind,
        settings,
    }
}

/// What the stages do for a backup: the whole stanza is synced, the data folder is opened and its control file is read,
/// the backup lock is taken, and both pairs are read.
pub(crate) fn backup_stages() -> Plan
    ensures { result ≡ backup_stages }
{
    Plan {
        sync_scope: SyncScope::Whole,
        folder: true,
        backup_lock: true,
        archive_lock: false,
        control: true,
        pairs: Pairs::ReadBoth,
    }
}
