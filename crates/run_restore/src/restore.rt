// restore.
ghost use Rattle.run_restore.specs.Restoring.{restore_meaning};
ghost use Rattle.run_restore.specs.Lawful.{restore_lawful};
ghost use Rattle.run_restore.specs.Code.{set_of, how_of, IsOrderOf};

use archive_lookup::OtherProcesses;
use base_devices::{
    Clock, DataFolder, Disk, InputFiles, Link, Locks, OutputStream, Scheduler, ServerConnection,
};
use base_text::NoMemory;
use cmd_restore::{
    InfoValues, RecoverOrder, RecoveryType, RestoreCommandFault, restore_backup, restore_message,
    restore_order, restore_status,
};
use cmd_setup::Ready;
use cmd_trait::{Command, Outside, Places};
use cmd_types::{Halt, Outcome, Pairs, Plan, SyncScope};
use std::alloc::Global;

/// restore: the label of the backup, as it was given, or the last backup; with how many workers at most; whether equal
/// files stay; and how the server is to recover.
#[derive(Clone, Copy)]
pub struct Restore<'a> {
    pub set: Option<&'a str>,
    pub workers: u32,
    pub delta: bool,
    pub recovery: RecoveryType<'a>,
}

impl<'a> Command<'a> for Restore<'a> {
    type Fault = RestoreCommandFault;

    type Order = RecoverOrder<'a>;

    ghost meaning = { λ c. restore_meaning (set_of c) (how_of c) };

    ghost lawful = { λ c. restore_lawful (set_of c) (how_of c) };

    ghost is_order = { λ c p o. IsOrderOf c p o };

    fn plan(&self) -> Plan {
        Plan {
            sync_scope: SyncScope::Whole,
            folder: true,
            backup_lock: false,
            archive_lock: false,
            control: false,
            pairs: Pairs::ReadBoth,
        }
    }

    fn is_staged(&self) -> bool {
        true
    }

    fn spool(&self) -> Option<&str> {
        None
    }

    fn status(&self, fault: &RestoreCommandFault) -> u8 {
        restore_status(fault)
    }

    fn message(&self, alloc: Global, fault: &RestoreCommandFault) -> Result<Vec<u8>, NoMemory> {
        restore_message(alloc, fault)
    }

    fn lines<'b>(&self, _fault: &'b RestoreCommandFault) -> &'b str {
        ""
    }

    fn read(
        &self,
        _alloc: Global,
        places: &Places<'a>,
    ) -> Result<RecoverOrder<'a>, Halt<RestoreCommandFault>> {
        restore_order(
            places.data_folder,
            places.repository,
            self.set,
            self.workers,
            self.delta,
            self.recovery,
        )
    }

    fn run<
        D: Disk,
        S: Disk,
        T: DataFolder,
        V: ServerConnection,
        A: OtherProcesses<D, S>,
        C: Clock,
        K: Locks,
        I: InputFiles,
        O: OutputStream,
        L: Link,
        U: Scheduler,
    >(
        &self,
        alloc: Global,
        outside: &mut Outside<D, S, T, V, A, C, K, I, O, L, U>,
        places: &Places<'a>,
        order: RecoverOrder<'a>,
        ready: Ready,
    ) -> Result<Outcome, Halt<RestoreCommandFault>> {
        let (Some(archive), Some(backup)) = (&ready.archive, &ready.backup) else {
            unreachable!();
        };
        restore_backup(
            alloc,
            &mut outside.repo,
            &mut outside.tree,
            &mut outside.pool,
            places.stanza,
            &order,
            InfoValues { archive, backup },
        )
    }
}
