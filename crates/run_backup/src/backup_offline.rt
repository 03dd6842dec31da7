// backup of a stopped server.
ghost use Rattle.run_backup.specs.Offline.{backup_offline_meaning};
ghost use Rattle.run_backup.specs.OfflineLawful.{backup_offline_lawful};

use crate::fault::{BackupCommandFault, backup_lines};
use crate::following::expire_next;
use crate::order::{backup_stages, offline_order};
use archive_lookup::OtherProcesses;
use backup_plan::PlanSettings;
use base_devices::{
    Clock, DataFolder, Disk, InputFiles, Link, Locks, OutputStream, Scheduler, ServerConnection,
};
use base_model::BackupKind;
use base_text::NoMemory;
use cmd_backup_common::KnownStanza;
use cmd_backup_offline::{
    OfflineFault, OfflineTask, back_up_offline, offline_message, offline_status,
};
use cmd_expire::{after_message, after_status};
use cmd_setup::Ready;
use cmd_trait::{Command, Outside, Places};
use cmd_types::{Halt, Outcome, Plan};
use expire_rules::Rules;
use std::alloc::Global;

/// backup of this kind of a stopped server, by these settings, with as many workers at most.
#[derive(Clone, Copy)]
pub struct BackupOffline {
    pub workers: u32,
    pub kind: BackupKind,
    /// Which files are the prior backup's, and how small ones are stored together.
    pub settings: PlanSettings,
    /// The rules of the expiry that follows, where one does.
    pub expires: Option<Rules>,
}

impl<'a> Command<'a> for BackupOffline {
    type Fault = BackupCommandFault<OfflineFault>;

    type Order = ();

    ghost meaning = { λ c. backup_offline_meaning
        (record { workers = c.workers; kind = c.kind; settings = c.settings }) c.expires };

    ghost lawful = { λ c. backup_offline_lawful
        (record { workers = c.workers; kind = c.kind; settings = c.settings }) c.expires };

    ghost is_order = { λ _ _ _. Unit {0} };

    fn plan(&self) -> Plan {
        backup_stages()
    }

    fn is_staged(&self) -> bool {
        true
    }

    fn spool(&self) -> Option<&str> {
        None
    }

    fn status(&self, fault: &BackupCommandFault<OfflineFault>) -> u8 {
        match fault {
            BackupCommandFault::Backup(fault) => offline_status(fault),
            BackupCommandFault::FollowUp { fault, .. } => after_status(fault),
        }
    }

    fn message(
        &self,
        alloc: Global,
        fault: &BackupCommandFault<OfflineFault>,
    ) -> Result<Vec<u8>, NoMemory> {
        match fault {
            BackupCommandFault::Backup(fault) => offline_message(alloc, fault),
            BackupCommandFault::FollowUp { fault, .. } => after_message(alloc, fault),
        }
    }

    fn lines<'b>(&self, fault: &'b BackupCommandFault<OfflineFault>) -> &'b str {
        backup_lines(fault)
    }

    fn read(
        &self,
        _alloc: Global,
        _places: &Places<'a>,
    ) -> Result<(), Halt<BackupCommandFault<OfflineFault>>> {
        Ok(())
    }

    fn run<
        D: Disk,
        S: Disk,
        T: DataFolder,
        V: ServerConnection,
        A: OtherProcesses<D, S>,
        C: Clock,
        K: Locks,
        I: InputFiles,
        O: OutputStream,
        L: Link,
        U: Scheduler,
    >(
        &self,
        alloc: Global,
        outside: &mut Outside<D, S, T, V, A, C, K, I, O, L, U>,
        places: &Places<'a>,
        _order: (),
        ready: Ready,
    ) -> Result<Outcome, Halt<BackupCommandFault<OfflineFault>>> {
        let (Some(control), Some(archive), Some(backup)) = (
            ready.control,
            ready.archive,
            ready.backup,
        ) else {
            unreachable!();
        };
        let task = OfflineTask {
            order: offline_order(places, self.workers, self.kind, self.settings),
            stanza: KnownStanza {
                name: places.stanza,
                control: &control,
                archive: &archive,
                backup,
            },
        };
        let made = back_up_offline(
            alloc,
            &mut outside.repo,
            &mut outside.tree,
            &mut outside.clock,
            &outside.locks,
            &mut outside.pool,
            task,
        );
        expire_next(
            alloc,
            &mut outside.repo,
            &mut outside.clock,
            &outside.locks,
            places.stanza,
            &self.expires,
            made,
        )
    }
}
