// backup of a running server.
ghost use Rattle.std.specs.Prelude.{◌≡◌, string_bytes};
ghost use Rattle.cmd_stanza_create.specs.Server.{server_view, socket_path};
ghost use Rattle.run_backup.specs.Online.{backup_online_meaning};
ghost use Rattle.run_backup.specs.OnlineLawful.{backup_online_lawful};

use crate::fault::{BackupCommandFault, backup_lines};
use crate::following::expire_next;
use crate::order::{backup_stages, offline_order};
use archive_lookup::OtherProcesses;
use backup_plan::PlanSettings;
use base_devices::{
    Clock, DataFolder, Disk, InputFiles, Link, Locks, OutputStream, Scheduler, ServerConnection,
};
use base_model::BackupKind;
use base_text::NoMemory;
use cmd_backup_common::KnownStanza;
use cmd_backup_online::{
    OnlineBackupFault, OnlineOrder, OnlineTask, back_up_online, online_backup_message,
    online_backup_status,
};
use cmd_expire::{after_message, after_status};
use cmd_setup::Ready;
use cmd_stanza_create::{Server, socket_path};
use cmd_trait::{Command, Outside, Places};
use cmd_types::{Halt, Outcome, Plan};
use expire_rules::Rules;
use std::alloc::Global;

/// backup of this kind of a running server, by these settings, with as many workers at most.
#[derive(Clone, Copy)]
pub struct BackupOnline<'a> {
    /// The server that is asked.
    pub server: Server<'a>,
    pub workers: u32,
    pub kind: BackupKind,
    /// Which files are the prior backup's, and how small ones are stored together.
    pub settings: PlanSettings,
    /// The server makes its checkpoint at once.
    pub fast: bool,
    /// How many steps of other processes are waited for at most.
    pub turns: u64,
    /// The rules of the expiry that follows, where one does.
    pub expires: Option<Rules>,
}

impl<'a> Command<'a> for BackupOnline<'a> {
    type Fault = BackupCommandFault<OnlineBackupFault>;

    // The path of the server's socket.
    type Order = String;

    ghost meaning = { λ c. backup_online_meaning (server_view c.server) (record {
      taken = record { workers = c.workers; kind = c.kind; settings = c.settings };
      fast = c.fast;
      turns = c.turns;
    }) c.expires };

    ghost lawful = { λ c. backup_online_lawful (server_view c.server) (record {
      taken = record { workers = c.workers; kind = c.kind; settings = c.settings };
      fast = c.fast;
      turns = c.turns;
    }) c.expires };

    ghost is_order = { λ c _ socket. string_bytes socket ≡ socket_path (server_view c.server) };

    fn plan(&self) -> Plan {
        backup_stages()
    }

    fn is_staged(&self) -> bool {
        true
    }

    fn spool(&self) -> Option<&str> {
        None
    }

    fn status(&self, fault: &BackupCommandFault<OnlineBackupFault>) -> u8 {
        match fault {
            BackupCommandFault::Backup(fault) => online_backup_status(fault),
            BackupCommandFault::FollowUp { fault, .. } => after_status(fault),
        }
    }

    fn message(
        &self,
        alloc: Global,
        fault: &BackupCommandFault<OnlineBackupFault>,
    ) -> Result<Vec<u8>, NoMemory> {
        match fault {
            BackupCommandFault::Backup(fault) => online_backup_message(alloc, fault),
            BackupCommandFault::FollowUp { fault, .. } => after_message(alloc, fault),
        }
    }

    fn lines<'b>(&self, fault: &'b BackupCommandFault<OnlineBackupFault>) -> &'b str {
        backup_lines(fault)
    }

    fn read(
        &self,
        alloc: Global,
        _places: &Places<'a>,
    ) -> Result<String, Halt<BackupCommandFault<OnlineBackupFault>>> {
        match socket_path(alloc, &self.server) {
            Ok(socket) => Ok(socket),
            Err(_) => Err(Halt::NoMemory),
        }
    }

    fn run<
        D: Disk,
        S: Disk,
        T: DataFolder,
        V: ServerConnection,
        A: OtherProcesses<D, S>,
        C: Clock,
        K: Locks,
        I: InputFiles,
        O: OutputStream,
        L: Link,
        U: Scheduler,
    >(
        &self,
        alloc: Global,
        outside: &mut Outside<D, S, T, V, A, C, K, I, O, L, U>,
        places: &Places<'a>,
        socket: String,
        ready: Ready,
    ) -> Result<Outcome, Halt<BackupCommandFault<OnlineBackupFault>>> {
        let (Some(control), Some(archive), Some(backup)) = (
            ready.control,
            ready.archive,
            ready.backup,
        ) else {
            unreachable!();
        };
        let task = OnlineTask {
            order: OnlineOrder {
                later: offline_order(places, self.workers, self.kind, self.settings),
                socket: &socket,
                user: self.server.user,
                database: self.server.database,
                fast: self.fast,
                archive_timeout: self.turns,
            },
            stanza: KnownStanza {
                name: places.stanza,
                control: &control,
                archive: &archive,
                backup,
            },
        };
        let made = back_up_online(
            alloc,
            &mut outside.repo,
            &mut outside.spool,
            &mut outside.tree,
            &mut outside.server,
            &mut outside.processes,
            &mut outside.clock,
            &outside.locks,
            &mut outside.pool,
            task,
        );
        expire_next(
            alloc,
            &mut outside.repo,
            &mut outside.clock,
            &outside.locks,
            places.stanza,
            &self.expires,
            made,
        )
    }
}
