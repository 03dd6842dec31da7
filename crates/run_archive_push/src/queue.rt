// archive-push in the background.
ghost use Rattle.std.specs.Prelude.{◌≡◌};
ghost use Rattle.run_archive_push.specs.Queueing.{queued_push_meaning};
ghost use Rattle.run_archive_push.specs.QueueLawful.{queued_push_lawful};

use crate::arguments::drain_arguments;
use crate::fault::{QueuedPushFault, of_order, queue_end};
use archive_lookup::OtherProcesses;
use base_devices::{
    Clock, DataFolder, Disk, InputFiles, Link, Locks, OutputStream, Scheduler, ServerConnection,
};
use base_text::NoMemory;
use cmd_archive_push::{PushOrder, push_message, push_order, push_status};
use cmd_archive_push_wait::{queue_message, queue_push, queue_status};
use cmd_setup::Ready;
use cmd_trait::{Command, Outside, Places};
use cmd_types::{Halt, Outcome, Pairs, Plan, SyncScope};
use std::alloc::Global;

/// archive-push in the background (option `archive-async`): the file that is to be stored, as the server names it; the
/// spool in which it is marked; and how many steps of other processes are waited for at most.
#[derive(Clone, Copy)]
pub struct ArchivePushQueued<'a> {
    pub path: &'a str,
    pub spool: &'a str,
    pub turns: u64,
}

impl<'a> Command<'a> for ArchivePushQueued<'a> {
    type Fault = QueuedPushFault;

    type Order = PushOrder<'a>;

    ghost meaning = { λ c. queued_push_meaning c.path.now c.spool.now c.turns };

    ghost lawful = { λ c. queued_push_lawful c.path.now c.spool.now c.turns };

    ghost is_order = { λ c p o. (o.folder.now ≡ p.data_folder) × (o.path.now ≡ c.path.now) };

    fn plan(&self) -> Plan {
        Plan {
            sync_scope: SyncScope::Looked,
            folder: true,
            backup_lock: false,
            archive_lock: false,
            control: false,
            pairs: Pairs::Unread,
        }
    }

    fn is_staged(&self) -> bool {
        false
    }

    fn spool(&self) -> Option<&str> {
        Some(self.spool)
    }

    fn status(&self, fault: &QueuedPushFault) -> u8 {
        match fault {
            QueuedPushFault::Push(fault) => push_status(fault),
            QueuedPushFault::Queue(_, fault) => queue_status(fault),
        }
    }

    fn message(&self, alloc: Global, fault: &QueuedPushFault) -> Result<Vec<u8>, NoMemory> {
        match fault {
            QueuedPushFault::Push(fault) => push_message(alloc, fault),
            QueuedPushFault::Queue(name, fault) => queue_message(alloc, name, fault),
        }
    }

    fn lines<'b>(&self, _fault: &'b QueuedPushFault) -> &'b str {
        ""
    }

    fn read(
        &self,
        alloc: Global,
        places: &Places<'a>,
    ) -> Result<PushOrder<'a>, Halt<QueuedPushFault>> {
        match push_order(alloc, places.data_folder, self.path) {
            Ok(order) => Ok(order),
            Err(halt) => Err(of_order(halt)),
        }
    }

    fn run<
        D: Disk,
        S: Disk,
        T: DataFolder,
        V: ServerConnection,
        A: OtherProcesses<D, S>,
        C: Clock,
        K: Locks,
        I: InputFiles,
        O: OutputStream,
        L: Link,
        U: Scheduler,
    >(
        &self,
        alloc: Global,
        outside: &mut Outside<D, S, T, V, A, C, K, I, O, L, U>,
        places: &Places<'a>,
        order: PushOrder<'a>,
        _ready: Ready,
    ) -> Result<Outcome, Halt<QueuedPushFault>> {
        let arguments = drain_arguments(alloc, places, self.spool)?;
        let ended = queue_push(
            alloc,
            &mut outside.repo,
            &mut outside.spool,
            &mut outside.tree,
            &mut outside.processes,
            places.stanza,
            &order,
            &arguments,
            self.turns,
        );
        queue_end(order.text, ended)
    }
}
