// archive-push:async.
ghost use Rattle.run_archive_push_async.specs.Draining.{drain_meaning};
ghost use Rattle.run_archive_push_async.specs.Lawful.{drain_lawful};

use archive_lookup::OtherProcesses;
use base_devices::{
    Clock, DataFolder, Disk, InputFiles, Link, Locks, OutputStream, Scheduler, ServerConnection,
};
use base_text::NoMemory;
use cmd_archive_push::{PushFault, push_message};
use cmd_archive_push_async::{drain_stanza, drain_status};
use cmd_setup::Ready;
use cmd_trait::{Command, Outside, Places};
use cmd_types::{Halt, Outcome, Pairs, Plan, SyncScope};
use std::alloc::Global;

/// archive-push:async: the spool in which each file that is ready gets its mark.
#[derive(Clone, Copy)]
pub struct ArchivePushAsync<'a> {
    pub spool: &'a str,
}

impl<'a> Command<'a> for ArchivePushAsync<'a> {
    type Fault = PushFault;

    type Order = ();

    ghost meaning = { λ c. drain_meaning c.spool.now };

    ghost lawful = { λ c. drain_lawful c.spool.now };

    ghost is_order = { λ _ _ _. Unit {0} };

    fn plan(&self) -> Plan {
        Plan {
            sync_scope: SyncScope::Whole,
            folder: true,
            backup_lock: false,
            archive_lock: true,
            control: true,
            pairs: Pairs::HealArchive,
        }
    }

    fn is_staged(&self) -> bool {
        true
    }

    fn spool(&self) -> Option<&str> {
        Some(self.spool)
    }

    fn status(&self, fault: &PushFault) -> u8 {
        drain_status(fault)
    }

    fn message(&self, alloc: Global, fault: &PushFault) -> Result<Vec<u8>, NoMemory> {
        push_message(alloc, fault)
    }

    fn lines<'b>(&self, _fault: &'b PushFault) -> &'b str {
        ""
    }

    fn read(&self, _alloc: Global, _places: &Places<'a>) -> Result<(), Halt<PushFault>> {
        Ok(())
    }

    fn run<
        D: Disk,
        S: Disk,
        T: DataFolder,
        V: ServerConnection,
        A: OtherProcesses<D, S>,
        C: Clock,
        K: Locks,
        I: InputFiles,
        O: OutputStream,
        L: Link,
        U: Scheduler,
    >(
        &self,
        alloc: Global,
        outside: &mut Outside<D, S, T, V, A, C, K, I, O, L, U>,
        places: &Places<'a>,
        _order: (),
        ready: Ready,
    ) -> Result<Outcome, Halt<PushFault>> {
        let (Some(control), Some(archive)) = (&ready.control, &ready.archive) else {
            unreachable!();
        };
        drain_stanza(
            alloc,
            &mut outside.repo,
            &mut outside.spool,
            &mut outside.tree,
            &outside.locks,
            places.stanza,
            control,
            archive,
        )
    }
}
