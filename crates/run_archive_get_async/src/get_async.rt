// archive-get:async.
ghost use Rattle.run_archive_get_async.specs.Fetching.{fetch_meaning, IsFetchOrder};
ghost use Rattle.run_archive_get_async.specs.Lawful.{fetch_lawful};

use archive_lookup::OtherProcesses;
use base_devices::{
    Clock, DataFolder, Disk, InputFiles, Link, Locks, OutputStream, Scheduler, ServerConnection,
};
use base_text::NoMemory;
use cmd_archive_get::{GetFault, get_message, get_status};
use cmd_archive_get_async::{FetchOrder, fetch_after, fetch_order};
use cmd_setup::Ready;
use cmd_trait::{Command, Outside, Places};
use cmd_types::{Halt, Outcome, Pairs, Plan, SyncScope};
use std::alloc::Global;

/// archive-get:async: the segments that follow this one are to be fetched into the spool, at most this many bytes of
/// them.
#[derive(Clone, Copy)]
pub struct ArchiveGetAsync<'a> {
    pub name: &'a str,
    pub spool: &'a str,
    pub queue: u64,
}

impl<'a> Command<'a> for ArchiveGetAsync<'a> {
    type Fault = GetFault;

    type Order = FetchOrder<'a>;

    ghost meaning = { λ c. fetch_meaning c.name.now c.spool.now c.queue };

    ghost lawful = { λ c. fetch_lawful c.name.now c.spool.now c.queue };

    ghost is_order = { λ c _ o. IsFetchOrder c.name.now o };

    fn plan(&self) -> Plan {
        Plan {
            sync_scope: SyncScope::Looked,
            folder: true,
            backup_lock: false,
            archive_lock: false,
            control: true,
            pairs: Pairs::ReadArchive,
        }
    }

    fn is_staged(&self) -> bool {
        true
    }

    fn spool(&self) -> Option<&str> {
        Some(self.spool)
    }

    fn status(&self, fault: &GetFault) -> u8 {
        get_status(fault)
    }

    fn message(&self, alloc: Global, fault: &GetFault) -> Result<Vec<u8>, NoMemory> {
        get_message(alloc, fault)
    }

    fn lines<'b>(&self, _fault: &'b GetFault) -> &'b str {
        ""
    }

    fn read(&self, alloc: Global, _places: &Places<'a>) -> Result<FetchOrder<'a>, Halt<GetFault>> {
        fetch_order(alloc, self.name)
    }

    fn run<
        D: Disk,
        S: Disk,
        T: DataFolder,
        V: ServerConnection,
        A: OtherProcesses<D, S>,
        C: Clock,
        K: Locks,
        I: InputFiles,
        O: OutputStream,
        L: Link,
        U: Scheduler,
    >(
        &self,
        alloc: Global,
        outside: &mut Outside<D, S, T, V, A, C, K, I, O, L, U>,
        places: &Places<'a>,
        order: FetchOrder<'a>,
        ready: Ready,
    ) -> Result<Outcome, Halt<GetFault>> {
        let (Some(control), Some(archive)) = (&ready.control, &ready.archive) else {
            unreachable!();
        };
        fetch_after(
            alloc,
            &mut outside.repo,
            &mut outside.spool,
            places.stanza,
            &order,
            control,
            archive,
            self.queue,
        )
    }
}
