// archive-get, through the spool.
ghost use Rattle.run_archive_get.specs.Getting.{IsGetOrder};
ghost use Rattle.run_archive_get.specs.GettingThrough.{through_meaning};
ghost use Rattle.run_archive_get.specs.Lawful.{through_lawful};

use crate::background_start::fetch_argument_list;
use archive_lookup::OtherProcesses;
use base_devices::{
    Clock, DataFolder, Disk, InputFiles, Link, Locks, OutputStream, Scheduler, ServerConnection,
};
use base_text::NoMemory;
use cmd_archive_get::{GetFault, GetOrder, get_message, get_order, get_status};
use cmd_archive_get_async::get_ahead;
use cmd_setup::Ready;
use cmd_trait::{Command, Outside, Places};
use cmd_types::{Halt, Outcome, Pairs, Plan, SyncScope};
use std::alloc::Global;

/// archive-get with option archive-async: the archived file that is to be served through the spool, and where; and how
/// many bytes of the segments that follow it are fetched ahead at most.
#[derive(Clone, Copy)]
pub struct ArchiveGetThrough<'a> {
    pub name: &'a str,
    pub path: &'a str,
    pub spool: &'a str,
    pub queue: u64,
}

impl<'a> Command<'a> for ArchiveGetThrough<'a> {
    type Fault = GetFault;

    type Order = GetOrder<'a>;

    ghost meaning = { λ c. through_meaning c.name.now c.path.now c.spool.now c.queue };

    ghost lawful = { λ c. through_lawful c.name.now c.path.now c.spool.now c.queue };

    ghost is_order = { λ c p o. IsGetOrder p c.name.now c.path.now o };

    fn plan(&self) -> Plan {
        Plan {
            sync_scope: SyncScope::Looked,
            folder: true,
            backup_lock: false,
            archive_lock: false,
            control: true,
            pairs: Pairs::ReadArchive,
        }
    }

    fn is_staged(&self) -> bool {
        true
    }

    fn spool(&self) -> Option<&str> {
        Some(self.spool)
    }

    fn status(&self, fault: &GetFault) -> u8 {
        get_status(fault)
    }

    fn message(&self, alloc: Global, fault: &GetFault) -> Result<Vec<u8>, NoMemory> {
        get_message(alloc, fault)
    }

    fn lines<'b>(&self, _fault: &'b GetFault) -> &'b str {
        ""
    }

    fn read(&self, alloc: Global, places: &Places<'a>) -> Result<GetOrder<'a>, Halt<GetFault>> {
        get_order(alloc, places.data_folder, self.name, self.path)
    }

    fn run<
        D: Disk,
        S: Disk,
        T: DataFolder,
        V: ServerConnection,
        A: OtherProcesses<D, S>,
        C: Clock,
        K: Locks,
        I: InputFiles,
        O: OutputStream,
        L: Link,
        U: Scheduler,
    >(
        &self,
        alloc: Global,
        outside: &mut Outside<D, S, T, V, A, C, K, I, O, L, U>,
        places: &Places<'a>,
        order: GetOrder<'a>,
        ready: Ready,
    ) -> Result<Outcome, Halt<GetFault>> {
        let (Some(control), Some(archive)) = (&ready.control, &ready.archive) else {
            unreachable!();
        };
        let arguments = fetch_argument_list(alloc, places, self.name, self.spool, self.queue)?;
        get_ahead(
            alloc,
            &mut outside.repo,
            &mut outside.spool,
            &mut outside.tree,
            &mut outside.processes,
            places.stanza,
            &order,
            control,
            archive,
            &arguments,
        )
    }
}
