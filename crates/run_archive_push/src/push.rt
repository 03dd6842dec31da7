// archive-push.
ghost use Rattle.std.specs.Prelude.{◌≡◌};
ghost use Rattle.run_archive_push.specs.Pushing.{push_meaning};
ghost use Rattle.run_archive_push.specs.Lawful.{push_lawful};

use archive_lookup::OtherProcesses;
use base_devices::{
    Clock, DataFolder, Disk, InputFiles, Link, Locks, OutputStream, Scheduler, ServerConnection,
};
use base_text::NoMemory;
use cmd_archive_push::{PushFault, PushOrder, push_file, push_message, push_order, push_status};
use cmd_setup::Ready;
use cmd_trait::{Command, Outside, Places};
use cmd_types::{Halt, Outcome, Pairs, Plan, SyncScope};
use std::alloc::Global;

/// archive-push: the file that is to be stored, as the server names it.
#[derive(Clone, Copy)]
pub struct ArchivePush<'a> {
    pub path: &'a str,
}

impl<'a> Command<'a> for ArchivePush<'a> {
    type Fault = PushFault;

    type Order = PushOrder<'a>;

    ghost meaning = { λ c. push_meaning c.path.now };

    ghost lawful = { λ c. push_lawful c.path.now };

    ghost is_order = { λ c p o. (o.folder.now ≡ p.data_folder) × (o.path.now ≡ c.path.now) };

    fn plan(&self) -> Plan {
        Plan {
            sync_scope: SyncScope::Looked,
            folder: true,
            backup_lock: false,
            archive_lock: true,
            control: true,
            pairs: Pairs::HealArchive,
        }
    }

    fn is_staged(&self) -> bool {
        true
    }

    fn spool(&self) -> Option<&str> {
        None
    }

    fn status(&self, fault: &PushFault) -> u8 {
        push_status(fault)
    }

    fn message(&self, alloc: Global, fault: &PushFault) -> Result<Vec<u8>, NoMemory> {
        push_message(alloc, fault)
    }

    fn lines<'b>(&self, _fault: &'b PushFault) -> &'b str {
        ""
    }

    fn read(&self, alloc: Global, places: &Places<'a>) -> Result<PushOrder<'a>, Halt<PushFault>> {
        push_order(alloc, places.data_folder, self.path)
    }

    fn run<
        D: Disk,
        S: Disk,
        T: DataFolder,
        V: ServerConnection,
        A: OtherProcesses<D, S>,
        C: Clock,
        K: Locks,
        I: InputFiles,
        O: OutputStream,
        L: Link,
        U: Scheduler,
    >(
        &self,
        alloc: Global,
        outside: &mut Outside<D, S, T, V, A, C, K, I, O, L, U>,
        places: &Places<'a>,
        order: PushOrder<'a>,
        ready: Ready,
    ) -> Result<Outcome, Halt<PushFault>> {
        let (Some(control), Some(archive)) = (&ready.control, &ready.archive) else {
            unreachable!();
        };
        push_file(
            alloc,
            &mut outside.repo,
            &mut outside.tree,
            &outside.locks,
            places.stanza,
            order,
            control,
            archive,
        )
    }
}
