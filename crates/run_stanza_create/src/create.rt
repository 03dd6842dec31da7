// stanza-create.
ghost use Rattle.std.specs.Prelude.{option_map};
ghost use Rattle.cmd_stanza_create.specs.Server.{server_view};
ghost use Rattle.run_stanza_create.specs.Creating.{create_meaning};
ghost use Rattle.run_stanza_create.specs.Lawful.{create_lawful};

use archive_lookup::OtherProcesses;
use base_devices::{
    Clock, DataFolder, Disk, InputFiles, Link, Locks, OutputStream, Scheduler, ServerConnection,
};
use base_text::NoMemory;
use cmd_setup::Ready;
use cmd_stanza_create::{CreateFault, Server, create_message, create_stanza, create_status};
use cmd_trait::{Command, Outside, Places};
use cmd_types::{Halt, Outcome, Pairs, Plan, SyncScope};
use std::alloc::Global;

/// stanza-create: the server that is asked for its system, where one is.
#[derive(Clone, Copy)]
pub struct StanzaCreate<'a> {
    pub server: Option<Server<'a>>,
}

impl<'a> Command<'a> for StanzaCreate<'a> {
    type Fault = CreateFault;

    type Order = ();

    ghost meaning = { λ c. create_meaning (option_map server_view c.server) };

    ghost lawful = { λ c. create_lawful (option_map server_view c.server) };

    ghost is_order = { λ _ _ _. Unit {0} };

    fn plan(&self) -> Plan {
        Plan {
            sync_scope: SyncScope::Whole,
            folder: true,
            backup_lock: true,
            archive_lock: true,
            control: true,
            pairs: Pairs::Unread,
        }
    }

    fn is_staged(&self) -> bool {
        true
    }

    fn spool(&self) -> Option<&str> {
        None
    }

    fn status(&self, fault: &CreateFault) -> u8 {
        create_status(fault)
    }

    fn message(&self, alloc: Global, fault: &CreateFault) -> Result<Vec<u8>, NoMemory> {
        create_message(alloc, fault)
    }

    fn lines<'b>(&self, _fault: &'b CreateFault) -> &'b str {
        ""
    }

    fn read(&self, _alloc: Global, _places: &Places<'a>) -> Result<(), Halt<CreateFault>> {
        Ok(())
    }

    fn run<
        D: Disk,
        S: Disk,
        T: DataFolder,
        V: ServerConnection,
        A: OtherProcesses<D, S>,
        C: Clock,
        K: Locks,
        I: InputFiles,
        O: OutputStream,
        L: Link,
        U: Scheduler,
    >(
        &self,
        alloc: Global,
        outside: &mut Outside<D, S, T, V, A, C, K, I, O, L, U>,
        places: &Places<'a>,
        _order: (),
        ready: Ready,
    ) -> Result<Outcome, Halt<CreateFault>> {
        let Some(control) = &ready.control else {
            unreachable!();
        };
        create_stanza(
            alloc,
            &mut outside.repo,
            &mut outside.server,
            &outside.locks,
            places.stanza,
            control,
            self.server,
        )
    }
}
