// stanza-upgrade.
ghost use Rattle.std.specs.Prelude.{option_map};
ghost use Rattle.cmd_stanza_create.specs.Server.{server_view};
ghost use Rattle.run_stanza_upgrade.specs.Upgrading.{upgrade_meaning};
ghost use Rattle.run_stanza_upgrade.specs.Lawful.{upgrade_lawful};

use archive_lookup::OtherProcesses;
use base_devices::{
    Clock, DataFolder, Disk, InputFiles, Link, Locks, OutputStream, Scheduler, ServerConnection,
};
use base_text::NoMemory;
use cmd_setup::Ready;
use cmd_stanza_create::Server;
use cmd_stanza_upgrade::{
    StanzaValues, UpgradeCommandFault, upgrade_message, upgrade_stanza, upgrade_status,
};
use cmd_trait::{Command, Outside, Places};
use cmd_types::{Halt, Outcome, Pairs, Plan, SyncScope};
use std::alloc::Global;

/// stanza-upgrade: the server that is asked for its system, where one is.
#[derive(Clone, Copy)]
pub struct StanzaUpgrade<'a> {
    pub server: Option<Server<'a>>,
}

impl<'a> Command<'a> for StanzaUpgrade<'a> {
    type Fault = UpgradeCommandFault;

    type Order = ();

    ghost meaning = { λ c. upgrade_meaning (option_map server_view c.server) };

    ghost lawful = { λ c. upgrade_lawful (option_map server_view c.server) };

    ghost is_order = { λ _ _ _. Unit {0} };

    fn plan(&self) -> Plan {
        Plan {
            sync_scope: SyncScope::Whole,
            folder: true,
            backup_lock: true,
            archive_lock: true,
            control: true,
            pairs: Pairs::ReadBoth,
        }
    }

    fn is_staged(&self) -> bool {
        true
    }

    fn spool(&self) -> Option<&str> {
        None
    }

    fn status(&self, fault: &UpgradeCommandFault) -> u8 {
        upgrade_status(fault)
    }

    fn message(&self, alloc: Global, fault: &UpgradeCommandFault) -> Result<Vec<u8>, NoMemory> {
        upgrade_message(alloc, fault)
    }

    fn lines<'b>(&self, _fault: &'b UpgradeCommandFault) -> &'b str {
        ""
    }

    fn read(&self, _alloc: Global, _places: &Places<'a>) -> Result<(), Halt<UpgradeCommandFault>> {
        Ok(())
    }

    fn run<
        D: Disk,
        S: Disk,
        T: DataFolder,
        V: ServerConnection,
        A: OtherProcesses<D, S>,
        C: Clock,
        K: Locks,
        I: InputFiles,
        O: OutputStream,
        L: Link,
        U: Scheduler,
    >(
        &self,
        alloc: Global,
        outside: &mut Outside<D, S, T, V, A, C, K, I, O, L, U>,
        places: &Places<'a>,
        _order: (),
        ready: Ready,
    ) -> Result<Outcome, Halt<UpgradeCommandFault>> {
        let (Some(control), Some(archive), Some(backup)) = (
            ready.control,
            ready.archive,
            ready.backup,
        ) else {
            unreachable!();
        };
        upgrade_stanza(
            alloc,
            &mut outside.repo,
            &mut outside.server,
            &outside.locks,
            places.stanza,
            self.server,
            StanzaValues {
                control,
                archive,
                backup,
            },
        )
    }
}
