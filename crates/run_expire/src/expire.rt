// expire.
ghost use Rattle.run_expire.specs.Expiring.{expire_meaning};
ghost use Rattle.run_expire.specs.Lawful.{expire_lawful};

use archive_lookup::OtherProcesses;
use base_devices::{
    Clock, DataFolder, Disk, InputFiles, Link, Locks, OutputStream, Scheduler, ServerConnection,
};
use base_text::NoMemory;
use cmd_expire::{ExpireCommandFault, InfoValues, expire_message, expire_stanza, expire_status};
use cmd_setup::Ready;
use cmd_trait::{Command, Outside, Places};
use cmd_types::{Halt, Outcome, Pairs, Plan, SyncScope};
use expire_rules::Rules;
use std::alloc::Global;

/// expire: what these rules don't keep is removed.
#[derive(Clone, Copy)]
pub struct Expire {
    pub rules: Rules,
}

impl<'a> Command<'a> for Expire {
    type Fault = ExpireCommandFault;

    type Order = ();

    ghost meaning = { λ c. expire_meaning c.rules };

    ghost lawful = { λ c. expire_lawful c.rules };

    ghost is_order = { λ _ _ _. Unit {0} };

    fn plan(&self) -> Plan {
        Plan {
            sync_scope: SyncScope::Whole,
            folder: false,
            backup_lock: true,
            archive_lock: false,
            control: false,
            pairs: Pairs::ReadBoth,
        }
    }

    fn is_staged(&self) -> bool {
        true
    }

    fn spool(&self) -> Option<&str> {
        None
    }

    fn status(&self, fault: &ExpireCommandFault) -> u8 {
        expire_status(fault)
    }

    fn message(&self, alloc: Global, fault: &ExpireCommandFault) -> Result<Vec<u8>, NoMemory> {
        expire_message(alloc, fault)
    }

    fn lines<'b>(&self, _fault: &'b ExpireCommandFault) -> &'b str {
        ""
    }

    fn read(&self, _alloc: Global, _places: &Places<'a>) -> Result<(), Halt<ExpireCommandFault>> {
        Ok(())
    }

    fn run<
        D: Disk,
        S: Disk,
        T: DataFolder,
        V: ServerConnection,
        A: OtherProcesses<D, S>,
        C: Clock,
        K: Locks,
        I: InputFiles,
        O: OutputStream,
        L: Link,
        U: Scheduler,
    >(
        &self,
        alloc: Global,
        outside: &mut Outside<D, S, T, V, A, C, K, I, O, L, U>,
        places: &Places<'a>,
        _order: (),
        ready: Ready,
    ) -> Result<Outcome, Halt<ExpireCommandFault>> {
        let (Some(archive), Some(backup)) = (ready.archive, ready.backup) else {
            unreachable!();
        };
        expire_stanza(
            alloc,
            &mut outside.repo,
            &mut outside.clock,
            &outside.locks,
            places.stanza,
            &self.rules,
            InfoValues { archive, backup },
        )
    }
}
