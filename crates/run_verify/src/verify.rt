// verify.
ghost use Rattle.run_verify.specs.Verifying.{verify_meaning, verify_lawful};

use archive_lookup::OtherProcesses;
use base_devices::{
    Clock, DataFolder, Disk, InputFiles, Link, Locks, OutputStream, Scheduler, ServerConnection,
};
use base_text::NoMemory;
use cmd_setup::Ready;
use cmd_trait::{Command, Outside, Places};
use cmd_types::{Halt, Outcome, Pairs, Plan, SyncScope};
use cmd_verify::{VerifyCommandFault, verify_message, verify_stanza, verify_status};
use std::alloc::Global;

/// verify: it has no arguments of its own.
#[derive(Clone, Copy)]
pub struct Verify;

impl<'a> Command<'a> for Verify {
    type Fault = VerifyCommandFault;

    type Order = ();

    ghost meaning = { λ _. verify_meaning };

    ghost lawful = { λ _. verify_lawful };

    ghost is_order = { λ _ _ _. Unit {0} };

    fn plan(&self) -> Plan {
        Plan {
            sync_scope: SyncScope::Whole,
            folder: false,
            backup_lock: false,
            archive_lock: false,
            control: false,
            pairs: Pairs::ReadBoth,
        }
    }

    fn is_staged(&self) -> bool {
        true
    }

    fn spool(&self) -> Option<&str> {
        None
    }

    fn status(&self, fault: &VerifyCommandFault) -> u8 {
        verify_status(fault)
    }

    fn message(&self, alloc: Global, fault: &VerifyCommandFault) -> Result<Vec<u8>, NoMemory> {
        verify_message(alloc, fault)
    }

    fn lines<'b>(&self, _fault: &'b VerifyCommandFault) -> &'b str {
        ""
    }

    fn read(&self, _alloc: Global, _places: &Places<'a>) -> Result<(), Halt<VerifyCommandFault>> {
        Ok(())
    }

    fn run<
        D: Disk,
        S: Disk,
        T: DataFolder,
        V: ServerConnection,
        A: OtherProcesses<D, S>,
        C: Clock,
        K: Locks,
        I: InputFiles,
        O: OutputStream,
        L: Link,
        U: Scheduler,
    >(
        &self,
        alloc: Global,
        outside: &mut Outside<D, S, T, V, A, C, K, I, O, L, U>,
        places: &Places<'a>,
        _order: (),
        ready: Ready,
    ) -> Result<Outcome, Halt<VerifyCommandFault>> {
        let Some(backup) = &ready.backup else {
            unreachable!();
        };
        verify_stanza(alloc, &mut outside.repo, places.stanza, backup)
    }
}
