// info.
ghost use Rattle.run_info.specs.Informing.{info_meaning, info_lawful};

use archive_lookup::OtherProcesses;
use base_devices::{
    Clock, DataFolder, Disk, InputFiles, Link, Locks, OutputStream, Scheduler, ServerConnection,
};
use base_text::NoMemory;
use cmd_info::report_stanza;
use cmd_setup::Ready;
use cmd_trait::{Command, Outside, Places};
use cmd_types::{Halt, Outcome, Pairs, Plan, StageFault, SyncScope, stage_message, stage_status};
use options_read::OutputWord;
use std::alloc::Global;

/// info: the report in this form.
#[derive(Clone, Copy)]
pub struct Info {
    pub form: OutputWord,
}

impl<'a> Command<'a> for Info {
    type Fault = StageFault;

    type Order = ();

    ghost meaning = { λ c. info_meaning c.form };

    ghost lawful = { λ c. info_lawful c.form };

    ghost is_order = { λ _ _ _. Unit {0} };

    fn plan(&self) -> Plan {
        Plan {
            sync_scope: SyncScope::Whole,
            folder: false,
            backup_lock: false,
            archive_lock: false,
            control: false,
            pairs: Pairs::ReadBoth,
        }
    }

    fn is_staged(&self) -> bool {
        true
    }

    fn spool(&self) -> Option<&str> {
        None
    }

    fn status(&self, fault: &StageFault) -> u8 {
        stage_status(fault)
    }

    fn message(&self, alloc: Global, fault: &StageFault) -> Result<Vec<u8>, NoMemory> {
        stage_message(alloc, fault)
    }

    fn lines<'b>(&self, _fault: &'b StageFault) -> &'b str {
        ""
    }

    fn read(&self, _alloc: Global, _places: &Places<'a>) -> Result<(), Halt<StageFault>> {
        Ok(())
    }

    fn run<
        D: Disk,
        S: Disk,
        T: DataFolder,
        V: ServerConnection,
        A: OtherProcesses<D, S>,
        C: Clock,
        K: Locks,
        I: InputFiles,
        O: OutputStream,
        L: Link,
        U: Scheduler,
    >(
        &self,
        alloc: Global,
        outside: &mut Outside<D, S, T, V, A, C, K, I, O, L, U>,
        places: &Places<'a>,
        _order: (),
        ready: Ready,
    ) -> Result<Outcome, Halt<StageFault>> {
        let (Some(archive), Some(backup)) = (&ready.archive, &ready.backup) else {
            unreachable!();
        };
        report_stanza(
            alloc,
            &mut outside.repo,
            places.stanza,
            archive,
            backup,
            self.form,
        )
    }
}
