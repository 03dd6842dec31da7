// rehearse.
ghost use Rattle.std.specs.Prelude.{◌≡◌};
ghost use Rattle.run_rehearse.specs.Rehearsing.{rehearse_meaning, size_by};
ghost use Rattle.run_rehearse.specs.Lawful.{rehearse_lawful};

use crate::sample_order::SampleOrder;
use archive_lookup::OtherProcesses;
use base_devices::{
    Clock, DataFolder, Disk, InputFiles, Link, Locks, OutputStream, Scheduler, ServerConnection,
};
use base_text::NoMemory;
use cmd_backup_common::TakeOrder;
use cmd_rehearse::{RehearseFault, RehearseOrder, rehearse_message, rehearse_status};
use cmd_setup::Ready;
use cmd_trait::{Command, Outside, Places};
use cmd_types::{Halt, Outcome, Pairs, Plan, SyncScope};
use std::alloc::Global;

/// rehearse: a sample cluster of this size lives its whole life, with as many workers at most for each of its steps.
#[derive(Clone, Copy)]
pub struct Rehearse {
    pub workers: u32,
    pub number: u32,
}

impl<'a> Command<'a> for Rehearse {
    type Fault = RehearseFault;

    type Order = SampleOrder;

    ghost meaning = { λ c. rehearse_meaning c.number };

    ghost lawful = { λ c. rehearse_lawful c.number };

    ghost is_order = { λ c _ o. (o.workers ≡ c.workers) × (o.number ≡ size_by c.number) };

    fn plan(&self) -> Plan {
        Plan {
            sync_scope: SyncScope::Whole,
            folder: true,
            backup_lock: true,
            archive_lock: true,
            control: false,
            pairs: Pairs::Unread,
        }
    }

    fn is_staged(&self) -> bool {
        true
    }

    fn spool(&self) -> Option<&str> {
        None
    }

    fn status(&self, fault: &RehearseFault) -> u8 {
        rehearse_status(fault)
    }

    fn message(&self, alloc: Global, fault: &RehearseFault) -> Result<Vec<u8>, NoMemory> {
        rehearse_message(alloc, fault)
    }

    fn lines<'b>(&self, _fault: &'b RehearseFault) -> &'b str {
        ""
    }

    fn read(
        &self,
        _alloc: Global,
        _places: &Places<'a>,
    ) -> Result<SampleOrder, Halt<RehearseFault>> {
        Ok(SampleOrder {
            workers: self.workers,
            // The option's bounds keep its size.
            number: self.number.min(64),
        })
    }

    fn run<
        D: Disk,
        S: Disk,
        T: DataFolder,
        V: ServerConnection,
        A: OtherProcesses<D, S>,
        C: Clock,
        K: Locks,
        I: InputFiles,
        O: OutputStream,
        L: Link,
        U: Scheduler,
    >(
        &self,
        alloc: Global,
        outside: &mut Outside<D, S, T, V, A, C, K, I, O, L, U>,
        places: &Places<'a>,
        order: SampleOrder,
        _ready: Ready,
    ) -> Result<Outcome, Halt<RehearseFault>> {
        let sample = RehearseOrder {
            stanza: places.stanza,
            take: TakeOrder {
                data_folder: places.data_folder,
                repository: places.repository,
                workers: order.workers,
            },
            number: order.number,
        };
        cmd_rehearse::rehearse(
            alloc,
            &mut outside.repo,
            &mut outside.tree,
            &mut outside.clock,
            &outside.locks,
            &mut outside.pool,
            &sample,
        )
    }
}
