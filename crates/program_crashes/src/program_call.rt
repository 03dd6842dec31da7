// Calls the program once.
ghost use Rattle.std.specs.Prelude.{◌≡◌, []};
ghost use Rattle.worker_pool.specs.Pools.{links_in};
ghost use Rattle.cmd_trait.specs.Code.{AreWorkers};
ghost use Rattle.program_run.specs.Ranges.{OnArguments};
ghost use Rattle.program_crashes.specs.Acts.{IsCall};
ghost use Rattle.program_crashes.specs.Led.{ShowsBetween, LeadsBetween};

use archive_lookup::OtherProcesses;
use base_devices::{
    Clock, DataFolder, Disk, InputFiles, Link, Locks, OutputStream, Scheduler, ServerConnection,
};
use cmd_trait::{Modelled, Outside};
use program_run::run;
use std::alloc::Global;

/// Calls the program on a data folder whose contents are known; and where it waits for steps of other processes, these
/// say what they did.
pub fn called<
    D: Disk,
    S: Disk,
    T: DataFolder,
    V: ServerConnection,
    A: OtherProcesses<D, S>,
    C: Clock,
    K: Locks,
    I: InputFiles,
    O: OutputStream,
    L: Link,
    U: Scheduler,
>(alloc: Global, arguments: &[String], outside: &mut Outside<D, S, T, V, A, C, K, I, O, L, U>) -> u8
    requires free { (K.state outside.old.locks).taken ≡ [] }
    requires workers { AreWorkers (links_in L.link_state outside.old.pool) }
    // It does what `run` does.
    ensures call { OnArguments ⟦<Outside<D, S, T, V, A, C, K, I, O, L, U> as Modelled>⟧.known IsCall
        arguments.now outside.old outside.new result }
    // The arguments are refused and nothing is done, or the call that they ask for is, as a trace has it.
    ensures shown { OnArguments ⟦<Outside<D, S, T, V, A, C, K, I, O, L, U> as Modelled>⟧.known ShowsBetween
        arguments.now outside.old outside.new result }
    // From disks that keep a list of calls it leads to disks that keep it with this one, whether the call ends or is
    // stopped. Where it succeeded it gave what it promises, and each file is there that was pushed.
    ensures went { OnArguments ⟦<Outside<D, S, T, V, A, C, K, I, O, L, U> as Modelled>⟧.known LeadsBetween
        arguments.now outside.old outside.new result }
    ensures free { (K.state outside.new.locks).taken ≡ [] }
{
    run(alloc, arguments, outside).code()
}
