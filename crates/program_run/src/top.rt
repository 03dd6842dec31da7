// The top call: from arguments to a status.
ghost use Rattle.std.specs.Prelude.{◌≡◌, []};
ghost use Rattle.worker_pool.specs.Pools.{links_in};
ghost use Rattle.cmd_trait.specs.Code.{AreWorkers};
ghost use Rattle.cmd_trait.specs.Kept.{KeepsFolder, KeepsServer, KeepsSpool, KeepsWorkers, OnlyAnswers};
ghost use Rattle.program_run.specs.Answers.{Answers, Finishes, PartDone, StaysAt, FulfilsAt, LeavesRest, LeavesOthers, OpensPlaces, OnlyLocked, Completes, ClosesTalk};
ghost use Rattle.program_run.specs.Configuring.{NamesNone};
ghost use Rattle.program_run.specs.Ranges.{AsksNoServer, UsesNoSpool, UsesNoWorkers, IsOnRepository, NoneAsked, OnEach, OnArguments, KeptIf, IfAll};

use crate::commands::carry;
use crate::config::read_command;
use crate::refusal::refuse;
use archive_lookup::OtherProcesses;
use base_devices::{
    Clock, DataFolder, Disk, InputFiles, Link, Locks, OutputStream, Scheduler, ServerConnection,
};
use cmd_trait::{Modelled, Outside};
use std::alloc::Global;
use std::marker::Model;

/// The status that the program ends with. Only `run` makes one.
#[derive(Drop)]
pub struct Status {
    code: u8,
}

impl Model for Status {
    ghost use Rattle.std.specs.Prelude.{ℕ};

    ghost Value = { ℕ };

    ghost view = { λ s. s.code };
}

impl Status {
    /// Its number, for the system.
    pub fn code(&self) -> u8
        ensures { result ≡ self.now }
    {
        self.code
    }
}

/// Does what the arguments and their configuration ask for, writes the output, and returns the status that the
/// program ends with.
pub fn run<
    D: Disk,
    S: Disk,
    T: DataFolder,
    V: ServerConnection,
    A: OtherProcesses<D, S>,
    C: Clock,
    K: Locks,
    I: InputFiles,
    O: OutputStream,
    L: Link,
    U: Scheduler,
>(
    alloc: Global,
    arguments: &[String],
    outside: &mut Outside<D, S, T, V, A, C, K, I, O, L, U>,
) -> Status
    requires free { (K.state outside.old.locks).taken ≡ [] }
    requires workers { AreWorkers (links_in L.link_state outside.old.pool) }

    // The arguments are refused, and nothing is done; or what they resolve to is done, with its cause, and
    // reported. What follows of steps, promises and places is a part of this, for each command that the arguments
    // ask for.
    ensures answers { OnArguments ⟦<Outside<D, S, T, V, A, C, K, I, O, L, U> as Modelled>⟧.known Answers
        arguments.now outside.old outside.new result }

    // At 0 all of the command's steps are done: in what the disks hold, and in all that a crash leaves.
    ensures done { result ≡ 0
        → OnEach ⟦<Outside<D, S, T, V, A, C, K, I, O, L, U> as Modelled>⟧.known Finishes arguments.now
        outside.old outside.new }

    // After every answer a part of them is, and at each moment between whatever a crash leaves represents the log
    // with a part.
    ensures part { OnEach ⟦<Outside<D, S, T, V, A, C, K, I, O, L, U> as Modelled>⟧.known PartDone arguments.now
        outside.old outside.new }

    // A refusal for what was found takes no step but the steps of others that were waited for, nor does one for a
    // connection to the server that failed.
    ensures stays { OnEach ⟦<Outside<D, S, T, V, A, C, K, I, O, L, U> as Modelled>⟧.known (StaysAt result)
        arguments.now outside.old outside.new }

    // At 0, 1 and 65 the command keeps its promise, and its lines are written.
    ensures fulfils { OnEach ⟦<Outside<D, S, T, V, A, C, K, I, O, L, U> as Modelled>⟧.known (FulfilsAt result)
        arguments.now outside.old outside.new }

    // What the command has no use for stays, no place but those of the arguments is opened, and without its locks
    // nothing is done.
    ensures rests { OnEach ⟦<Outside<D, S, T, V, A, C, K, I, O, L, U> as Modelled>⟧.known LeavesRest arguments.now
        outside.old outside.new }
    // Of every other stanza in form all stays, at its end and in all that a crash leaves at each moment, where what
    // others did meanwhile is known.
    ensures others { OnEach ⟦<Outside<D, S, T, V, A, C, K, I, O, L, U> as Modelled>⟧.known LeavesOthers
        arguments.now outside.old outside.new }
    ensures places { OnEach ⟦<Outside<D, S, T, V, A, C, K, I, O, L, U> as Modelled>⟧.known OpensPlaces arguments.now
        outside.old outside.new }
    ensures locked { OnEach ⟦<Outside<D, S, T, V, A, C, K, I, O, L, U> as Modelled>⟧.known OnlyLocked arguments.now
        outside.old outside.new }

    // Where no cause of a refusal holds the command succeeds, or memory ran out.
    ensures complete { OnArguments ⟦<Outside<D, S, T, V, A, C, K, I, O, L, U> as Modelled>⟧.known Completes
        arguments.now outside.old outside.new result }

    // After a server's answer that is refused the talk was ended.
    ensures closed { let known = ⟦<Outside<D, S, T, V, A, C, K, I, O, L, U> as Modelled>⟧.known in
        ClosesTalk (known outside.old) (known outside.new) result }

    // Arguments that ask for nothing do nothing. A command that asks no server leaves the connection unchanged, one
    // that uses no worker the workers, and info and verify the data folder and the locks.
    ensures unasked { NoneAsked ⟦<Outside<D, S, T, V, A, C, K, I, O, L, U> as Modelled>⟧.known arguments.now
        outside.old → OnlyAnswers outside.old outside.new }
    ensures quiet { IfAll ⟦<Outside<D, S, T, V, A, C, K, I, O, L, U> as Modelled>⟧.known AsksNoServer arguments.now
        KeepsServer outside.old outside.new }
    ensures alone { KeptIf ⟦<Outside<D, S, T, V, A, C, K, I, O, L, U> as Modelled>⟧.known UsesNoWorkers
        arguments.now KeepsWorkers outside.old outside.new }
    ensures unused { KeptIf ⟦<Outside<D, S, T, V, A, C, K, I, O, L, U> as Modelled>⟧.known IsOnRepository
        arguments.now KeepsFolder outside.old outside.new }

    // Commands that use neither the spool nor steps of other processes leave both unchanged.
    ensures untouched { IfAll ⟦<Outside<D, S, T, V, A, C, K, I, O, L, U> as Modelled>⟧.known UsesNoSpool
        arguments.now KeepsSpool outside.old outside.new }

    // No lock is held afterwards, and the configuration's files are unchanged.
    ensures released { (K.state outside.new.locks).taken ≡ [] }
    ensures files { (I.state outside.new.config).files ≡ (I.state outside.old.config).files }

    // With `--no-config` no file of it is opened or read.
    ensures unread { NamesNone arguments.now → outside.new.config ≡ outside.old.config }
{
    let command = match read_command(alloc, arguments, &mut outside.config) {
        Ok(command) => command,
        Err(fault) => {
            let unknown = Vec::new(alloc);
            return Status {
                code: refuse(alloc, &mut outside.out, &unknown, fault),
            };
        }
    };
    Status {
        code: carry(alloc, &command, outside),
    }
}
