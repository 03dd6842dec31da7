// The commands: one arm each.
ghost use Rattle.std.specs.Prelude.{◌≡◌, true, [], string_bytes};
ghost use Rattle.options_read.specs.Commands.{IsCommand};
ghost use Rattle.options_read.specs.Settings.{Resolved};
ghost use Rattle.base_model.specs.StanzaName.{is_stanza};
ghost use Rattle.worker_pool.specs.Pools.{links_in};
ghost use Rattle.cmd_trait.specs.Code.{AreWorkers};
ghost use Rattle.cmd_trait.specs.Kept.{KeepsFolder, KeepsServer, KeepsSpool, KeepsWorkers};
ghost use Rattle.program_run.specs.Answers.{Obeys};
ghost use Rattle.program_run.specs.Ranges.{AsksNoServer, UsesNoSpool, UsesNoWorkers, IsOnRepository, OnResolved, WhereResolved};

use crate::given::{create_of, offline_of, online_of, places_of, rules, upgrade_of};
use archive_lookup::OtherProcesses;
use base_devices::{
    Clock, DataFolder, Disk, InputFiles, Link, Locks, OutputStream, Scheduler, ServerConnection,
};
use cmd_trait::{Modelled, Outside, first_of, second_of};
use options_read::Command;
use options_table::Verb;
use run_archive_get::{ArchiveGet, ArchiveGetThrough};
use run_archive_get_async::ArchiveGetAsync;
use run_archive_push::{ArchivePush, ArchivePushQueued};
use run_archive_push_async::ArchivePushAsync;
use run_expire::Expire;
use run_info::Info;
use run_rehearse::Rehearse;
use run_restore::Restore;
use run_verify::Verify;
use std::alloc::Global;

/// Does what the command asks for, writes the output, and returns the status that the program ends with.
pub fn carry<
    D: Disk,
    S: Disk,
    T: DataFolder,
    V: ServerConnection,
    A: OtherProcesses<D, S>,
    C: Clock,
    K: Locks,
    I: InputFiles,
    O: OutputStream,
    L: Link,
    U: Scheduler,
>(alloc: Global, command: &Command, outside: &mut Outside<D, S, T, V, A, C, K, I, O, L, U>) -> u8
    requires free { (K.state outside.old.locks).taken ≡ [] }
    requires workers { AreWorkers (links_in L.link_state outside.old.pool) }
    requires settled { (s : Resolved) × IsCommand command.now s }
    requires form { is_stanza (string_bytes command.now.stanza) ≡ true }
    // What was asked for is done and reported.
    ensures obeys { OnResolved ⟦<Outside<D, S, T, V, A, C, K, I, O, L, U> as Modelled>⟧.known Obeys command.now
        outside.old outside.new result }
    ensures released { (K.state outside.new.locks).taken ≡ [] }
    ensures quiet { WhereResolved command.now AsksNoServer (KeepsServer outside.old outside.new) }
    ensures alone { WhereResolved command.now UsesNoWorkers (KeepsWorkers outside.old outside.new) }
    ensures waits { WhereResolved command.now UsesNoSpool (KeepsSpool outside.old outside.new) }
    ensures unused { WhereResolved command.now IsOnRepository (KeepsFolder outside.old outside.new) }
    ensures config { outside.new.config ≡ outside.old.config }
{
    let places = places_of(command);
    let options = &command.options;
    let unknown = &command.warnings;
    match command.verb {
        Verb::StanzaCreate => outside.obey(alloc, &create_of(command), &places, unknown),
        Verb::StanzaUpgrade => outside.obey(alloc, &upgrade_of(command), &places, unknown),
        Verb::ArchivePush => {
            let path = first_of(&command.given);
            if options.archive_async {
                let push = ArchivePushQueued {
                    path,
                    spool: &options.spool_path,
                    turns: options.archive_timeout,
                };
                return outside.obey(alloc, &push, &places, unknown);
            }
            outside.obey(alloc, &ArchivePush { path }, &places, unknown)
        }
        Verb::ArchivePushAsync => {
            let push = ArchivePushAsync {
                spool: &options.spool_path,
            };
            outside.obey(alloc, &push, &places, unknown)
        }
        Verb::ArchiveGet => {
            let name = first_of(&command.given);
            let path = second_of(&command.given);
            if options.archive_async {
                let get = ArchiveGetThrough {
                    name,
                    path,
                    spool: &options.spool_path,
                    queue: options.archive_get_queue_max,
                };
                return outside.obey(alloc, &get, &places, unknown);
            }
            outside.obey(alloc, &ArchiveGet { name, path }, &places, unknown)
        }
        Verb::ArchiveGetAsync => {
            let get = ArchiveGetAsync {
                name: first_of(&command.given),
                spool: &options.spool_path,
                queue: options.archive_get_queue_max,
            };
            outside.obey(alloc, &get, &places, unknown)
        }
        Verb::Backup => {
            if options.online {
                return outside.obey(alloc, &online_of(command), &places, unknown);
            }
            outside.obey(alloc, &offline_of(command), &places, unknown)
        }
        Verb::Restore => {
            let restore = Restore::from_options(options);
            outside.obey(alloc, &restore, &places, unknown)
        }
        Verb::Info => {
            let info = Info {
                form: options.output,
            };
            outside.obey(alloc, &info, &places, unknown)
        }
        Verb::Verify => outside.obey(alloc, &Verify, &places, unknown),
        Verb::Expire => {
            let expire = Expire {
                rules: rules(command),
            };
            outside.obey(alloc, &expire, &places, unknown)
        }
        Verb::Rehearse => {
            let rehearse = Rehearse {
                workers: options.process_max,
                number: options.number.unwrap_or(0),
            };
            outside.obey(alloc, &rehearse, &places, unknown)
        }
    }
}
