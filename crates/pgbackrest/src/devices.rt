// The objects of the system, as the options of the command ask for them.
ghost use Rattle.std.specs.Prelude.{◌≡◌, [], IfOk};

use crate::guards::data_folder;
use crate::messages::Telling;
use adapters_files::{RealClock, RealConnection, RealDataFolder, RealDisk, RealLocks, RealOutput};
use adapters_process::Others;
use base_devices::{DeviceError, Locks, OutputStream};
use options_read::Command;
use options_table::Verb;
use std::os::unix::fs::MetadataExt;
use std::{fs, io};

/// Those for which a command has options.
#[derive(Drop)]
pub struct Devices {
    pub repo: RealDisk,
    pub tree: RealDataFolder,
    pub server: RealConnection,
    pub processes: Others,
    pub clock: RealClock,
    pub locks: RealLocks,
    pub out: RealOutput,
    /// How long a worker is waited for, in seconds: 0 is for ever.
    pub worker_timeout: u64,
}

/// The objects of a command, whose background processes run this program.
pub fn make_devices(rt: HostRuntime, program: String, messages: &Telling) -> io::Result<Devices>
    ensures { IfOk result (λ d. (⟦<RealLocks as Locks>⟧.state d.locks).taken ≡ []) }
{
    let mut devices = Devices {
        repo: RealDisk::new(rt),
        tree: RealDataFolder::new(rt),
        server: RealConnection::new(rt),
        processes: Others::new(rt, program),
        clock: RealClock::new(rt),
        locks: locks(rt, messages.command())?,
        out: messages.output(),
        worker_timeout: 0,
    };
    devices.show(messages.progress());
    if let Some(command) = messages.command() {
        devices.prepare(rt, command)?;
    }
    Ok(devices)
}

// The locks, which are those of the repository's folders too.
fn locks(rt: HostRuntime, command: Option<&Command>) -> io::Result<RealLocks>
    ensures { IfOk result (λ l. (⟦<RealLocks as Locks>⟧.state l).taken ≡ []) }
{
    let mut locks = RealLocks::new(rt);
    if let Some(command) = command {
        locks.guard(&command.options.repo1_path)?;
    }
    Ok(locks)
}

impl Devices {
    // What is to be shown meanwhile.
    fn show(&mut self, progress: Option<Verb>)
        ensures { self.new.locks ≡ self.old.locks }
    {
        match progress {
            Some(Verb::Backup) => {
                self.repo.tell_progress();
                self.tree.show_total();
                self.server.show_waiting();
                self.processes.show_waiting("the server's archive_command");
            }
            Some(Verb::Restore) => {
                self.repo.show_total();
                self.tree.tell_progress();
            }
            _ => {}
        }
    }

    fn prepare(&mut self, rt: HostRuntime, command: &Command) -> io::Result<()>
        ensures { self.new.locks ≡ self.old.locks }
    {
        let data = data_folder(command);
        self.worker_timeout = command.options.io_timeout;
        self.server.set_timeout(command.options.db_timeout);
        if let Ok(seen) = fs::metadata(&rt, data) {
            self.server.expect_owner(seen.uid());
        }
        self.own(command.verb);
        if command.verb == Verb::Backup {
            self.tree.pass_over_omitted();
        }
        match command.verb {
            Verb::Restore => {
                self.tree.restores();
                self.tree.hold();
            }
            Verb::Backup if command.options.online => {
                self.tree.log_is_folder();
                self.clock.by_folder(data)?;
            }
            Verb::Backup => {
                let file = format!(in rt.alloc(); "{data}/postmaster.pid")?;
                self.repo.refuse_list_beside(&file)?;
            }
            _ => {}
        }
        Ok(())
    }

    // What a command's locks protect from others.
    fn own(&mut self, verb: Verb)
        ensures { self.new.locks ≡ self.old.locks }
    {
        match verb {
            Verb::ArchivePush | Verb::ArchivePushAsync => self.repo.is_only_writer_in("archive"),
            Verb::Backup | Verb::Expire => self.repo.is_only_writer_in("backup"),
            Verb::StanzaCreate | Verb::StanzaUpgrade | Verb::Rehearse => {
                self.repo.is_only_writer_in("archive");
                self.repo.is_only_writer_in("backup");
            }
            _ => {}
        }
    }
}

/// Writes a line to the output.
pub fn put_line(out: &mut RealOutput, line: &str) -> Result<(), DeviceError> {
    let mut rest = line.as_bytes();
    for _ in 0..line.len() {
        if !rest.is_empty() {
            let count = out.write(rest)?;
            rest = &rest[count..];
        }
    }
    Ok(())
}
