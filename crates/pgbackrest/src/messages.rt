// Messages on standard error, if `log-level-stderr` asks for them, and in the log file. They never change what a
// command does.
use crate::asked::Asked;
use crate::guards::is_for_server;
use crate::levels::{Level, lines_of};
use crate::log_output::Log;
use adapters_files::{
    RealClock, RealConnection, RealDataFolder, RealDisk, RealInputFiles, RealLocks, RealOutput,
};
use adapters_process::{Others, RealLink, RoundRobin};
use cmd_trait::Outside;
use options_read::{Command, LogWord};
use options_table::Verb;
use std::alloc::AllocError;

// The status of an option that is missing, and that of a configuration that can't be read.
const MISSING: u8 = 7;

const UNREADABLE: u8 = 86;

/// The objects of the system that the program works on.
pub type System = Outside<
    RealDisk,
    RealDisk,
    RealDataFolder,
    RealConnection,
    Others,
    RealClock,
    RealLocks,
    RealInputFiles,
    RealOutput,
    RealLink,
    RoundRobin,
>;

/// What is to be shown of one command.
#[derive(Drop)]
pub struct Telling {
    rt: HostRuntime,
    asked: Asked,
    log: Option<Log>,
    // whether the lines count as written that can't be
    drops: bool,
}

impl Telling {
    /// Before the command, which has no log file yet.
    pub fn new(rt: HostRuntime, asked: Asked, arguments: &[String]) -> Self {
        Telling {
            rt,
            asked,
            log: None,
            drops: is_for_server(arguments),
        }
    }

    /// From now on its log file gets the lines, and first its arguments.
    pub fn open_log(&mut self, arguments: &[String]) -> Result<(), AllocError> {
        if let Some(command) = &self.asked.command {
            self.log = Log::of(self.rt, command)?;
        }
        match &mut self.log {
            Some(log) => log.begin(arguments),
            None => Ok(()),
        }
    }

    /// The output of the command.
    pub fn output(&self) -> RealOutput {
        let mut out = RealOutput::new(self.rt);
        if self.log.is_some() || !matches!(self.asked.level, LogWord::Nothing) {
            out.keep();
        }
        if self.drops {
            out.drop_what_fails();
        }
        out
    }

    /// The command, where it isn't refused for its arguments.
    pub fn command(&self) -> Option<&Command> {
        self.asked.command.as_ref()
    }

    /// The command whose progress is to be seen.
    pub fn progress(&self) -> Option<Verb> {
        match &self.asked.command {
            Some(command) if matches!(self.asked.level, LogWord::Progress) => Some(command.verb),
            _ => None,
        }
    }

    /// After the command, which ended with this status; an object of the system failed for this reason.
    pub fn end(
        &mut self,
        out: &RealOutput,
        failed: Option<Failed<'_>>,
        status: u8,
    ) -> Result<(), AllocError> {
        let reasons = self.reasons(failed, status)?;
        let is_blind = self.is_blind(status);
        for line in &lines_of(self.rt.alloc(), out.kept(), &reasons)? {
            let is_wanted = line.level != Level::Info && line.level.is_in(self.asked.level);
            if is_wanted || (is_blind && line.explains) {
                let text = line.text.as_str();
                let _ = eprintln!(self.rt; "{text}");
            }
            if let Some(log) = &mut self.log {
                log.add(line)?;
            }
        }
        match &mut self.log {
            Some(log) => log.end(status),
            None => Ok(()),
        }
    }

    // Whether no option could be read that asks for a reason.
    fn is_blind(&self, status: u8) -> bool {
        let is_absent = self
            .asked
            .config
            .as_ref()
            .is_some_and(|config| !config.is_there);
        status == UNREADABLE || (status == MISSING && is_absent)
    }

    // Why the command ended so.
    fn reasons(&self, failed: Option<Failed<'_>>, status: u8) -> Result<Vec<String>, AllocError> {
        let alloc = self.rt.alloc();
        let mut reasons = Vec::new(alloc);
        if let Some(Failed { object, reason }) = failed {
            reasons.push(format!(in alloc; "{object}: {reason}")?)?;
        }
        match &self.asked.config {
            Some(config) if status == MISSING => {
                let path = config.path.as_str();
                let found = if config.is_there {
                    "was read"
                } else {
                    "is not there"
                };
                reasons.push(format!(in alloc; "configuration: '{path}' {found}")?)?;
            }
            _ => {}
        }
        Ok(reasons)
    }
}

/// An object of the system that failed, and what failed of it.
#[derive(Clone, Copy)]
pub struct Failed<'a> {
    object: &'static str,
    reason: &'a str,
}

/// Shows how much a command has written that succeeded.
pub fn end_progress(outside: &System, progress: Option<Verb>) {
    match progress {
        Some(Verb::Backup) => outside.repo.end_progress(),
        Some(Verb::Restore) => outside.tree.end_progress(),
        _ => {}
    }
}

/// The object whose failure the status reports.
pub fn failure_of(outside: &System, status: u8) -> Option<Failed<'_>> {
    let (object, reason) = match status {
        80 => ("repository", outside.repo.last_failure()),
        81 => ("spool", outside.spool.last_failure()),
        82 => ("data folder", outside.tree.last_failure()),
        83 => ("server connection", outside.server.last_failure()),
        84 => ("clock", outside.clock.last_failure()),
        85 => ("lock", outside.locks.last_failure()),
        86 => ("configuration", outside.config.last_failure()),
        87 => ("output", outside.out.last_failure()),
        _ => return None,
    };
    Some(Failed {
        object,
        reason: reason?,
    })
}
